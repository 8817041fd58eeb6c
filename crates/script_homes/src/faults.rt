//! Why a script was not answered to its end at a node whose edits are kept.
ghost use Rattle.std.specs.Prelude.{◌≡◌};
ghost use Rattle.script_homes.specs.declared.faults.KeptFault.TheVariants.{Memory, Unkept, Write};

use crate::homes::Unkept;
use script_pipes::WriteFault;
use std::alloc::AllocError;
use thiserror::Error;

/// Why a script was not answered to its end at a node whose edits are kept.
#[derive(Clone, Copy, Debug, PartialEq, Eq, Error)]
pub enum KeptFault {
    /// A read failed, or the script is longer than the limit. Nothing was written, and nothing was kept.
    #[error("read fault")]
    Read,
    /// A write failed or took no byte. A prefix of the answers was written, and what their lines did is kept.
    #[error("write fault")]
    Write,
    /// Memory ran out. A prefix of the answers was written, and what their lines did is kept.
    #[error("out of memory")]
    Memory,
    /// What the node holds could not be kept. A prefix of the answers was written, and what their lines did is kept.
    #[error("not kept")]
    Unkept,
}

impl From<WriteFault> for KeptFault {
    ghost from_gives = { λ _ fault. fault ≡ Write };

    fn from(_refused: WriteFault) -> KeptFault {
        KeptFault::Write
    }
}

impl From<Unkept> for KeptFault {
    ghost from_gives = { λ _ fault. fault ≡ Unkept };

    fn from(_refused: Unkept) -> KeptFault {
        KeptFault::Unkept
    }
}

impl From<AllocError> for KeptFault {
    ghost from_gives = { λ _ fault. fault ≡ Memory };

    fn from(_: AllocError) -> KeptFault {
        KeptFault::Memory
    }
}
