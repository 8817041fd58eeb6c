//! Why a tree was not written.
ghost use Rattle.std.specs.Prelude.{◌≡◌};
ghost use Rattle.tree_files.specs.declared.faults.TreeFault.TheVariants.{Memory};

use std::alloc::AllocError;
use std::io;
use std::io::ErrorKind;
use thiserror::Error;

/// Why a tree was not written.
#[derive(Clone, Copy, Debug, PartialEq, Eq, Error)]
pub enum TreeFault {
    /// Z8: the folder holds something and has no manifest of an earlier tree. Nothing is written.
    #[error("Z8 NotATree")]
    NotATree,
    /// Z5: the disk refused or failed, or something that is no folder stands where one has to be. Each file is an old one or
    /// a new one, and the manifest lists them all.
    #[error("Z5 Disk")]
    Disk,
    /// Memory ran out.
    #[error("out of memory")]
    Memory,
}

impl From<AllocError> for TreeFault {
    ghost from_gives = { λ _ fault. fault ≡ Memory };

    fn from(_: AllocError) -> TreeFault {
        TreeFault::Memory
    }
}

impl From<io::Error> for TreeFault {
    fn from(error: io::Error) -> TreeFault {
        match error.kind() {
            ErrorKind::OutOfMemory => TreeFault::Memory,
            _ => TreeFault::Disk,
        }
    }
}
