//! Refusals of a node that lasts.
ghost use Rattle.std.specs.Prelude.{◌≡◌};
ghost use Rattle.durable_node.specs.Faults.{fault_of_log};
ghost use Rattle.durable_node.specs.declared.faults.NodeFault.TheVariants.{Memory};

use edit_log::LogFault;
use std::alloc::AllocError;
use thiserror::Error;

/// Why a node refused a call.
#[derive(Clone, Copy, Debug, PartialEq, Eq, Error)]
pub enum NodeFault {
    /// Z1: there is a file already.
    #[error("Z1 Exists")]
    Exists,
    /// Z2: this is no log of edits.
    #[error("Z2 NotANode")]
    NotANode,
    /// Z3: a log of another format.
    #[error("Z3 Format")]
    Format,
    /// Z4: another process has it open.
    #[error("Z4 Busy")]
    Busy,
    /// Z5: the disk refused or failed.
    #[error("Z5 Disk")]
    Disk,
    /// Z6: an earlier call of this node was refused by its log, so it has to be opened anew.
    #[error("Z6 Spent")]
    Spent,
    /// Z7: a counter of 2^63 or more, which no log holds.
    #[error("Z7 Counter")]
    Counter,
    /// Memory ran out.
    #[error("out of memory")]
    Memory,
}

impl From<LogFault> for NodeFault {
    ghost from_gives = { λ refused fault. fault ≡ fault_of_log refused };

    fn from(refused: LogFault) -> NodeFault {
        match refused {
            LogFault::Exists => NodeFault::Exists,
            LogFault::NotANode => NodeFault::NotANode,
            LogFault::Busy => NodeFault::Busy,
            LogFault::Disk => NodeFault::Disk,
            LogFault::Memory => NodeFault::Memory,
        }
    }
}

impl From<AllocError> for NodeFault {
    ghost from_gives = { λ _ fault. fault ≡ Memory };

    fn from(_: AllocError) -> NodeFault {
        NodeFault::Memory
    }
}
