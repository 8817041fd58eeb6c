//! Why a command was not done.
ghost use Rattle.std.specs.Prelude.{◌≡◌};
ghost use Rattle.node_commands.specs.Faults.{fault_of_bytes, fault_of_place};
ghost use Rattle.node_commands.specs.declared.faults.CommandFault.TheVariants.{Memory, Node, Write};

use byte_fields::{DecodeFault, SpellingFault};
use durable_node::NodeFault;
use load_places::PlaceFault;
use script_pipes::WriteFault;
use std::alloc::AllocError;
use thiserror::Error;

/// Why a command was not done.
#[derive(Clone, Copy, Debug, PartialEq, Eq, Error)]
pub enum CommandFault {
    /// A read failed, or there is more to read than 1 GiB.
    #[error("read fault")]
    Read,
    /// A write failed or took no byte. A prefix of the answer was written.
    #[error("write fault")]
    Write,
    /// Memory ran out.
    #[error("out of memory")]
    Memory,
    /// The node refused it.
    #[error("{0}")]
    Node(NodeFault),
    /// What was read spells no such value.
    #[error("{0}")]
    Bytes(SpellingFault),
    /// The text names no place.
    #[error("{0}")]
    Place(PlaceFault),
    /// Z9: the log has no edit of the place with this version, or it is a removal.
    #[error("Z9 NoEdit")]
    NoEdit,
}

impl From<AllocError> for CommandFault {
    ghost from_gives = { λ _ fault. fault ≡ Memory };

    fn from(_: AllocError) -> CommandFault {
        CommandFault::Memory
    }
}

impl From<NodeFault> for CommandFault {
    ghost from_gives = { λ refused fault. fault ≡ Node refused };

    fn from(refused: NodeFault) -> CommandFault {
        CommandFault::Node(refused)
    }
}

impl From<WriteFault> for CommandFault {
    ghost from_gives = { λ _ fault. fault ≡ Write };

    fn from(_: WriteFault) -> CommandFault {
        CommandFault::Write
    }
}

impl From<DecodeFault> for CommandFault {
    ghost from_gives = { λ refused fault. fault ≡ fault_of_bytes refused };

    fn from(refused: DecodeFault) -> CommandFault {
        match refused {
            DecodeFault::Memory => CommandFault::Memory,
            DecodeFault::Fault(fault) => CommandFault::Bytes(fault),
        }
    }
}

impl From<PlaceFault> for CommandFault {
    ghost from_gives = { λ refused fault. fault ≡ fault_of_place refused };

    fn from(refused: PlaceFault) -> CommandFault {
        match refused {
            PlaceFault::Memory => CommandFault::Memory,
            other => CommandFault::Place(other),
        }
    }
}
