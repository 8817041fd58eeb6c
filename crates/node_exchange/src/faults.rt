//! Why an exchange ended early.
ghost use Rattle.std.specs.Prelude.{◌≡◌};
ghost use Rattle.node_exchange.specs.Faults.{fault_of_bytes};
ghost use Rattle.node_exchange.specs.declared.faults.ExchangeFault.TheVariants.{Memory, Node, Write};

use byte_fields::{DecodeFault, SpellingFault};
use durable_node::NodeFault;
use script_pipes::WriteFault;
use std::alloc::AllocError;
use thiserror::Error;

/// Why an exchange ended before one side asked for no answer. What was committed before stays.
#[derive(Clone, Copy, Debug, PartialEq, Eq, Error)]
pub enum ExchangeFault {
    /// A read failed.
    #[error("read fault")]
    Read,
    /// A write failed or took no byte, because the peer is gone, say.
    #[error("write fault")]
    Write,
    /// Memory ran out.
    #[error("out of memory")]
    Memory,
    /// The node refused what came.
    #[error("{0}")]
    Node(NodeFault),
    /// What came is no frame. `Truncated` also where the peer ended before its message did.
    #[error("{0}")]
    Bytes(SpellingFault),
    /// A frame of more than a megabyte.
    #[error("a frame is longer than a megabyte")]
    Length,
    /// The peer's first frame doesn't say who it is.
    #[error("the peer doesn't say who it is")]
    Hello,
    /// X7: the peer writes under this node's number.
    #[error("X7 WriterTaken")]
    WriterTaken,
    /// More frames or more turns than any exchange needs.
    #[error("the exchange has no end")]
    Endless,
}

impl From<AllocError> for ExchangeFault {
    ghost from_gives = { λ _ fault. fault ≡ Memory };

    fn from(_: AllocError) -> ExchangeFault {
        ExchangeFault::Memory
    }
}

impl From<NodeFault> for ExchangeFault {
    ghost from_gives = { λ refused fault. fault ≡ Node refused };

    fn from(refused: NodeFault) -> ExchangeFault {
        ExchangeFault::Node(refused)
    }
}

impl From<WriteFault> for ExchangeFault {
    ghost from_gives = { λ _ fault. fault ≡ Write };

    fn from(_: WriteFault) -> ExchangeFault {
        ExchangeFault::Write
    }
}

impl From<DecodeFault> for ExchangeFault {
    ghost from_gives = { λ refused fault. fault ≡ fault_of_bytes refused };

    fn from(refused: DecodeFault) -> ExchangeFault {
        match refused {
            DecodeFault::Memory => ExchangeFault::Memory,
            DecodeFault::Fault(fault) => ExchangeFault::Bytes(fault),
        }
    }
}
