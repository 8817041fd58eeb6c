//! Why a node refuses.
use crate::post::Told;
use join_law::Version;
use node_histories::NodeName;
use thiserror::Error;

/// Why a node gives no seat, or why it didn't accept or publish a take.
pub enum NodeFault<N: NodeName> {
    /// A2: all seats are given out, or there is no slot for another reader.
    NoSeat,
    /// A3: the take was accepted, an edit under this version, but memory ran out before it was published. The seat has
    /// seen what it had seen; its count is one greater. The node's next `edit`, `absorb` or `close` publishes the take
    /// first.
    Pending {
        /// The edit's version; none for a piece.
        version: Option<Version>,
    },
    /// A5: the node's count of takes, or the seat's, is the greatest number already. Nothing changed. The token is one
    /// of the node's history.
    TakesSpent(Told<N>),
    /// A6: the seat has seen more takes (the first number) than the node has (the second). Nothing changed.
    Disagree(u64, u64),
    /// E1: the store holds the greatest counter already. Nothing changed.
    VersionsSpent,
    /// Memory ran out, and nothing was accepted. A pending take may have been published.
    Memory,
}

impl<N: NodeName> Drop for NodeFault<N> {
    fn drop(self) {
        match self {
            NodeFault::NoSeat => (),
            NodeFault::Pending { version: _ } => (),
            NodeFault::TakesSpent(_) => (),
            NodeFault::Disagree(_, _) => (),
            NodeFault::VersionsSpent => (),
            NodeFault::Memory => (),
        }
    }
}

/// Why a node isn't closed.
#[derive(Clone, Copy, Debug, PartialEq, Eq, Error)]
pub enum CloseCause {
    /// A4: this many of the seats that were given out are missing.
    #[error("A4 SeatsOut {0}")]
    SeatsOut(usize),
    /// A6: the node counted other takes for a seat than the seat did, or fewer in all than the seat has seen. The
    /// seat's number, then the node's.
    #[error("A6 Disagree {0} {1}")]
    Disagree(u64, u64),
    /// Memory ran out: a pending take couldn't be published, or the replica couldn't be copied.
    #[error("out of memory")]
    Memory,
}
