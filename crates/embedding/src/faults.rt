//! What may go wrong.
use fleet_answers::AnswerFault;
use fleet_script::ShellFault;
use replica_store::{ContentFault, EditFault, PlaceFault};
use std::alloc::{AllocError, AllocFailed};
use thiserror::Error;
use unit_name::NameFault;

/// What may go wrong in these examples.
#[derive(Clone, Copy, Debug, Error)]
pub enum EmbeddingFault {
    /// A text that writes no place.
    #[error("{0}")]
    Place(#[from] PlaceFault),
    /// Bytes that are no content.
    #[error("{0}")]
    Content(#[from] ContentFault),
    /// An edit that a replica refuses.
    #[error("{0}")]
    Edit(#[from] EditFault),
    /// Bytes that are no unit's name.
    #[error("{0}")]
    Name(#[from] NameFault),
    /// A script that wasn't answered to its end.
    #[error("{0}")]
    Script(#[from] ShellFault),
    /// A question without an answer.
    #[error("{0}")]
    Answer(#[from] AnswerFault),
    /// Bytes that are no message.
    #[error("no message")]
    Message,
    /// A node that threads share refused a call.
    #[error("the node refused")]
    Node,
    /// Memory ran out.
    #[error("out of memory")]
    Memory(#[from] AllocError),
}

impl<T: Drop> From<AllocFailed<T>> for EmbeddingFault {
    fn from(_fault: AllocFailed<T>) -> EmbeddingFault {
        EmbeddingFault::Memory(AllocError)
    }
}
