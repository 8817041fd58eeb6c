//! Errors of crowds.
use thiserror::Error;

/// Why a crowd has no result. The replica is unchanged.
#[derive(Clone, Copy, Debug, PartialEq, Eq, Error)]
pub enum CrowdFault {
    /// A1: the number of seats isn't 1 to 64.
    #[error("A1 Seats")]
    Seats,
    /// Memory ran out, or the node refused a seat, an edit or its close.
    #[error("out of memory")]
    Memory,
}
