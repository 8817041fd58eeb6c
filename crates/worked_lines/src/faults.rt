//! Errors of lines.
use delta_pieces::TakeFault;
use edit_sums::ContentFault;
use load_path::PathFault;
use replica_store::{HostFault, PlaceFault, Rest};
use std::alloc::{AllocError, AllocFailed};
use thiserror::Error;
use unit_name::NameFault;

/// Why a line has no answer. The two are all that a line's answer tells apart, and a flat enum is cheap to prove.
#[derive(Clone, Copy, Debug, PartialEq, Eq, Error)]
pub enum LineFault {
    /// It isn't a call: a word is missing, isn't what the call takes, or is one too many.
    #[error("no such call")]
    Words,
    /// Memory ran out.
    #[error("out of memory")]
    Memory,
}

impl LineFault {
    // The fault where memory ran out or not.
    fn of(is_memory: bool) -> LineFault {
        if is_memory {
            LineFault::Memory
        } else {
            LineFault::Words
        }
    }
}

impl From<AllocError> for LineFault {
    fn from(_fault: AllocError) -> LineFault {
        LineFault::Memory
    }
}

impl<T: Drop> From<AllocFailed<T>> for LineFault {
    fn from(_fault: AllocFailed<T>) -> LineFault {
        LineFault::Memory
    }
}

impl From<PathFault> for LineFault {
    fn from(fault: PathFault) -> LineFault {
        LineFault::of(matches!(fault, PathFault::Memory))
    }
}

impl From<HostFault> for LineFault {
    fn from(fault: HostFault) -> LineFault {
        LineFault::of(matches!(fault, HostFault::Memory))
    }
}

impl From<PlaceFault> for LineFault {
    fn from(fault: PlaceFault) -> LineFault {
        LineFault::of(matches!(fault, PlaceFault::Memory))
    }
}

impl From<NameFault> for LineFault {
    fn from(fault: NameFault) -> LineFault {
        LineFault::of(matches!(fault, NameFault::Memory))
    }
}

impl From<ContentFault> for LineFault {
    fn from(fault: ContentFault) -> LineFault {
        LineFault::of(matches!(fault, ContentFault::Memory))
    }
}

impl<T: Drop> From<Rest<T>> for LineFault {
    fn from(_refused: Rest<T>) -> LineFault {
        LineFault::Memory
    }
}

impl From<TakeFault> for LineFault {
    fn from(_refused: TakeFault) -> LineFault {
        LineFault::Memory
    }
}
