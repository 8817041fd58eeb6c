//! Why bytes can't be read.
ghost use Rattle.std.specs.Prelude.{◌≡◌};
ghost use Rattle.byte_fields.specs.declared.faults.DecodeFault.TheVariants as decode;

use std::alloc::{AllocError, AllocFailed};
use thiserror::Error;

/// What is wrong with bytes: the first fault from their start, but for the checksum, which is tested before what it
/// covers.
#[derive(Clone, Copy, Debug, PartialEq, Eq, Error)]
pub enum SpellingFault {
    /// Y1: the bytes end inside a field.
    #[error("Y1 Truncated")]
    Truncated,
    /// Y2: the bytes don't begin as every file of the format does.
    #[error("Y2 Magic")]
    Magic,
    /// Y3: another version of the format.
    #[error("Y3 Format")]
    Format,
    /// Y4: another kind of value.
    #[error("Y4 Kind")]
    Kind,
    /// Y5: the checksum isn't that of the bytes before it.
    #[error("Y5 Checksum")]
    Checksum,
    /// Y6: a number isn't in its shortest form, or is too great.
    #[error("Y6 Number")]
    Number,
    /// Y7: no host's name.
    #[error("Y7 Host")]
    Host,
    /// Y8: no path.
    #[error("Y8 Path")]
    Path,
    /// Y9: no content.
    #[error("Y9 Content")]
    Content,
    /// Y10: a key isn't greater than the key before it.
    #[error("Y10 Order")]
    Order,
    /// Y11: bytes follow the last field.
    #[error("Y11 Trailing")]
    Trailing,
}

/// Why nothing was read.
#[derive(Clone, Copy, Debug, PartialEq, Eq, Error)]
pub enum DecodeFault {
    /// Memory ran out.
    #[error("out of memory")]
    Memory,
    /// The bytes spell no such value.
    #[error("{0}")]
    Fault(SpellingFault),
}

impl From<AllocError> for DecodeFault {
    ghost from_gives = { λ _ e. e ≡ decode.Memory };

    fn from(_e: AllocError) -> DecodeFault {
        DecodeFault::Memory
    }
}

impl<T: Drop> From<AllocFailed<T>> for DecodeFault {
    ghost from_gives = { λ _ e. e ≡ decode.Memory };

    fn from(_e: AllocFailed<T>) -> DecodeFault {
        DecodeFault::Memory
    }
}
