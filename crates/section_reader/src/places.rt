//! The state of the reader between two lines.

use plain_values::Bytes;

/// Which section a line belongs to, unless it begins with a bracket.
#[derive(Debug, Drop)]
pub(crate) enum Place {
    /// There was no header yet, good or bad.
    Outside,
    /// The last header has this name.
    Inside(Bytes),
    /// The last header was bad, so the line is skipped.
    PassedOver,
}
