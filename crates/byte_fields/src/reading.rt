//! Fields that are read from the start of bytes.
ghost use Rattle.std.specs.Prelude.{◌≡◌};
ghost use Rattle.byte_fields.specs.Reading.{Gives, byte_at, long_string_at, number_at, number_at_most, short_string_at};

use crate::faults::{DecodeFault, SpellingFault};

/// Returns the first byte, and the bytes after it. `Truncated` if there is none. Allocates nothing.
pub fn byte_of(bytes: &[u8]) -> Result<(u8, &[u8]), DecodeFault>
    ensures read { Gives (λ x. (x.0, x.1.now)) result (byte_at bytes.now) }
{
    match bytes {
        [byte, rest @ ..] => Ok((*byte, rest)),
        [] => Err(DecodeFault::Fault(SpellingFault::Truncated)),
    }
}

/// Returns the number at the start, and the bytes after it. `Truncated` if the bytes end before the number does, and
/// `Number` if it isn't in its shortest form or isn't below 2^64. Allocates nothing, and reads at most 10 bytes.
pub fn number_of(bytes: &[u8]) -> Result<(u64, &[u8]), DecodeFault>
    ensures read { Gives (λ x. (x.0, x.1.now)) result (number_at bytes.now) }
{
    number_of_at_most(bytes, 10)
}

// The same for a number of at most this many bytes.
#[tactic(auto, using(crate::proofs::Steps::more_bytes, crate::proofs::Steps::no_bytes))]
fn number_of_at_most(bytes: &[u8], most: u8) -> Result<(u64, &[u8]), DecodeFault>
    ensures read { Gives (λ x. (x.0, x.1.now)) result (number_at_most most bytes.now) }
{
    if most == 0 {
        return Err(DecodeFault::Fault(SpellingFault::Number));
    }
    let (low, rest) = byte_of(bytes)?;
    if low < 128 {
        return Ok((low as u64, rest));
    }
    let (high, rest) = number_of_at_most(rest, most - 1)?;
    if high == 0 || high >= 144_115_188_075_855_872 {
        return Err(DecodeFault::Fault(SpellingFault::Number));
    }
    Ok((low as u64 - 128 + 128 * high, rest))
}

/// Borrows the string of fewer than 256 bytes at the start, and the bytes after it. `Truncated` if the bytes end before
/// it does. Allocates nothing.
#[tactic(auto, unfolding(crate::specs::Reading::short_string_at))]
pub fn short_string_of(bytes: &[u8]) -> Result<(&[u8], &[u8]), DecodeFault>
    ensures read { Gives (λ x. (x.0.now, x.1.now)) result (short_string_at bytes.now) }
{
    let (len, rest) = byte_of(bytes)?;
    let len = len as usize;
    if rest.len() < len {
        return Err(DecodeFault::Fault(SpellingFault::Truncated));
    }
    Ok(rest.split_at(len))
}

/// Borrows the string at the start, and the bytes after it. `Number` if its length is no number, `Truncated` if the
/// bytes end before it does. Allocates nothing.
#[tactic(auto, unfolding(crate::specs::Reading::long_string_at))]
pub fn long_string_of(bytes: &[u8]) -> Result<(&[u8], &[u8]), DecodeFault>
    ensures read { Gives (λ x. (x.0.now, x.1.now)) result (long_string_at bytes.now) }
{
    let (len, rest) = number_of(bytes)?;
    let len = len as usize;
    if rest.len() < len {
        return Err(DecodeFault::Fault(SpellingFault::Truncated));
    }
    Ok(rest.split_at(len))
}
