//! Finding the parts of a name in its bytes.
ghost use Rattle.std.specs.{Prelude.{◌≡◌, ◌≤◌, ◌-◌, ◌==◌, length, not, position}, List.{position_or_len, suffix_len, after_last}};
ghost use Rattle.unit_name.specs.Names.{is_at, stem, suffix, prefix, instance, kind, is_name_byte, bad_place};

use crate::kinds::{Kind, kind_of_word};

/// Returns the bytes before the last dot.
pub(crate) fn stem_of(bytes: &[u8]) -> &[u8]
    ensures stem { result.now ≡ stem bytes.now }
{
    let end = place_after_last(bytes, b'.');
    &bytes[..end.saturating_sub(1)]
}

/// Returns the bytes after the last dot.
pub(crate) fn suffix_of(bytes: &[u8]) -> &[u8]
    ensures suffix { result.now ≡ suffix bytes.now }
{
    after_last(bytes, b'.')
}

/// Returns the bytes before the first at sign of the stem, or the whole stem.
pub(crate) fn prefix_of(bytes: &[u8]) -> &[u8]
    ensures prefix { result.now ≡ prefix bytes.now }
{
    let stem = stem_of(bytes);
    &stem[..first_at(stem)]
}

/// Returns the bytes after the first at sign of the stem, or nothing.
pub(crate) fn instance_of(bytes: &[u8]) -> &[u8]
    ensures instance { result.now ≡ instance bytes.now }
{
    let stem = stem_of(bytes);
    let at = first_at(stem);
    if at < stem.len() {
        &stem[at + 1..]
    } else {
        &[]
    }
}

/// Returns the kind that the suffix says.
pub(crate) fn kind_in(bytes: &[u8]) -> Option<Kind>
    ensures kind { result ≡ kind bytes.now }
{
    if bytes.contains(&b'.') {
        kind_of_word(suffix_of(bytes))
    } else {
        None
    }
}

/// Returns whether a byte is allowed in a stem.
#[tactic(auto, unfolding(crate::specs::Names::is_name_byte))]
pub(crate) fn is_name_byte(byte: u8) -> bool
    ensures test { result ≡ is_name_byte byte }
{
    byte.is_ascii_alphanumeric() || matches!(byte, b':' | b'-' | b'_' | b'.' | b'\\' | b'@')
}

/// Returns the index of the first byte that isn't allowed in a stem.
pub(crate) fn bad_place(stem: &[u8]) -> Option<usize>
    ensures place { result ≡ bad_place stem.now }
{
    stem.iter().position(|byte| !is_name_byte(*byte))
}

// Returns the index of the first at sign, or the length.
fn first_at(bytes: &[u8]) -> usize
    ensures place { result ≡ position_or_len is_at bytes.now }
{
    at_place(bytes).unwrap_or(bytes.len())
}

fn at_place(bytes: &[u8]) -> Option<usize>
    ensures place { result ≡ position is_at bytes.now }
{
    bytes.iter().position(|byte| *byte == b'@')
}

/// Returns the bytes after the last `mark`, or all if there is none.
pub(crate) fn after_last(bytes: &[u8], mark: u8) -> &[u8]
    ensures part { result.now ≡ after_last (λ b. b == mark) bytes.now }
{
    &bytes[place_after_last(bytes, mark)..]
}

// Returns the index after the last `mark`, or 0.
fn place_after_last(bytes: &[u8], mark: u8) -> usize
    ensures within { result ≤ length bytes.now }
    ensures place { result ≡ length bytes.now - suffix_len (λ b. not (b == mark)) bytes.now }
{
    let mut end = bytes.len();
    while end > 0 && bytes[end - 1] != mark {
        end -= 1;
    }
    end
}
