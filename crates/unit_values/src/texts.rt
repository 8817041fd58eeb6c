//! Texts: what stands before a byte, and texts behind each other.
ghost use Rattle.std.specs.{List.{before_first, before_last, suffix_len}, Prelude.{IfOk, length, not, position, ◌++◌, ◌-◌, ◌==◌, ◌≡◌, ◌≤◌}};

use std::alloc::{AllocError, Global};

/// Returns the bytes before the last `mark`; nothing if there is none.
pub fn before_last(bytes: &[u8], mark: u8) -> &[u8]
    ensures part { result.now ≡ before_last (λ b. b == mark) bytes.now }
{
    let end = place_after_last(bytes, mark);
    &bytes[..end.saturating_sub(1)]
}

// Returns the index after the last `mark`, or 0.
fn place_after_last(bytes: &[u8], mark: u8) -> usize
    ensures within { result ≤ length bytes.now }
    ensures place { result ≡ length bytes.now - suffix_len (λ b. not (b == mark)) bytes.now }
{
    let mut end = bytes.len();
    while end > 0 && bytes[end - 1] != mark {
        end -= 1;
    }
    end
}

/// Returns the bytes before the first `mark`; all if there is none.
pub fn before_first(bytes: &[u8], mark: u8) -> &[u8]
    ensures part { result.now ≡ before_first (λ b. b == mark) bytes.now }
{
    &bytes[..first_place(bytes, mark).unwrap_or(bytes.len())]
}

fn first_place(bytes: &[u8], mark: u8) -> Option<usize>
    ensures place { result ≡ position (λ b. b == mark) bytes.now }
{
    bytes.iter().position(|byte| *byte == mark)
}

/// Returns three texts, one behind the other.
pub fn between(
    alloc: Global,
    before: &[u8],
    text: &[u8],
    after: &[u8],
) -> Result<Vec<u8>, AllocError>
    ensures text { IfOk result (λ whole. whole.items ≡ before.now ++ text.now ++ after.now) }
{
    let mut whole = Vec::from_slice(alloc, before)?;
    whole.extend_from_slice(text)?;
    whole.extend_from_slice(after)?;
    Ok(whole)
}
