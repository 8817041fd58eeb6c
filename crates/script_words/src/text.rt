//! Text with escapes.
ghost use Rattle.std.specs.{Prelude.{◌≡◌, ◌<◌, MatchOption, IfOk, IfSome, SomeIff, length}, Char.{digit_value}};
ghost use Rattle.script_words.specs.Text.{Spells, IsBadText, byte_read, escape_read, hex_read};

use bstr::ByteSlice;
use std::alloc::{AllocError, Global};

/// Returns the bytes that a text spells, or `None` if a backslash in it doesn't begin an escape.
///
/// The escapes are `\n`, `\t`, `\\` and `\xHH`, with hexadecimal digits of either case; every other byte stands for
/// itself. Allocates once, as many bytes as the text has, and fails only if memory runs out.
pub fn unescape(alloc: Global, text: &[u8]) -> Result<Option<Vec<u8>>, AllocError>
    ensures bytes { IfOk result
        (λ found. MatchOption found (IsBadText text.now) (λ bytes. Spells text.now bytes.items)) }
{
    let mut bytes = Vec::with_capacity(alloc, text.len())?;
    let mut rest = text;
    while let Some(at) = rest.find_byte(b'\\') {
        bytes.extend_from_slice(&rest[..at])?;
        let Some((byte, after)) = read_escape(&rest[at + 1..]) else {
            return Ok(None);
        };
        bytes.push(byte)?;
        rest = after;
    }
    bytes.extend_from_slice(rest)?;
    Ok(Some(bytes))
}

// Returns the byte that an escape spells, given the text after its backslash, and the text after the escape.
fn read_escape(text: &[u8]) -> Option<(u8, &[u8])>
    ensures value { MatchOption result (escape_read text.now ≡ None)
        (λ read. escape_read text.now ≡ Some (read.0, read.1.now)) }
    ensures shorter { IfSome result (λ read. length read.1.now < length text.now) }
{
    let (letter, rest) = text.split_first()?;
    match *letter {
        b'n' => Some((b'\n', rest)),
        b't' => Some((b'\t', rest)),
        b'\\' => Some((b'\\', rest)),
        b'x' => read_hex(rest),
        _ => None,
    }
}

// Returns the byte that two hexadecimal digits spell, and the text after them.
fn read_hex(text: &[u8]) -> Option<(u8, &[u8])>
    ensures value { MatchOption result (hex_read text.now ≡ None)
        (λ read. hex_read text.now ≡ Some (read.0, read.1.now)) }
    ensures shorter { IfSome result (λ read. length read.1.now < length text.now) }
{
    let (high, rest) = text.split_first()?;
    let (low, rest) = rest.split_first()?;
    let high = digit_value(*high)?;
    let low = digit_value(*low)?;
    Some((16 * high + low, rest))
}

// Returns the value of a hexadecimal digit of either case.
fn digit_value(b: u8) -> Option<u8>
    ensures value { SomeIff result (digit_value b < 16) (digit_value b) }
{
    match b {
        b'0'..=b'9' => Some(b - b'0'),
        b'A'..=b'F' => Some(b - b'A' + 10),
        b'a'..=b'f' => Some(b - b'a' + 10),
        _ => None,
    }
}
