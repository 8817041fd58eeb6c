//! Escaping of bytes in unit names (systemd.unit(5), "String Escaping for Inclusion in Unit Names").
ghost use Rattle.std.specs.Prelude.{◌≡◌, ◌<◌, ◌≤◌, ◌∷◌, ◌++◌, [], length, true, false, is_some, IfOk, OnOk, IfSome, MatchOption};
ghost use Rattle.std.specs.Char.{digit_char};
ghost use Rattle.unit_name.specs.Escapes.{is_kept, hex_escape, escaped_byte, escaped_first, escape, hex_byte, put_first, unescape};

use std::alloc::{AllocError, Global};

/// Escapes bytes so that they can be part of a unit name. `/` becomes `-`. ASCII letters and digits, `:`, `_` and `.`
/// are kept. Every other byte, and a `.` at the very start, becomes `\x` and two lower-case hexadecimal digits.
pub fn escape(alloc: Global, text: &[u8]) -> Result<Vec<u8>, AllocError>
    ensures escaped { IfOk result (λ escaped. escaped.items ≡ escape text.now) }
{
    let mut escaped = Vec::new(alloc);
    if let Some((first, rest)) = text.split_first() {
        push_first(&mut escaped, *first)?;
        for byte in rest {
            push_escaped(&mut escaped, *byte)?;
        }
    }
    Ok(escaped)
}

// Appends the first byte, which is escaped if it is a dot.
fn push_first(out: &mut Vec<u8>, byte: u8) -> Result<(), AllocError>
    ensures escaped { OnOk result (out.new.items ≡ out.old.items ++ escaped_first byte) }
{
    if byte == b'.' {
        push_hex(out, byte)
    } else {
        push_escaped(out, byte)
    }
}

#[tactic(auto, unfolding(crate::specs::Escapes::escaped_byte))]
fn push_escaped(out: &mut Vec<u8>, byte: u8) -> Result<(), AllocError>
    ensures escaped { OnOk result (out.new.items ≡ out.old.items ++ escaped_byte byte) }
{
    if byte == b'/' {
        out.push(b'-')?;
    } else if is_kept(byte) {
        out.push(byte)?;
    } else {
        push_hex(out, byte)?;
    }
    Ok(())
}

#[tactic(auto, unfolding(crate::specs::Escapes::is_kept))]
fn is_kept(byte: u8) -> bool
    ensures test { result ≡ is_kept byte }
{
    byte.is_ascii_alphanumeric() || matches!(byte, b':' | b'_' | b'.')
}

#[tactic(auto, unfolding(crate::specs::Escapes::hex_escape))]
fn push_hex(out: &mut Vec<u8>, byte: u8) -> Result<(), AllocError>
    ensures escaped { OnOk result (out.new.items ≡ out.old.items ++ hex_escape byte) }
{
    out.push(b'\\')?;
    out.push(b'x')?;
    out.push(hex_digit(byte / 16))?;
    out.push(hex_digit(byte % 16))?;
    Ok(())
}

fn hex_digit(digit: u8) -> u8
    requires { digit < 16 }
    ensures digit { result ≡ digit_char digit }
{
    if digit < 10 {
        b'0' + digit
    } else {
        b'a' + (digit - 10)
    }
}

/// Returns the bytes that an escaped text spells, the inverse of `escape`: `-` is `/`, `\xHH` is the byte with these
/// two hexadecimal digits of either case, and other bytes are kept. Returns `None` if a backslash is used in any other
/// way (systemd-escape(1), `--unescape`).
pub fn unescape(alloc: Global, text: &[u8]) -> Result<Option<Vec<u8>>, AllocError>
    ensures unescaped { IfOk result
        (λ found. MatchOption found (unescape text.now ≡ None) (λ bytes.
        unescape text.now ≡ Some bytes.items)) }
{
    let mut bytes = Vec::new(alloc);
    let is_whole = push_unescaped(&mut bytes, text)?;
    Ok(if is_whole { Some(bytes) } else { None })
}

/// Appends the bytes that an escaped text spells, and returns whether the text is valid. If it isn't, some bytes may
/// have been appended.
pub(crate) fn push_unescaped(out: &mut Vec<u8>, text: &[u8]) -> Result<bool, AllocError>
    ensures unescaped { IfOk result (λ is_whole. MatchOption (unescape text.now) (is_whole ≡ false)
        (λ bytes. (is_whole ≡ true) × (out.new.items ≡ out.old.items ++ bytes))) }
{
    let mut rest = text;
    while !rest.is_empty() {
        let Some((byte, after)) = first_unescaped(rest) else {
            return Ok(false);
        };
        out.push(byte)?;
        rest = after;
    }
    Ok(true)
}

/// Returns whether a text is a valid escaped text. Allocates nothing.
pub(crate) fn spells_bytes(text: &[u8]) -> bool
    ensures test { result ≡ is_some (unescape text.now) }
{
    let mut rest = text;
    while !rest.is_empty() {
        let Some((_byte, after)) = first_unescaped(rest) else {
            return false;
        };
        rest = after;
    }
    true
}

// Returns the first byte that a text spells, and the text after its spelling.
fn first_unescaped(text: &[u8]) -> Option<(u8, &[u8])>
    requires { 0 < length text.now }
    ensures first { MatchOption result (unescape text.now ≡ None)
        (λ first. unescape text.now ≡ put_first (Some first.0) (unescape first.1.now)) }
    ensures shorter { IfSome result (λ first. length first.1.now < length text.now) }
{
    let (byte, rest) = text.split_first()?;
    if *byte == b'\\' {
        after_backslash(rest)
    } else if *byte == b'-' {
        Some((b'/', rest))
    } else {
        Some((*byte, rest))
    }
}

#[tactic(auto, unfolding(crate::specs::Escapes::unescape))]
// Returns the byte spelled by a backslash and the given text after it, and the text after that.
fn after_backslash(text: &[u8]) -> Option<(u8, &[u8])>
    ensures first { MatchOption result (unescape (92 ∷ text.now) ≡ None)
        (λ first. unescape (92 ∷ text.now) ≡ put_first (Some first.0) (unescape first.1.now)) }
    ensures shorter { IfSome result (λ first. length first.1.now ≤ length text.now) }
{
    let (letter, text) = text.split_first()?;
    let (high, text) = text.split_first()?;
    let (low, text) = text.split_first()?;
    if *letter != b'x' {
        return None;
    }
    Some((hex_byte(*high, *low)?, text))
}

// Returns the byte with these two hexadecimal digits.
fn hex_byte(high: u8, low: u8) -> Option<u8>
    ensures byte { result ≡ hex_byte high low }
{
    let high = char::from(high).to_digit(16)?;
    let low = char::from(low).to_digit(16)?;
    Some((16 * high + low) as u8)
}
