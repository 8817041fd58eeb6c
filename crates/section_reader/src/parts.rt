//! The form of a line, and its parts.
ghost use Rattle.std.specs.{Prelude.{◌≡◌, ◌<◌, ◌≤◌, MatchOption, None, Some, length}, List.{list_all, prefix_len, suffix_len}};
ghost use Rattle.bstr.specs.Find.{IsFirstByte};
ghost use Rattle.section_reader.specs.Parts.{is_white, trim_start, trim_end, trimmed, is_blank, is_comment, is_bracketed, is_equals, form, header_name, pair_of};

use bstr::ByteSlice;

/// The form of a physical line.
#[derive(Clone, Copy, Debug, PartialEq, Eq)]
pub(crate) enum LineForm {
    /// Only whitespace.
    Blank,
    /// The first byte after leading whitespace is `#` or `;`.
    Comment,
    /// The last byte is a backslash.
    Continued,
    /// None of the above.
    Whole,
}

/// Returns the form of a physical line.
#[tactic(auto, unfolding(crate::specs::Parts::form))]
pub(crate) fn form(line: &[u8]) -> LineForm
    ensures form { result ≡ form line.now }
{
    if is_blank(line) {
        LineForm::Blank
    } else if is_comment(line) {
        LineForm::Comment
    } else if line.ends_with(b"\\") {
        LineForm::Continued
    } else {
        LineForm::Whole
    }
}

fn is_blank(line: &[u8]) -> bool
    ensures test { result ≡ is_blank line.now }
{
    line.iter().all(|b| is_white(*b))
}

fn is_white(b: u8) -> bool
    ensures test { result ≡ is_white b }
{
    matches!(b, b' ' | b'\t' | b'\r')
}

fn is_comment(line: &[u8]) -> bool
    ensures test { result ≡ is_comment line.now }
{
    let text = trim_start(line);
    text.starts_with(b"#") || text.starts_with(b";")
}

/// Returns the bytes without the whitespace at both ends.
#[tactic(auto, unfolding(crate::specs::Parts::trimmed))]
pub(crate) fn trim(bytes: &[u8]) -> &[u8]
    ensures part { result.now ≡ trimmed bytes.now }
{
    trim_end(trim_start(bytes))
}

fn trim_start(bytes: &[u8]) -> &[u8]
    ensures part { result.now ≡ trim_start bytes.now }
{
    &bytes[white_at_start(bytes)..]
}

fn trim_end(bytes: &[u8]) -> &[u8]
    ensures part { result.now ≡ trim_end bytes.now }
{
    &bytes[..bytes.len() - white_at_end(bytes)]
}

// Returns the number of leading whitespace bytes.
fn white_at_start(bytes: &[u8]) -> usize
    ensures count { result ≡ prefix_len is_white bytes.now }
    ensures within { result ≤ length bytes.now }
{
    bytes.iter().take_while(|b| is_white(**b)).count()
}

// Returns the number of trailing whitespace bytes.
fn white_at_end(bytes: &[u8]) -> usize
    ensures count { result ≡ suffix_len is_white bytes.now }
    ensures within { result ≤ length bytes.now }
{
    bytes.iter().rev().take_while(|b| is_white(**b)).count()
}

/// Returns whether a logical line begins with a bracket: it is a header, good or bad.
pub(crate) fn is_bracketed(text: &[u8]) -> bool
    ensures test { result ≡ is_bracketed text.now }
{
    text.starts_with(b"[")
}

/// Returns the name in a good header.
#[tactic(auto, unfolding(crate::specs::Parts::header_name))]
pub(crate) fn header_name(text: &[u8]) -> Option<&[u8]>
    ensures name { MatchOption result (header_name text.now ≡ None) (λ name.
        header_name text.now ≡ Some name.now) }
{
    if is_bracketed(text) && text.ends_with(b"]") && text.len() > 2 {
        Some(&text[1..text.len() - 1])
    } else {
        None
    }
}

/// Returns the key and the value of a logical line.
#[tactic(auto, unfolding(crate::specs::Parts::pair_of))]
pub(crate) fn pair_of(text: &[u8]) -> Option<(&[u8], &[u8])>
    ensures pair { MatchOption result (pair_of text.now ≡ None)
        (λ pair. pair_of text.now ≡ Some (pair.0.now, pair.1.now)) }
{
    let at = first_equals(text)?;
    let key = trim(&text[..at]);
    if key.is_empty() {
        None
    } else {
        Some((key, trim(&text[at + 1..])))
    }
}

// Returns the index of the first equals sign.
fn first_equals(text: &[u8]) -> Option<usize>
    ensures place { IsFirstByte is_equals text.now result }
{
    text.find_byte(b'=')
}
