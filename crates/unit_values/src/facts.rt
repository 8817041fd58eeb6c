//! What the values of a unit say: those of keys in the section of its type.
ghost use Rattle.std.specs.{List.{list_any}, Option.{option_copied}, Prelude.{◌≡◌, IfOk, map}, Str.{bytes_eq}};
ghost use Rattle.unit_values.specs.Facts.{is_at, is_one_of, last_boolean, last_of, section_word, values_in, words_in, yes_in};

use setting_rules::{Row, boolean, words as words_of};
use std::alloc::{AllocError, Global};
use unit_name::Kind;

/// Returns the section for units of a type.
pub fn section_of(kind: Kind) -> &'static [u8]
    ensures section { result.now ≡ section_word kind }
{
    match kind {
        Kind::Service => b"Service",
        Kind::Socket => b"Socket",
        Kind::Device => b"Device",
        Kind::Mount => b"Mount",
        Kind::Automount => b"Automount",
        Kind::Swap => b"Swap",
        Kind::Target => b"Target",
        Kind::Path => b"Path",
        Kind::Timer => b"Timer",
        Kind::Slice => b"Slice",
        Kind::Scope => b"Scope",
    }
}

// Returns whether a row has a value of this key in this section.
fn is_at(row: &Row, section: &[u8], key: &[u8]) -> bool
    ensures test { result ≡ is_at section.now key.now row.now }
{
    row.key.as_slice() == key && row.section.as_slice() == section
}

/// Returns whether a key in a section has a value.
pub fn has_in(rows: &[Row], section: &[u8], key: &[u8]) -> bool
    ensures test { result ≡ list_any (is_at section.now key.now) rows.now }
{
    rows.iter().any(|row| is_at(row, section, key))
}

/// Returns the values of a key in a section.
pub fn values_in<'a>(
    alloc: Global,
    rows: &'a [Row],
    section: &[u8],
    key: &[u8],
) -> Result<Vec<&'a [u8]>, AllocError>
    ensures values { IfOk result
        (λ values. map (λ value. value.now) values.items ≡ values_in rows.now section.now key.now) }
{
    let mut values = Vec::new(alloc);
    for row in rows {
        if is_at(row, section, key) {
            values.push(row.value.as_slice())?;
        }
    }
    Ok(values)
}

/// Returns the last of them.
pub fn last_in<'a>(
    alloc: Global,
    rows: &'a [Row],
    section: &[u8],
    key: &[u8],
) -> Result<Option<&'a [u8]>, AllocError>
    ensures last { IfOk result
        (λ last. option_copied last ≡ last_of (values_in rows.now section.now key.now)) }
{
    let values = values_in(alloc, rows, section, key)?;
    Ok(values.last().copied())
}

/// Returns the last of them that spells a boolean.
pub fn boolean_in(
    alloc: Global,
    rows: &[Row],
    section: &[u8],
    key: &[u8],
) -> Result<Option<bool>, AllocError>
    ensures last { IfOk result
        (λ last. last ≡ last_boolean (values_in rows.now section.now key.now)) }
{
    let values = values_in(alloc, rows, section, key)?;
    Ok(last_boolean(&values))
}

/// Returns whether the last of them that spells a boolean is true.
pub fn yes_in(alloc: Global, rows: &[Row], section: &[u8], key: &[u8]) -> Result<bool, AllocError>
    ensures test { IfOk result (λ test. test ≡ yes_in rows.now section.now key.now) }
{
    let said = boolean_in(alloc, rows, section, key)?;
    Ok(said.unwrap_or(false))
}

// Returns the last of these that spells a boolean.
fn last_boolean(values: &[&[u8]]) -> Option<bool>
    ensures last { result ≡ last_boolean (map (λ value. value.now) values.now) }
{
    let mut last = None;
    for value in values {
        last = boolean(value).or(last);
    }
    last
}

/// Returns the words of the values of a key in a section.
pub fn words_in<'a>(
    alloc: Global,
    rows: &'a [Row],
    section: &[u8],
    key: &[u8],
) -> Result<Vec<&'a [u8]>, AllocError>
    ensures words { IfOk result
        (λ words. map (λ word. word.now) words.items ≡ words_in rows.now section.now key.now) }
{
    let mut words = Vec::new(alloc);
    for value in values_in(alloc, rows, section, key)? {
        words.extend_from_slice(&words_of(alloc, value)?)?;
    }
    Ok(words)
}

/// Returns whether a text is one of these.
pub fn is_one_of(text: Option<&[u8]>, texts: &[&[u8]]) -> bool
    ensures test { result ≡ is_one_of (map (λ text. text.now) texts.now)
        (option_copied text.entry) }
{
    match text {
        Some(text) => is_among(text, texts),
        None => false,
    }
}

/// Returns whether a text is one of these.
pub fn is_among(text: &[u8], texts: &[&[u8]]) -> bool
    ensures test { result ≡ list_any (λ it. bytes_eq text.now it.now) texts.now }
{
    texts.iter().any(|it| text == *it)
}
