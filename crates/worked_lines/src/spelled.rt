//! What single words mean.
use crate::faults::LineFault;
use edit_sums::Content;
use replica_store::{HostName, Place, Scope};
use script_words::unescape;
use std::alloc::Global;
use unit_name::UnitName;

/// Whether a word is this one. Calls are distinguished by it: a `match` on byte strings costs three times as much
/// proof.
pub fn is(word: &[u8], other: &[u8]) -> bool {
    word == other
}

/// Evaluates the expression after a word in a table of calls; `_` matches all other words, and without it they aren't
/// calls.
#[macro_export]
macro_rules! match_word {
    ($word:expr; $($($name:literal)|+ => $answer:expr,)+ _ => $other:expr,) => {{
        let word = $word;
        $(if $($crate::is(word, $name))||+ { $answer } else)+ { $other }
    }};
    ($word:expr; $($($name:literal)|+ => $answer:expr,)+) => {
        $crate::match_word!($word; $($($name)|+ => $answer,)+ _ => Err($crate::LineFault::Words),)
    };
}

/// Returns the text that a word spells. It is spelled as in scripts, with `\n`, `\t`, `\\` and `\xHH`; `''` is the
/// empty text.
pub fn text_of(alloc: Global, word: &[u8]) -> Result<Vec<u8>, LineFault> {
    if is(word, b"''") {
        return Ok(Vec::new(alloc));
    }
    unescape(alloc, word)?.ok_or(LineFault::Words)
}

/// Returns the number that a word writes in decimal digits.
pub fn number_of(word: &[u8]) -> Result<u64, LineFault> {
    let text = str::from_utf8(word).ok();
    let number = text.and_then(|digits| digits.parse::<u64>().ok());
    number.ok_or(LineFault::Words)
}

/// Returns the index or count that a word writes.
pub fn index_of(word: &[u8]) -> Result<usize, LineFault> {
    Ok(number_of(word)? as usize)
}

/// Returns the number below 256 that a word writes.
pub fn byte_of(word: &[u8]) -> Result<u8, LineFault> {
    u8::try_from(number_of(word)?).map_err(|_| LineFault::Words)
}

/// Returns the writer's number that a word writes.
pub fn writer_of(word: &[u8]) -> Result<u32, LineFault> {
    u32::try_from(number_of(word)?).map_err(|_| LineFault::Words)
}

// The directory that a letter abbreviates: one of the four, in their order.
fn directory_of(letter: u8) -> Option<&'static [u8]> {
    match letter {
        b'E' => Some(b"/etc/systemd/system"),
        b'R' => Some(b"/run/systemd/system"),
        b'L' => Some(b"/usr/local/lib/systemd/system"),
        b'U' => Some(b"/usr/lib/systemd/system"),
        _ => None,
    }
}

// Appends a path to a text. A first letter that abbreviates a directory is replaced by it.
fn add_path(text: &mut Vec<u8>, path: &[u8]) -> Result<(), LineFault> {
    if let Some((letter, rest)) = path.split_first() {
        if let Some(directory) = directory_of(*letter) {
            text.extend_from_slice(directory)?;
            text.extend_from_slice(rest)?;
            return Ok(());
        }
    }
    text.extend_from_slice(path)?;
    Ok(())
}

/// Returns the scope that a word writes: `*` for the fleet, otherwise a host's name.
pub fn scope_of(alloc: Global, word: &[u8]) -> Result<Scope, LineFault> {
    if is(word, b"*") {
        return Ok(Scope::Fleet);
    }
    Ok(Scope::Host(HostName::parse(alloc, word)?))
}

/// Returns the place that a word writes: its path, after its host and a colon if it has a host. The path is in full, or
/// begins with `E`, `R`, `L` or `U` for one of the four directories in their order.
pub fn place_of(alloc: Global, word: &[u8]) -> Result<Place, LineFault> {
    let mut text = Vec::new(alloc);
    match cut_at(word, b':') {
        Some((host, path)) => {
            text.extend_from_slice(host)?;
            text.push(b':')?;
            add_path(&mut text, path)?;
        }
        None => add_path(&mut text, word)?,
    }
    Ok(Place::parse(alloc, &text)?)
}

/// Returns the unit's name that a word is.
pub fn name_of(alloc: Global, word: &[u8]) -> Result<UnitName, LineFault> {
    Ok(UnitName::parse(alloc, word)?)
}

/// Returns the unit's name that a word spells.
pub fn spelled_name_of(alloc: Global, word: &[u8]) -> Result<UnitName, LineFault> {
    name_of(alloc, &text_of(alloc, word)?)
}

/// Returns the file whose text a word spells.
pub fn file_of(alloc: Global, word: &[u8]) -> Result<Content, LineFault> {
    Ok(Content::file(text_of(alloc, word)?)?)
}

/// Returns the link whose target a word spells.
pub fn link_of(alloc: Global, word: &[u8]) -> Result<Content, LineFault> {
    Ok(Content::link(text_of(alloc, word)?)?)
}

/// Returns the call that a word writes, and the host that makes it: what follows the word's first `@`, if it has one.
pub fn asked_of(alloc: Global, word: &[u8]) -> Result<(&[u8], Option<HostName>), LineFault> {
    match cut_at(word, b'@') {
        Some((call, host)) => Ok((call, Some(HostName::parse(alloc, host)?))),
        None => Ok((word, None)),
    }
}

/// Returns the parts of a word before and after the first occurrence of a byte.
pub fn cut_at(word: &[u8], byte: u8) -> Option<(&[u8], &[u8])> {
    let place = word.iter().position(|b| *b == byte)?;
    Some((&word[..place], &word[place + 1..]))
}

/// Returns the parts of a word between commas; an empty word and `none` have no parts.
pub fn parts_of(alloc: Global, word: &[u8]) -> Result<Vec<&[u8]>, LineFault> {
    let mut parts = Vec::new(alloc);
    if word.is_empty() || is(word, b"none") {
        return Ok(parts);
    }
    for part in word.split(|b| *b == b',') {
        parts.push(part)?;
    }
    Ok(parts)
}

/// Returns what `one` reads in each of these words.
pub fn each_of<T: Drop, F: Fn(Global, &[u8]) -> Result<T, LineFault>>(
    alloc: Global,
    words: &[&[u8]],
    one: F,
) -> Result<Vec<T>, LineFault>
    requires { F.IsAlwaysCallable one }
{
    let mut all = Vec::new(alloc);
    for word in words {
        all.push(one(alloc, word)?)?;
    }
    Ok(all)
}
