//! Calls on the joins of versioned contents: numbers below 256 with versions, or nothing yet.
use crate::edits::append_version;
use join_law::{Entry, Join, Versioned};
use plain_values::TryClone;
use std::cmp::Ordering;
use worked_lines::{Answer, LineFault, Words, byte_of, cut_at, is, match_word, version_of};

/// Writes the answer to a call on joins.
pub fn answer(words: &mut Words, out: &mut Answer) -> Result<(), LineFault> {
    match_word!(words.word()?;
        b"join" => append_compared(out, &versioned(words.word()?)?, &versioned(words.word()?)?),
        b"bottom" => {
            out.either(versioned(words.word()?)?.is_bottom(), b"yes", b"no");
            Ok(())
        },
        b"copy_key" => {
            out.print(&TryClone::try_clone(&byte_of(words.word()?)?)?);
            Ok(())
        },
    )
}

/// Returns a word as `never` or as a version and a number.
pub fn versioned(word: &[u8]) -> Result<Versioned<u8>, LineFault> {
    if is(word, b"never") {
        return Ok(Versioned::Never);
    }
    let (version, content) = cut_at(word, b'=').ok_or(LineFault::Words)?;
    let version = version_of(version)?;
    let content = byte_of(content)?;
    Ok(Versioned::At(Entry { version, content }))
}

/// Returns the join of two values of any type that has joins.
pub fn joined<J: Join>(left: &J, right: &J) -> Result<J, LineFault> {
    let mut value = left.try_clone()?;
    value.join_from(right.try_clone()?)?;
    Ok(value)
}

// Writes the join of two values, how they compare, and whether they are the same.
fn append_compared(
    out: &mut Answer,
    left: &Versioned<u8>,
    right: &Versioned<u8>,
) -> Result<(), LineFault> {
    append_value(out, &joined(left, right)?);
    out.write(match left.rank(right) {
        Ordering::Less => b" less",
        Ordering::Equal => b" equal",
        Ordering::Greater => b" greater",
    });
    out.either(left.same(right), b" same", b"");
    Ok(())
}

/// Writes a value.
pub fn append_value(out: &mut Answer, value: &Versioned<u8>) {
    let Some(entry) = value.entry() else {
        return out.write(b"never");
    };
    append_version(out, entry.version);
    out.write(b"=");
    out.print(&entry.content);
}
