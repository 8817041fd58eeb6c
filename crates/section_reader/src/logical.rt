//! Joining continued lines.
ghost use Rattle.std.specs.Prelude.{◌≡◌, ◌<◌, ◌≤◌, ◌++◌, ◌∷◌, [], length, IfOk, OnOk};
ghost use Rattle.section_reader.specs.{Parts.{spaced}, Logical.{going_on, joined_lines, lines_following}};

use crate::lines::Lines;
use crate::parts::{LineForm, form};
use std::alloc::{AllocError, Global};

/// Joins a continued line with its continuation, which is removed from `lines`.
pub(crate) fn join(alloc: Global, first: &[u8], lines: &mut Lines) -> Result<Vec<u8>, AllocError>
    requires some { 0 < length first.now }
    ensures text { IfOk result (λ text. text.items ≡ spaced first.now ++ going_on lines.old) }
    ensures following { OnOk result (lines_following lines.old ≡ joined_lines lines.new) }
    ensures fewer { OnOk result (length lines.new ≤ length lines.old) }
{
    let mut text = Vec::new(alloc);
    push_spaced(&mut text, first)?;
    while let Some(line) = lines.next_line() {
        match form(line.text) {
            LineForm::Blank => return Ok(text),
            LineForm::Comment => {}
            LineForm::Continued => push_spaced(&mut text, line.text)?,
            LineForm::Whole => {
                text.extend_from_slice(line.text)?;
                return Ok(text);
            }
        }
    }
    Ok(text)
}

// Appends a continued line, with a space in place of its backslash.
fn push_spaced(text: &mut Vec<u8>, line: &[u8]) -> Result<(), AllocError>
    requires some { 0 < length line.now }
    ensures text { OnOk result (text.new.items ≡ text.old.items ++ spaced line.now) }
{
    text.extend_from_slice(&line[..line.len() - 1])?;
    text.push(b' ')?;
    Ok(())
}
