//! What is visible at a place, as text.
ghost use Rattle.std.specs.Prelude.{◌≡◌, ◌++◌, IfOk, OnOk};
ghost use Rattle.edit_sums.specs.declared.contents.Content.TheVariants.{Link};
ghost use Rattle.script_commands.specs.Outcomes.{IsSaid};
ghost use Rattle.place_texts.specs.PlaceTexts.{RendersText, file_lines, shown_lines, shown_text};

use edit_sums::Content;
use replica_store::{LinkTarget, Place, Store};
use script_commands::{Fault, LineRefusal, read_place};
use std::alloc::{AllocError, Global};

/// Appends a file: its place after `# `, and its bytes, with a line feed added if the last byte is none. Fails only if
/// memory runs out.
pub fn append_file(out: &mut Vec<u8>, place: &Place, bytes: &[u8]) -> Result<(), AllocError>
    ensures appended { OnOk result
        (out.new.items ≡ out.old.items ++ file_lines place.now bytes.now) }
{
    out.extend_from_slice(b"# ")?;
    place.append_to(out)?;
    out.push(b'\n')?;
    out.extend_from_slice(bytes)?;
    if bytes.last() != Some(&b'\n') {
        out.push(b'\n')?;
    }
    Ok(())
}

// Appends a link: its place, and its target.
fn append_link(out: &mut Vec<u8>, place: &Place, target: &LinkTarget) -> Result<(), AllocError>
    ensures appended { OnOk result
        (out.new.items ≡ out.old.items ++ shown_lines place.now (Link target.now)) }
{
    place.append_to(out)?;
    out.extend_from_slice(b" link ")?;
    out.extend_from_slice(target.bytes())?;
    out.push(b'\n')?;
    Ok(())
}

/// Appends what stands at a place: a file as `cat` writes it, or the place and the target of a link; nothing of a
/// removal. Linear in what is written. Fails only if memory runs out.
pub fn append_shown(out: &mut Vec<u8>, place: &Place, content: &Content) -> Result<(), AllocError>
    ensures appended { OnOk result
        (out.new.items ≡ out.old.items ++ shown_lines place.now content.now) }
{
    match content {
        Content::Gone => Ok(()),
        Content::Link(target) => append_link(out, place, target),
        Content::File(file) => append_file(out, place, file.bytes()),
    }
}

// The whole answer for a content at a place.
fn text_at(alloc: Global, place: &Place, content: &Content) -> Result<Vec<u8>, AllocError>
    ensures text { IfOk result (λ text. text.items ≡ shown_text place.now content.now) }
{
    let mut out = Vec::new(alloc);
    append_shown(&mut out, place, content)?;
    out.extend_from_slice(b"end\n")?;
    Ok(out)
}

/// Answers with the file or the link that is visible at the place that a text writes. Refuses, in this order, a text
/// that writes no place, for the first thing wrong with it; and a place at which nothing is visible.
///
/// Costs time linear in what is written, and one search in the store.
pub fn render_text(alloc: Global, store: &Store, place: &[u8]) -> Result<Vec<u8>, Fault>
    ensures rendered { IsSaid (λ text. text.items) result (RendersText place.now store.now) }
{
    let place = read_place(alloc, place)?;
    let Some(content) = store.visible(&place) else {
        return Err(Fault::Refused(LineRefusal::NotVisible));
    };
    Ok(text_at(alloc, &place, content)?)
}
