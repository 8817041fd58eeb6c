//! Edits as cells, and cells as edits.
ghost use Rattle.std.specs.Prelude.{◌≡◌, ◌++◌, [], Some, IfOk};
ghost use Rattle.std.specs.List.{AllByRecursion};
ghost use Rattle.load_path.specs.Paths.{IsPath};
ghost use Rattle.load_places.specs.Texts.{IsScope, place_of, place_text};
ghost use Rattle.edit_sums.specs.Contents.{bytes_of, sort_of};
ghost use Rattle.sqlite_log.specs.Cells.{content_in, IsContent, IsEdit, ok_of};

use edit_log::LogFault;
use edit_sums::{Content, ContentFault, Edit};
use load_path::Path;
use load_places::{Place, PlaceFault, Scope};
use std::alloc::{AllocError, Global};

// The text of a place.
pub(crate) fn text_of(alloc: Global, place: &Place) -> Result<Vec<u8>, AllocError>
    ensures text { IfOk result (λ text. text.items ≡ place_text place.now) }
{
    let mut text = Vec::new(alloc);
    place.append_to(&mut text)?;
    Ok(text)
}

// The kind of a content and its bytes.
pub(crate) fn kind_and_bytes(content: &Content) -> (u32, &[u8])
    ensures kind { result.0 ≡ sort_of content.now }
    ensures bytes { result.1.now ≡ bytes_of content.now }
    ensures fits { IsContent content.now }
{
    match content {
        Content::Gone => (0, &[]),
        Content::Link(target) => (1, target.bytes()),
        Content::File(file) => (2, file.bytes()),
    }
}

// What is known of each path. Does nothing.
fn note_path(path: &Path)
    ensures fits { IsPath path.now }
{
    let _rank = path.rank();
    let _folder = path.folder();
    let _name = path.name();
}

// What is known of each scope. Does nothing.
fn note_scope(scope: &Scope)
    ensures fits { IsScope scope.now }
{
    match scope {
        Scope::Fleet => (),
        Scope::Host(host) => {
            let _name = host.bytes();
        }
    }
}

// What is known of each edit: its cells spell it. Does nothing.
fn note_edit(edit: &Edit)
    ensures fits { IsEdit edit.now }
{
    note_scope(&edit.place.scope);
    note_path(&edit.place.path);
    let _content = kind_and_bytes(&edit.content);
}

// What is known of all edits. Does nothing.
pub(crate) fn note_edits(edits: &[Edit])
    ensures fits { AllByRecursion IsEdit edits.now }
{
    for edit in edits {
        note_edit(edit);
    }
}

// The place that a text names. `NotANode` if it names none.
pub(crate) fn place_in(alloc: Global, text: &[u8]) -> Result<Place, LogFault>
    ensures place { IfOk result (λ place. ok_of (place_of text.now) ≡ Some place) }
{
    match Place::parse(alloc, text) {
        Ok(place) => Ok(place),
        Err(PlaceFault::Memory) => Err(LogFault::Memory),
        Err(_) => Err(LogFault::NotANode),
    }
}

fn content_or_fault(made: Result<Content, ContentFault>) -> Result<Content, LogFault>
    ensures content { IfOk result (λ content. ok_of made ≡ Some content) }
{
    match made {
        Ok(content) => Ok(content),
        Err(ContentFault::Memory) => Err(LogFault::Memory),
        Err(_) => Err(LogFault::NotANode),
    }
}

// The content of a kind and its bytes. `NotANode` if there is none.
pub(crate) fn content_in(kind: u32, bytes: Vec<u8>) -> Result<Content, LogFault>
    ensures content { IfOk result (λ content. content_in kind bytes.items ≡ Some content) }
{
    match kind {
        0 if bytes.is_empty() => Ok(Content::Gone),
        1 => content_or_fault(Content::link(bytes)),
        2 => content_or_fault(Content::file(bytes)),
        _ => Err(LogFault::NotANode),
    }
}
