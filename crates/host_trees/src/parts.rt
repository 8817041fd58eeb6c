//! The parts that paths play for a unit manager, and which contents count in them or else are passed over
//! (systemd.unit(5), "Unit File Load Path" and "Description").
ghost use Rattle.std.specs.Prelude.{◌≡◌, IfOk, is_some};
ghost use Rattle.load_path.specs.Paths.{PathParts};
ghost use Rattle.fragment_choice.specs.Choices.{content_says};
ghost use Rattle.load_places.specs.Places.{PlaceParts};
ghost use Rattle.dropins.specs.Taken.{content_as_drop_in, is_conf, is_null};
ghost use Rattle.host_trees.specs.Parts.{counts, is_drop_in_folder, is_link_folder, part_alone, part_of, part_within};

use crate::links::{last_component, link_counts};
use replica_store::{Content, LinkTarget, Path};
use std::alloc::{AllocError, Global};
use unit_name::{NameFault, UnitName};

/// What a path is for a unit manager.
pub enum Part {
    /// The path of a unit's file or link, whose own name this is.
    OfUnit(UnitName),
    /// A drop-in.
    DropIn,
    /// A link to a unit that another depends on.
    UnitLink,
    /// None of these.
    Other,
}

impl Drop for Part {
    fn drop(self) {
        match self {
            Part::OfUnit(_) => (),
            Part::DropIn => (),
            Part::UnitLink => (),
            Part::Other => (),
        }
    }
}

/// Returns whether a content counts in the part that its path plays. Fails only if memory runs out.
pub(crate) fn counts(alloc: Global, path: &Path, content: &Content) -> Result<bool, AllocError>
    ensures counts { IfOk result (λ it. it ≡ counts path.now content.now) }
{
    let part = part_of(alloc, path)?;
    match &part {
        Part::OfUnit(own) => counts_for(alloc, own, content),
        Part::DropIn => Ok(counts_among_drop_ins(content)),
        Part::UnitLink => Ok(matches!(content, Content::Link(_))),
        Part::Other => Ok(true),
    }
}

// Returns the part that a path plays.
fn part_of(alloc: Global, path: &Path) -> Result<Part, AllocError>
    ensures part { IfOk result (λ part. part ≡ part_of path.now) }
{
    if path.folder().is_empty() {
        part_alone(alloc, path.name())
    } else {
        Ok(part_within(path.folder(), path.name()))
    }
}

// Returns the part of a path of one component.
fn part_alone(alloc: Global, name: &[u8]) -> Result<Part, AllocError>
    ensures part { IfOk result (λ part. part ≡ part_alone name.now) }
{
    match UnitName::parse(alloc, name) {
        Ok(own) => Ok(Part::OfUnit(own)),
        Err(NameFault::Memory) => Err(AllocError),
        Err(_) => Ok(Part::Other),
    }
}

// Returns the part of a path in a folder.
fn part_within(folder: &[u8], name: &[u8]) -> Part
    ensures part { result ≡ part_within folder.now name.now }
{
    if is_drop_in_folder(folder) {
        if is_conf(name) {
            Part::DropIn
        } else {
            Part::Other
        }
    } else if is_link_folder(folder) {
        Part::UnitLink
    } else {
        Part::Other
    }
}

// Returns whether a folder is one of drop-ins: whether it ends in `.d`.
fn is_drop_in_folder(folder: &[u8]) -> bool
    ensures test { result ≡ is_drop_in_folder folder.now }
{
    folder.ends_with(b".d".as_slice())
}

// Returns whether a folder is one of links to units: whether it ends in `.wants` or `.requires`.
fn is_link_folder(folder: &[u8]) -> bool
    ensures test { result ≡ is_link_folder folder.now }
{
    folder.ends_with(b".wants".as_slice()) || folder.ends_with(b".requires".as_slice())
}

// Returns whether a file name is that of a drop-in: whether it ends in `.conf` and is longer.
fn is_conf(name: &[u8]) -> bool
    ensures test { result ≡ is_conf name.now }
{
    name.len() > 5 && &name[name.len() - 5..] == b".conf".as_slice()
}

// Returns whether a content counts under a unit's own name.
fn counts_for(alloc: Global, own: &UnitName, content: &Content) -> Result<bool, AllocError>
    ensures counts { IfOk result (λ it. (place : PlaceParts)
        → it ≡ is_some (content_says own.now own.now place content.now)) }
{
    match content {
        Content::Gone => Ok(false),
        Content::File(_) => Ok(true),
        Content::Link(target) => {
            if is_null(target) {
                return Ok(true);
            }
            link_counts(alloc, own, last_component(target.bytes()))
        }
    }
}

// Returns whether a content counts among drop-ins.
fn counts_among_drop_ins(content: &Content) -> bool
    ensures counts { (p : PathParts) → result ≡ is_some (content_as_drop_in p content.now) }
{
    match content {
        Content::Gone => false,
        Content::File(_) => true,
        Content::Link(target) => is_null(target),
    }
}

// Returns whether a link is a mask: whether it leads to `/dev/null`.
fn is_null(target: &LinkTarget) -> bool
    ensures test { result ≡ is_null target.now }
{
    target.bytes() == b"/dev/null".as_slice()
}
