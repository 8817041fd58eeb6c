//! Paths, and the units that are named after them. A path has a slash before each component, so the root is empty.
ghost use Rattle.std.specs.{List.{list_any}, Option.{option_map}, Prelude.{[], codes, filter, IfOk, map, OnOk, ◌++◌, ◌∷◌, ◌≡◌}};
ghost use Rattle.unit_name.specs.Names.{is_name};
ghost use Rattle.implied_names.specs.Paths.{above, components, counts, is_at_or_below, is_below, is_slash, is_up, joined, mounts_on, path_named, path_of, path_spelled, stem_for, unit_at};

use std::alloc::{AllocError, Global};
use unit_name::{NameFault, UnitName, escape, unescape};
use unit_values::before_last;

/// Returns the path that a text writes: its components without those that are empty or a dot. `None` where it doesn't
/// begin with a slash, or goes up by two dots.
pub(crate) fn path_of(alloc: Global, text: &[u8]) -> Result<Option<Vec<u8>>, AllocError>
    ensures path { IfOk result (λ path. option_map (λ path. path.items) path ≡ path_of text.now) }
{
    if !text.starts_with(b"/") {
        return Ok(None);
    }
    let parts = components(alloc, text)?;
    if goes_up(&parts) {
        return Ok(None);
    }
    Ok(Some(joined(alloc, &parts)?))
}

// Returns the components that count.
fn components(alloc: Global, text: &[u8]) -> Result<Vec<&[u8]>, AllocError>
    ensures components { IfOk result
        (λ parts. map (λ part. part.now) parts.items ≡ components text.now) }
{
    text.split(|b| is_slash(*b))
        .filter(|part| counts(part))
        .collect(alloc)
}

fn is_slash(b: u8) -> bool
    ensures test { result ≡ is_slash b }
{
    b == b'/'
}

fn counts(part: &[u8]) -> bool
    ensures test { result ≡ counts part.now }
{
    !part.is_empty() && part != b".".as_slice()
}

// Returns whether one of the components is two dots.
fn goes_up(parts: &[&[u8]]) -> bool
    ensures test { result ≡ list_any (λ part. is_up part.now) parts.now }
{
    parts.iter().any(|part| is_up(part))
}

fn is_up(part: &[u8]) -> bool
    ensures test { result ≡ is_up part.now }
{
    part == b"..".as_slice()
}

// Returns the path of components.
fn joined(alloc: Global, parts: &[&[u8]]) -> Result<Vec<u8>, AllocError>
    ensures joined { IfOk result (λ text. text.items ≡ joined (map (λ part. part.now) parts.now)) }
{
    let mut text = Vec::new(alloc);
    for part in parts {
        text.push(b'/')?;
        text.extend_from_slice(part)?;
    }
    Ok(text)
}

/// Returns whether a path is below another.
pub(crate) fn is_below(path: &[u8], top: &[u8]) -> bool
    ensures test { result ≡ is_below path.now top.now }
{
    path.starts_with(top) && path[top.len()..].starts_with(b"/")
}

/// Returns whether a path is another, or below it.
pub(crate) fn is_at_or_below(path: &[u8], top: &[u8]) -> bool
    ensures test { result ≡ is_at_or_below path.now top.now }
{
    path == top || is_below(path, top)
}

/// Returns the folder that a path is in.
pub(crate) fn above(path: &[u8]) -> &[u8]
    ensures above { result.now ≡ above path.now }
{
    before_last(path, b'/')
}

// Returns the stem of the units that are named after a path.
fn stem_for(alloc: Global, path: &[u8]) -> Result<Vec<u8>, AllocError>
    ensures stem { IfOk result (λ stem. stem.items ≡ stem_for path.now) }
{
    if path.is_empty() {
        Vec::from_slice(alloc, b"-")
    } else {
        escape(alloc, &path[1..])
    }
}

/// Returns the name of the unit of a type, by its suffix, that is named after a path.
pub(crate) fn unit_at(alloc: Global, suffix: &[u8], path: &[u8]) -> Result<Vec<u8>, AllocError>
    ensures name { IfOk result (λ name. name.items ≡ unit_at suffix.now path.now) }
{
    let mut name = stem_for(alloc, path)?;
    name.push(b'.')?;
    name.extend_from_slice(suffix)?;
    Ok(name)
}

/// Returns the path that units with this stem are named after, if they are named after one.
pub(crate) fn path_named(alloc: Global, stem: &[u8]) -> Result<Option<Vec<u8>>, AllocError>
    ensures path { IfOk result
        (λ path. option_map (λ path. path.items) path ≡ path_named stem.now) }
{
    let Some(spelled) = unescape(alloc, stem)? else {
        return Ok(None);
    };
    let Some(path) = path_below_root(alloc, &spelled)? else {
        return Ok(None);
    };
    if stem_for(alloc, &path)?.as_slice() == stem {
        Ok(Some(path))
    } else {
        Ok(None)
    }
}

// Returns the path that a text writes behind a slash.
fn path_below_root(alloc: Global, text: &[u8]) -> Result<Option<Vec<u8>>, AllocError>
    ensures path { IfOk result
        (λ path. option_map (λ path. path.items) path ≡ path_spelled text.now) }
{
    let mut whole = Vec::from_slice(alloc, b"/")?;
    whole.extend_from_slice(text)?;
    path_of(alloc, &whole)
}

/// Adds the names of the mounts of a path, and of all above it.
pub(crate) fn add_mounts(
    alloc: Global,
    names: &mut Vec<UnitName>,
    path: &[u8],
) -> Result<(), AllocError>
    ensures added { OnOk result (names.new.items ≡ names.old.items ++ mounts_on path.now) }
{
    for (index, byte) in path.iter().enumerate() {
        if *byte == b'/' {
            add_mount(alloc, names, &path[..index])?;
        }
    }
    add_mount(alloc, names, path)
}

// Adds the name of the mount of a path, if it is a unit name.
fn add_mount(alloc: Global, names: &mut Vec<UnitName>, path: &[u8]) -> Result<(), AllocError>
    ensures added { OnOk result
        (names.new.items
        ≡ names.old.items ++ filter is_name (unit_at (codes "mount") path.now ∷ [])) }
{
    match UnitName::parse(alloc, &unit_at(alloc, b"mount", path)?) {
        Ok(name) => {
            names.push(name)?;
            Ok(())
        }
        Err(NameFault::Memory) => Err(AllocError),
        Err(_) => Ok(()),
    }
}
