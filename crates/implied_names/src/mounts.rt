//! What is read of mounts and swaps: options, and the paths that they are named after and that they mount.
ghost use Rattle.std.specs.{List.{slice_split}, Option.{option_and_then, option_copied, option_map}, Prelude.{IfOk, map, Some, ◌≡◌}};
ghost use Rattle.unit_name.specs.Names.{kind};
ghost use Rattle.implied_names.specs.{Paths.{path_of, place}, Roles.{is_comma, options_in, what}};

use crate::paths::{path_named, path_of};
use setting_rules::Row;
use std::alloc::{AllocError, Global};
use unit_name::{Kind, UnitName};
use unit_values::{before_first, before_last, last_in};

/// Returns the options in a text, each without what it is set to.
pub(crate) fn options_of<'a>(
    alloc: Global,
    text: Option<&'a [u8]>,
) -> Result<Vec<&'a [u8]>, AllocError>
    ensures options { IfOk result
        (λ options. map (λ option. option.now) options.items
        ≡ options_in (option_copied text.entry)) }
{
    match text {
        Some(text) => option_heads(alloc, text),
        None => Ok(Vec::new(alloc)),
    }
}

// Returns the parts between commas, each up to its equals sign.
fn option_heads(alloc: Global, text: &[u8]) -> Result<Vec<&[u8]>, AllocError>
    ensures options { IfOk result
        (λ options. map (λ option. option.now) options.items ≡ options_in (Some text.now)) }
{
    let mut options = Vec::new(alloc);
    for part in comma_parts(alloc, text)? {
        options.push(before_first(part, b'='))?;
    }
    Ok(options)
}

fn comma_parts(alloc: Global, text: &[u8]) -> Result<Vec<&[u8]>, AllocError>
    ensures parts { IfOk result
        (λ parts. map (λ part. part.now) parts.items ≡ slice_split is_comma text.now) }
{
    text.split(|b| is_comma(*b)).collect(alloc)
}

fn is_comma(b: u8) -> bool
    ensures test { result ≡ is_comma b }
{
    b == b','
}

/// Returns the path that a mount, an automount or a swap is named after; none for other units.
pub(crate) fn place_of(
    alloc: Global,
    unit: &UnitName,
    own: Kind,
) -> Result<Option<Vec<u8>>, AllocError>
    requires own { kind unit.now ≡ Some own }
    ensures place { IfOk result (λ path. option_map (λ bytes. bytes.items) path ≡ place unit.now) }
{
    let stem = before_last(unit.bytes(), b'.');
    match own {
        Kind::Mount => path_named(alloc, stem),
        Kind::Automount => path_named(alloc, stem),
        Kind::Swap => path_named(alloc, stem),
        _ => Ok(None),
    }
}

/// Returns the path that a mount or a swap is said to mount; for a swap that doesn't say it, that of its name.
pub(crate) fn what_of(
    alloc: Global,
    unit: &UnitName,
    own: Kind,
    rows: &[Row],
) -> Result<Option<Vec<u8>>, AllocError>
    requires own { kind unit.now ≡ Some own }
    ensures what { IfOk result
        (λ path. option_map (λ bytes. bytes.items) path
        ≡ what (record { unit = unit.now; rows = rows.now })) }
{
    match own {
        Kind::Mount => said_path(alloc, last_in(alloc, rows, b"Mount", b"What")?),
        Kind::Swap => match last_in(alloc, rows, b"Swap", b"What")? {
            Some(text) => path_of(alloc, text),
            None => path_named(alloc, before_last(unit.bytes(), b'.')),
        },
        _ => Ok(None),
    }
}

// Returns the path that a text writes, if there is a text.
fn said_path(alloc: Global, text: Option<&[u8]>) -> Result<Option<Vec<u8>>, AllocError>
    ensures path { IfOk result
        (λ path. option_map (λ path. path.items) path
        ≡ option_and_then path_of (option_copied text.entry)) }
{
    match text {
        Some(text) => path_of(alloc, text),
        None => Ok(None),
    }
}
