//! Units that a manager has without a file.
ghost use Rattle.std.specs.{List.{list_any, slice_split}, Prelude.{IfOk, map, ◌≡◌}};
ghost use Rattle.unit_name.specs.Names.{is_empty};
ghost use Rattle.unit_values.specs.BuiltIn.{is_built_in, is_dash, is_perpetual, is_way, perpetual_units};

use crate::facts::is_among;
use crate::texts::before_last;
use std::alloc::{AllocError, Global};
use unit_name::{Kind, Shape, UnitName};

/// Returns whether a unit is always there, always runs and never stops (systemd.special(7)). Allocates nothing.
pub fn is_perpetual(unit: &UnitName) -> bool
    ensures test { result ≡ is_perpetual unit.now }
{
    is_among(unit.bytes(), &[b"-.slice", b"system.slice", b"-.mount"])
}

/// Returns the units that are always there, always run and never stop (systemd.special(7)). Fails only if memory runs out.
pub fn perpetual_units(alloc: Global) -> Result<Vec<UnitName>, AllocError>
    ensures units { IfOk result (λ units. units.items ≡ perpetual_units) }
{
    let mut units = Vec::new(alloc);
    units.push(parsed(alloc, b"-.slice")?)?;
    units.push(parsed(alloc, b"system.slice")?)?;
    units.push(parsed(alloc, b"-.mount")?)?;
    Ok(units)
}

// Returns a text that is a unit name as one. Fails for a name only if memory runs out.
fn parsed(alloc: Global, text: &[u8]) -> Result<UnitName, AllocError>
    ensures name { IfOk result (λ name. name ≡ text.now) }
{
    match UnitName::parse(alloc, text) {
        Ok(name) => Ok(name),
        Err(_) => Err(AllocError),
    }
}

/// Returns whether a unit is loaded although no file is found for it: a device, the root mount, or a slice whose name is a
/// way down from the root slice (systemd.device(5), systemd.slice(5)). Fails only if memory runs out.
pub fn is_built_in(alloc: Global, unit: &UnitName) -> Result<bool, AllocError>
    ensures test { IfOk result (λ test. test ≡ is_built_in unit.now) }
{
    match unit.kind() {
        Kind::Device => Ok(true),
        Kind::Mount => Ok(unit.bytes() == b"-.mount".as_slice()),
        Kind::Slice => {
            Ok(unit.shape() == Shape::Plain && is_way(alloc, before_last(unit.bytes(), b'.'))?)
        }
        _ => Ok(false),
    }
}

// Returns whether no part between dashes is empty, or it is one dash.
fn is_way(alloc: Global, name: &[u8]) -> Result<bool, AllocError>
    ensures test { IfOk result (λ test. test ≡ is_way name.now) }
{
    Ok(name == b"-".as_slice() || !has_empty_part(alloc, name)?)
}

// Returns whether a part between dashes is empty.
fn has_empty_part(alloc: Global, name: &[u8]) -> Result<bool, AllocError>
    ensures test { IfOk result (λ test. test ≡ list_any is_empty (slice_split is_dash name.now)) }
{
    let parts = dash_parts(alloc, name)?;
    Ok(has_empty(&parts))
}

fn dash_parts(alloc: Global, name: &[u8]) -> Result<Vec<&[u8]>, AllocError>
    ensures parts { IfOk result
        (λ parts. map (λ part. part.now) parts.items ≡ slice_split is_dash name.now) }
{
    name.split(|b| is_dash(*b)).collect(alloc)
}

fn is_dash(b: u8) -> bool
    ensures test { result ≡ is_dash b }
{
    b == b'-'
}

fn has_empty(parts: &[&[u8]]) -> bool
    ensures test { result ≡ list_any (λ part. is_empty part.now) parts.now }
{
    parts.iter().any(|part| is_empty(part))
}

fn is_empty(part: &[u8]) -> bool
    ensures test { result ≡ is_empty part.now }
{
    part.is_empty()
}
