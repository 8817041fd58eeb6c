//! The units that texts name.
ghost use Rattle.std.specs.{List.{filter_map}, Option.{option_copied}, Prelude.{codes, filter, IfOk, map, ◌≡◌}};
ghost use Rattle.unit_name.specs.declared.kinds.Kind.TheVariants.{Service};
ghost use Rattle.unit_values.specs.{Facts.{last_of}, Named.{first, named, names_unit, or_sister, other_named, sister}};

use crate::texts::{before_last, between};
use setting_rules::for_unit;
use std::alloc::{AllocError, Global};
use unit_name::{Kind, NameFault, UnitName};

/// Returns the unit that a unit means by a text, if it is a name. Fails only if memory runs out.
pub fn named(alloc: Global, unit: &UnitName, text: &[u8]) -> Result<Option<UnitName>, AllocError>
    ensures named { IfOk result (λ name. name ≡ named unit.now text.now) }
{
    match UnitName::parse(alloc, text) {
        Ok(name) => for_unit(unit, name),
        Err(NameFault::Memory) => Err(AllocError),
        Err(_) => Ok(None),
    }
}

/// Returns the last of some texts that is the name of a unit of a type, and no template's.
pub fn last_named<'s>(
    alloc: Global,
    texts: &[&'s [u8]],
    own: Kind,
) -> Result<Option<&'s [u8]>, AllocError>
    ensures last { IfOk result
        (λ last. option_copied last
        ≡ last_of (filter (names_unit own) (map (λ text. text.now) texts.now))) }
{
    let mut last = None;
    for text in texts {
        if names_unit(alloc, text, own)? {
            last = Some(*text);
        }
    }
    Ok(last)
}

// Returns whether a text is the name of a unit of a type, and no template's.
fn names_unit(alloc: Global, text: &[u8], own: Kind) -> Result<bool, AllocError>
    ensures test { IfOk result (λ test. test ≡ names_unit own text.now) }
{
    match UnitName::parse(alloc, text) {
        Ok(name) => Ok(name.kind().word() == own.word() && !name.is_template()),
        Err(NameFault::Memory) => Err(AllocError),
        Err(_) => Ok(false),
    }
}

/// Returns the first of some texts that names another unit than this.
pub fn first_other(
    alloc: Global,
    unit: &UnitName,
    texts: &[&[u8]],
) -> Result<Option<UnitName>, AllocError>
    ensures first { IfOk result
        (λ name. name
        ≡ first (filter_map (other_named unit.now) (map (λ text. text.now) texts.now))) }
{
    for text in texts {
        let other = other_named(alloc, unit, text)?;
        if other.is_some() {
            return Ok(other);
        }
    }
    Ok(None)
}

// Returns the unit that a text names, unless it is this one.
fn other_named(alloc: Global, unit: &UnitName, text: &[u8]) -> Result<Option<UnitName>, AllocError>
    ensures other { IfOk result (λ other. other ≡ other_named unit.now text.now) }
{
    match named(alloc, unit, text)? {
        Some(name) => {
            if name.bytes() == unit.bytes() {
                Ok(None)
            } else {
                Ok(Some(name))
            }
        }
        None => Ok(None),
    }
}

/// Returns the unit of another type with the same stem.
pub fn sister(alloc: Global, suffix: &[u8], unit: &UnitName) -> Result<Vec<u8>, AllocError>
    ensures text { IfOk result (λ text. text.items ≡ sister suffix.now unit.now) }
{
    between(alloc, before_last(unit.bytes(), b'.'), b".", suffix)
}

/// Returns the service that a socket starts for which these are set: the last that is a service's name, else its sister.
/// Fails only if memory runs out.
pub fn served_service(
    alloc: Global,
    unit: &UnitName,
    values: &[&[u8]],
) -> Result<Vec<u8>, AllocError>
    ensures text { IfOk result
        (λ text. text.items ≡ or_sister (codes "service") unit.now
        (last_of (filter (names_unit Service) (map (λ value. value.now) values.now)))) }
{
    match last_named(alloc, values, Kind::Service)? {
        Some(text) => Vec::from_slice(alloc, text),
        None => sister(alloc, b"service", unit),
    }
}
