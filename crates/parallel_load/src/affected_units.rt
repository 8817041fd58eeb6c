//! Finds the units whose footprints have a changed part.
ghost use Rattle.std.specs.{Prelude.{◌≡◌, ◌<◌, ◌≤◌, false, IfOk, OnOk, length}, Ordering.{nat_cmp}, List.{All}, List.Sorted.{IsStrictlySortedBy}};
ghost use Rattle.parallel_load.specs.{SearchPrefixes.{IsOfNoType, IsOfType}, AffectedUnits.{AreAffected, AreAffectedBy, AreNoted, AreOwnersNoted, GrowsWithin, IsInFootprint, IsNoted}};

use crate::footprints::parts_of;
use crate::loaded::{Loaded, NameLoad};
use crate::search_prefixes::{ends_with, places_of, search_prefix_of, type_of};
use index_rows::put_in_order;
use plain_values::Bytes;
use std::alloc::{AllocError, Global};
use std::ops::Range;
use unit_name::UnitName;

/// The indices, in ascending order, of the units of a load that are affected: those whose footprint has one of these
/// parts, the first components of the changed paths. Each part costs two searches, and a look at the units that have a
/// name with its prefix; a type's folder costs a look at all names and at the units of the type. Fails only if memory
/// runs out.
pub(crate) fn indices_affected(loaded: &Loaded, parts: &[Bytes]) -> Result<Vec<usize>, AllocError>
    ensures ascending { IfOk result (λ affected. IsStrictlySortedBy nat_cmp affected.items) }
    ensures within { IfOk result
        (λ affected. All (λ i. i < length loaded.now.names) affected.items) }
    ensures affected { IfOk result
        (λ affected. AreAffected parts.now loaded.now.names affected.items) }
{
    let alloc = loaded.allocator();
    let mut affected = Vec::new(alloc);
    for part in parts {
        match type_of(part.as_slice()) {
            Some(word) => add_of_type(alloc, loaded, part, word, &mut affected)?,
            None => add_by_search_prefix(alloc, loaded, part, &mut affected)?,
        }
    }
    put_in_order(&mut affected);
    Ok(affected)
}

// Adds all units of the type whose folder the part is.
fn add_of_type(
    alloc: Global,
    loaded: &Loaded,
    part: &Bytes,
    word: &[u8],
    affected: &mut Vec<usize>,
) -> Result<(), AllocError>
    requires word { IsOfType part.now word.now }
    ensures grows { OnOk result
        (GrowsWithin (length loaded.now.names) affected.old.items affected.new.items) }
    ensures affected { OnOk result (AreAffectedBy loaded.now.names affected.new.items part.now) }
{
    let names = loaded.names();
    let second = loaded.secondary_names();
    add_indices(alloc, names, part, 0..names.len(), word, affected)?;
    add_owners(alloc, names, part, second, 0..second.len(), word, affected)?;
    Ok(())
}

// Adds the affected units for any other part: they have a name with the part's prefix. A part without a prefix affects
// none.
fn add_by_search_prefix(
    alloc: Global,
    loaded: &Loaded,
    part: &Bytes,
    affected: &mut Vec<usize>,
) -> Result<(), AllocError>
    requires no_type { IsOfNoType part.now }
    ensures grows { OnOk result
        (GrowsWithin (length loaded.now.names) affected.old.items affected.new.items) }
    ensures affected { OnOk result (AreAffectedBy loaded.now.names affected.new.items part.now) }
{
    let names = loaded.names();
    let second = loaded.secondary_names();
    let Some(search_prefix) = search_prefix_of(part.as_slice()) else {
        return Ok(());
    };
    add_indices(
        alloc,
        names,
        part,
        places_of(names, search_prefix),
        &[],
        affected,
    )?;
    add_owners(
        alloc,
        names,
        part,
        second,
        places_of(second, search_prefix),
        &[],
        affected,
    )?;
    Ok(())
}

// Adds those of these indices whose names have this ending and whose footprint has the part.
fn add_indices(
    alloc: Global,
    names: &[(UnitName, NameLoad)],
    part: &Bytes,
    indices: Range<usize>,
    ending: &[u8],
    affected: &mut Vec<usize>,
) -> Result<(), AllocError>
    requires within { indices.end ≤ length names.now }
    ensures grows { OnOk result
        (GrowsWithin (length names.now) affected.old.items affected.new.items) }
    ensures affected { OnOk result
        (AreNoted names.now affected.new.items part.now ending.now indices.start indices.end) }
{
    for index in indices.start..indices.end {
        if ends_with(&names[index].0, ending) {
            add_if_affected(alloc, names, part, index, affected)?;
        }
    }
    Ok(())
}

// Adds the units that have a secondary name in this range with this ending, and the part in their footprint.
fn add_owners(
    alloc: Global,
    names: &[(UnitName, NameLoad)],
    part: &Bytes,
    second: &[(UnitName, usize)],
    places: Range<usize>,
    ending: &[u8],
    affected: &mut Vec<usize>,
) -> Result<(), AllocError>
    requires owners { All (λ p. p.1 < length names.now) second.now }
    requires within { places.end ≤ length second.now }
    ensures grows { OnOk result
        (GrowsWithin (length names.now) affected.old.items affected.new.items) }
    ensures affected { OnOk result
        (AreOwnersNoted names.now second.now affected.new.items part.now ending.now places.start
        places.end) }
{
    for place in places.start..places.end {
        if ends_with(&second[place].0, ending) {
            add_if_affected(alloc, names, part, second[place].1, affected)?;
        }
    }
    Ok(())
}

// Adds an index if the footprint of its unit has the part.
fn add_if_affected(
    alloc: Global,
    names: &[(UnitName, NameLoad)],
    part: &Bytes,
    index: usize,
    affected: &mut Vec<usize>,
) -> Result<(), AllocError>
    requires within { index < length names.now }
    ensures grows { OnOk result
        (GrowsWithin (length names.now) affected.old.items affected.new.items) }
    ensures noted { OnOk result (IsNoted names.now affected.new.items part.now index) }
{
    let (name, load) = &names[index];
    if is_in_footprint(alloc, name, load, part)? {
        affected.push(index)?;
    }
    Ok(())
}

// Whether the footprint of a name's unit has the part. An alias has no footprint.
fn is_in_footprint(
    alloc: Global,
    name: &UnitName,
    load: &NameLoad,
    part: &Bytes,
) -> Result<bool, AllocError>
    ensures missed { IfOk result
        (λ is_in. is_in ≡ false → ¬ IsInFootprint part.now (name.now, load.now)) }
{
    match load {
        NameLoad::Unit(unit) => {
            let footprint = parts_of(alloc, name, unit.get().names.as_slice())?;
            Ok(footprint.contains(part))
        }
        NameLoad::Alias(_) => Ok(false),
    }
}
