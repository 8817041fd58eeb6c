//! Reads units again in place, where each still names what it named, so that the universe stays.
ghost use Rattle.std.specs.{Prelude.{◌≡◌, ◌<◌, IfOk, length}, List.{All}, Option.{IfSome}};
ghost use Rattle.path_maps.specs.HostViews.{host_view_of};
ghost use Rattle.fragment_choice.specs.{Resolutions.{main}, UnitNames.{AreNames}};
ghost use Rattle.unit_loads.specs.Units.{IsUnit};
ghost use Rattle.parallel_load.specs.{LoadRows.{AreReadOrLeft, IsOwnUnit, IsReadAgain}, Patched.{AreUnitsOf, with_loads}};
ghost use Rattle.parallel_load.specs.{Normalized.{load_normalized}, Refreshes.{IsBefore}, Touched.{HasParts, KeepsLinkTargets}, declared.loaded.NameLoad.TheVariants.{Unit as OfUnit}};

use crate::affected_units::indices_affected;
use crate::kept::{NamedLists, RawLoad};
use crate::loaded::{CachedRows, Loaded, NameLoad, Patches};
use crate::mains::Mains;
use fragment_choice::resolve;
use plain_values::{Bytes, TryClone};
use replica_store::{Place, Store, Viewer};
use std::alloc::{AllocError, Global};
use unit_loads::{Unit, load_named};
use unit_name::UnitName;

/// Reads the affected units of a load again from the store: those whose footprint has one of these parts, the first
/// components of all changed paths. None if one of them doesn't name what it named before. Fails only if memory runs
/// out.
pub(crate) fn patches(
    loaded: &Loaded,
    store: &Store,
    touched: &[Place],
    parts: &[Bytes],
) -> Result<Option<Patches>, AllocError>
    requires before { IsBefore loaded.now store.now touched.now }
    requires words { All (KeepsLinkTargets loaded.now.viewer loaded.now.words
        (host_view_of store.now loaded.now.viewer)) touched.now }
    requires parts { All (HasParts loaded.now.viewer parts.now) touched.now }
    ensures units { IfOk result
        (λ patches. IfSome patches
        (AreUnitsOf (host_view_of store.now loaded.now.viewer) loaded.now)) }
{
    let alloc = loaded.allocator();
    let viewer = loaded.viewer();
    let kept = loaded.kept()?;
    let affected = indices_affected(loaded, parts)?;
    let Some(units) = units_again(alloc, store, viewer, loaded.names(), kept.get(), &affected)?
    else {
        return Ok(None);
    };
    Ok(Some(Patches { kept, units }))
}

// Reads the units with these indices again, each with its index. None if one of them names something else than before.
fn units_again(
    alloc: Global,
    store: &Store,
    viewer: &Viewer,
    names: &[(UnitName, NameLoad)],
    kept: &CachedRows,
    affected: &[usize],
) -> Result<Option<Vec<(usize, NameLoad)>>, AllocError>
    requires affected { All (λ i. i < length names.now) affected.now }
    requires each { length kept.now.named.items ≡ length names.now }
    requires own { All (IsOwnUnit (host_view_of store.now viewer.now)) names.now }
    ensures within { IfOk result
        (λ again. IfSome again (λ units. All (λ u. u.0 < length names.now) units.items)) }
    ensures again { IfOk result
        (λ again. IfSome again
        (λ units. AreReadOrLeft (host_view_of store.now viewer.now) kept.now.mains affected.now
        names.now kept.now.named.items (with_loads names.now units.items))) }
{
    let named = kept.named.as_slice();
    let mut units = Vec::with_capacity(alloc, affected.len())?;
    for index in affected {
        let one = &names[*index];
        let lists = &named[*index];
        let Some(unit) = unit_again(alloc, store, viewer, &kept.mains, one, lists)? else {
            return Ok(None);
        };
        units.push((*index, unit))?;
    }
    Ok(Some(units))
}

// Reads the unit of one name again. None if it names something else than before, and for an alias.
fn unit_again(
    alloc: Global,
    store: &Store,
    viewer: &Viewer,
    mains: &Mains,
    one: &(UnitName, NameLoad),
    lists: &NamedLists,
) -> Result<Option<NameLoad>, AllocError>
    requires own { IsOwnUnit (host_view_of store.now viewer.now) one.now }
    ensures again { IfOk result
        (λ again. IfSome again
        (IsReadAgain (host_view_of store.now viewer.now) mains.now one.now lists.now)) }
{
    let (name, load) = one;
    let NameLoad::Unit(was) = load else {
        return Ok(None);
    };
    let unit = read_unit(alloc, store, viewer, name, was.get())?;
    if unit.deps.as_slice() != lists.as_slice() {
        return Ok(None);
    }
    Ok(Some(normalized_unit(alloc, mains, name, unit)?))
}

// What a name resolves to with a unit that was read for it, whose dependencies become main names.
fn normalized_unit(
    alloc: Global,
    mains: &Mains,
    name: &UnitName,
    unit: Unit,
) -> Result<NameLoad, AllocError>
    ensures load { IfOk result (λ load. load ≡ load_normalized mains.now (OfUnit unit)) }
{
    let kept = RawLoad::fresh(alloc, unit)?;
    let normalized = mains.normalize(alloc, name.try_clone()?, kept)?;
    Ok(normalized.load)
}

// The unit of a main name, with the names that it had.
fn read_unit(
    alloc: Global,
    store: &Store,
    viewer: &Viewer,
    name: &UnitName,
    was: &Unit,
) -> Result<Unit, AllocError>
    requires main { main (host_view_of store.now viewer.now) name.now ≡ name.now }
    requires names { AreNames (host_view_of store.now viewer.now) name.now was.now.names }
    ensures unit { IfOk result (IsUnit (host_view_of store.now viewer.now) name.now) }
{
    let resolved = resolve(alloc, store, viewer, name)?;
    let names = was.names.try_clone()?.into_vec();
    load_named(alloc, &store.host_view(viewer), resolved, names)
}
