//! What a load needs to be refreshed after few changes: units to be read again in place, or a new load with what stays.
ghost use Rattle.std.specs.{Prelude.{◌≤◌, IfOk, IfErr, IfSome, length}, BTreeMap.{keys}, List.{All, Sorted.{IsStrictlySortedBy}}};
ghost use Rattle.path_maps.specs.HostViews.{host_view_of};
ghost use Rattle.unit_name.specs.Names.{name_cmp};
ghost use Rattle.parallel_load.specs.{FoundNames.{IsFound}, Loads.{IsLoad}, Patched.{AreUnitsOf}, Refreshes.{IsBefore}, Refusals.{OnTooMany, OnWorkers}};
ghost use Rattle.parallel_load.specs.{Touched.{HasParts, KeepsLinkTargets}, Universe.{IsTooLarge}};

use crate::affected_units::indices_affected;
use crate::faults::LoadFault;
use crate::finishing::normalized;
use crate::held::{HeldLoader, still_of};
use crate::kept::RawLoad;
use crate::loaded::{Loaded, Patches};
use crate::loader::UnitLoader;
use crate::loads::{MOST_NAMES, load_here};
use crate::patching::patches;
use crate::sources::sources;
use crate::touched::{keeps_link_targets, parts_touched};
use fragment_choice::AliasIndex;
use name_closure::close_loaded;
use plain_values::{Bytes, TryClone};
use replica_store::{Place, Store};
use std::alloc::AllocError;
use std::collections::BTreeMap;
use unit_name::UnitName;

/// The units that have to be read again, if all names and what each of them names stay: those in whose footprint a changed
/// place is that the host sees. None if that may not hold: where a link at a path of one component comes, goes or changes
/// its target, where the first or last file of a name comes or goes, or where a unit names something else than before.
/// Fails only if memory runs out.
pub fn patches_for(
    loaded: &Loaded,
    store: &Store,
    touched: &[Place],
) -> Result<Option<Patches>, AllocError>
    requires before { IsBefore loaded.now store.now touched.now }
    ensures units { IfOk result
        (λ patches. IfSome patches
        (AreUnitsOf (host_view_of store.now loaded.now.viewer) loaded.now)) }
{
    let alloc = loaded.allocator();
    if !keeps_link_targets(alloc, loaded, store, touched)? {
        return Ok(None);
    }
    let parts = parts_touched(alloc, loaded.viewer(), touched)?;
    patches(loaded, store, touched, &parts)
}

/// The load where names may come or go, by `load_here` of the same viewer and the same names, refusals included. Takes what
/// stays from the old load, if link targets stay.
pub fn refreshed_anew(
    loaded: &Loaded,
    store: &Store,
    touched: &[Place],
) -> Result<Loaded, LoadFault>
    requires before { IsBefore loaded.now store.now touched.now }
    ensures load { IfOk result
        (IsLoad (host_view_of store.now loaded.now.viewer) loaded.now.extra) }
    ensures over { IfErr result
        (λ fault. OnTooMany fault
        (IsTooLarge (host_view_of store.now loaded.now.viewer) loaded.now.extra)) }
    ensures not_over { IfOk result
        (λ _. ¬ IsTooLarge (host_view_of store.now loaded.now.viewer) loaded.now.extra) }
    ensures no_workers { IfErr result (λ fault. OnWorkers fault ⊥) }
{
    let alloc = loaded.allocator();
    let viewer = loaded.viewer();
    if !keeps_link_targets(alloc, loaded, store, touched)? {
        return load_here(alloc, store, viewer, loaded.extra());
    }
    let parts = parts_touched(alloc, viewer, touched)?;
    let found = found_again(loaded, store, touched, &parts)?;
    let words = loaded.words().try_clone()?;
    Ok(normalized(alloc, viewer, loaded.extra(), words, found)?)
}

// The closure where link targets stay and all changed paths begin with these parts. Takes what stays from the old load.
fn found_again(
    loaded: &Loaded,
    store: &Store,
    touched: &[Place],
    parts: &[Bytes],
) -> Result<BTreeMap<UnitName, RawLoad>, LoadFault>
    requires before { IsBefore loaded.now store.now touched.now }
    requires words { All (KeepsLinkTargets loaded.now.viewer loaded.now.words
        (host_view_of store.now loaded.now.viewer)) touched.now }
    requires parts { All (HasParts loaded.now.viewer parts.now) touched.now }
    ensures found { IfOk result
        (λ found. IsFound
        (host_view_of store.now loaded.now.viewer) loaded.now.extra found.entries) }
    ensures ascending { IfOk result (λ found. IsStrictlySortedBy name_cmp (keys found)) }
    ensures few { IfOk result (λ found. length found.entries ≤ 4096) }
    ensures over { IfErr result
        (λ fault. OnTooMany fault
        (IsTooLarge (host_view_of store.now loaded.now.viewer) loaded.now.extra)) }
    ensures no_workers { IfErr result (λ fault. OnWorkers fault ⊥) }
{
    let alloc = loaded.allocator();
    let viewer = loaded.viewer();
    let words = loaded.words();
    let sources = sources(alloc, viewer.profile, words.get(), loaded.extra())?;
    let affected = indices_affected(loaded, parts)?;
    let held = still_of(alloc, loaded, &affected)?;
    let index = AliasIndex::of_targets(alloc, store.host_view(viewer), words.get().names())?;
    let loader = HeldLoader::of(UnitLoader::new(index), held);
    Ok(close_loaded(alloc, &loader, &sources, MOST_NAMES)?)
}
