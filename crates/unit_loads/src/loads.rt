//! A unit of a store.
ghost use Rattle.std.specs.{Prelude.{◌≡◌, IfOk}};
ghost use Rattle.path_maps.specs.HostViews.{host_view_of};
ghost use Rattle.fragment_choice.specs.{Resolutions.{IsEnd, main, resolution}, UnitNames.{AreNames}};
ghost use Rattle.unit_loads.specs.{WithoutFiles.{is_loaded_without_file}, Units.{fragment_by, HasNothing, IsStatus, IsUnit, no_names}};

use crate::found::UnitParts;
use crate::units::{Status, Unit};
use fragment_choice::{AliasIndex, Choice, Resolution};
use plain_values::Items;
use profiles::Profile;
use replica_store::{HostView, Store, Viewer};
use setting_rules::{DepKind, DependencyList};
use std::alloc::{AllocError, Global};
use unit_name::UnitName;
use unit_values::{is_built_in, is_perpetual};

/// Returns the unit with a main name, in the store of an index. Its dependencies are the names that its words and links
/// give, which aren't resolved to main names yet (systemd.unit(5)). A template gives a unit too, as if it had no
/// instance, but no load asks for one. Its files are evaluated by the profile of the index's view.
///
/// Its folders are listed once, for drop-ins and for links, and the entries that count are borrowed from the store.
/// Besides the look-ups for its names and in these folders it is linear in the bytes of its files and of their
/// expansion, and O(n log n) in the names of a kind. Fails only if memory runs out.
pub fn load_unit(alloc: Global, index: &AliasIndex, name: &UnitName) -> Result<Unit, AllocError>
    requires main { main index.now name.now ≡ name.now }
    ensures unit { IfOk result (IsUnit index.now name.now) }
{
    let resolved = index.resolve(alloc, name)?;
    load_resolved(alloc, index, resolved)
}

/// Returns the unit of a name's main name in a store, as a host or the fleet sees it, like `load_unit`.
///
/// It makes an index of the whole store; for several units, make one index and call `load_unit` for each. Fails only if
/// memory runs out.
pub fn load_one(
    alloc: Global,
    store: &Store,
    viewer: &Viewer,
    name: &UnitName,
) -> Result<Unit, AllocError>
    ensures unit { IfOk result (IsUnit (host_view_of store.now viewer.now)
        (main (host_view_of store.now viewer.now) name.now)) }
{
    let index = AliasIndex::of(alloc, store, viewer)?;
    let resolved = index.resolve(alloc, name)?;
    load_resolved(alloc, &index, resolved)
}

/// Returns the unit of a resolved main name, as `resolve` returns it for each of its names. It is the same unit as that
/// of `load_unit`, which resolves the name first. Fails only if memory runs out.
pub fn load_resolved(
    alloc: Global,
    index: &AliasIndex,
    resolved: Resolution,
) -> Result<Unit, AllocError>
    requires resolved { resolution index.now resolved.main ≡ resolved }
    ensures unit { IfOk result (IsUnit index.now resolved.main) }
{
    let names = index.names_of(alloc, &resolved.main)?;
    load_named(alloc, index.view(), resolved, names)
}

/// Like `load_resolved`, but all names of the unit are known, so no index of aliases is used. Fails only if memory runs
/// out.
pub fn load_named(
    alloc: Global,
    view: &HostView,
    resolved: Resolution,
    names: Vec<UnitName>,
) -> Result<Unit, AllocError>
    requires resolved { resolution view.now resolved.main ≡ resolved }
    requires names { AreNames view.now resolved.main names.items }
    ensures unit { IfOk result (IsUnit view.now resolved.main) }
{
    let Resolution { main, choice } = resolved;
    let status = status_of(alloc, view.profile(), &main, choice)?;
    if !status.is_loaded() {
        return unloaded(alloc, main, names, status);
    }
    let found = UnitParts::of(alloc, view, &main, &names, status.fragment())?;
    Ok(found.into_unit(main, names, status))
}

// The status of a unit whose name has this choice, which is no alias.
fn status_of(
    alloc: Global,
    profile: Profile,
    unit: &UnitName,
    choice: Choice,
) -> Result<Status, AllocError>
    requires chosen { IsEnd choice }
    ensures status { IfOk result (IsStatus profile unit.now choice) }
{
    if stands_without_file(alloc, profile, unit, &choice)? {
        return Ok(Status::BuiltIn);
    }
    Ok(match choice {
        Choice::Fragment(place) => Status::Loaded(place),
        Choice::NotFound => Status::NotFound,
        Choice::Masked => Status::Masked,
        Choice::Bad(cause) => Status::Bad(cause),
        Choice::Alias(_other) => unreachable!(),
    })
}

// Whether a unit is loaded without a file after this choice of its name.
fn stands_without_file(
    alloc: Global,
    profile: Profile,
    unit: &UnitName,
    choice: &Choice,
) -> Result<bool, AllocError>
    ensures test { IfOk result (λ test. test ≡ is_loaded_without_file profile unit.now choice.now) }
{
    match (profile, choice) {
        (Profile::Manager, Choice::NotFound) => is_built_in(alloc, unit),
        (Profile::Manager, Choice::Masked) => Ok(is_perpetual(unit)),
        _ => Ok(false),
    }
}

// A unit with these names that isn't loaded.
fn unloaded(
    alloc: Global,
    name: UnitName,
    names: Vec<UnitName>,
    status: Status,
) -> Result<Unit, AllocError>
    ensures name { IfOk result (λ unit. unit.name ≡ name) }
    ensures names { IfOk result (λ unit. unit.names ≡ names.items) }
    ensures status { IfOk result (λ unit. unit.status ≡ status) }
    ensures nothing { IfOk result HasNothing }
{
    let deps = lists_without_names(alloc)?;
    Ok(Unit {
        name,
        names: Items::from_vec(names),
        status,
        dropins: Items::new(alloc),
        values: Items::new(alloc),
        deps,
        notes: Items::new(alloc),
        manual: false,
        has_defaults: false,
        mounts: Items::new(alloc),
    })
}

// An empty list of names for each kind by which a unit may name another.
fn lists_without_names(alloc: Global) -> Result<Items<DependencyList>, AllocError>
    ensures lists { IfOk result (λ lists. lists ≡ no_names) }
{
    let mut lists = Items::new(alloc);
    for kind in DepKind::naming() {
        lists.push(DependencyList {
            kind: *kind,
            names: Items::new(alloc),
        })?;
    }
    Ok(lists)
}
