//! Loads that are refreshed, and footprints of units, in words.
ghost use Rattle.std.specs.Prelude.{◌≢◌, ◌↔◌, IfOk};
ghost use Rattle.list_laws.specs.Members.{IsAmong};
ghost use Rattle.load_places.specs.Places.{PlaceParts};
ghost use Rattle.edit_sums.specs.Sums.{visible_at};
ghost use Rattle.path_maps.specs.HostViews.{host_view_of};
ghost use Rattle.parallel_load.specs.Loads.{IsLoad};

use crate::loads::edits::{Done, asked_of};
use crate::loads::rendering::{append_fault, append_places, is_same_load};
use crate::loads::universes::universe_of;
use load_refreshes::{Refreshed, refresh_in_place};
use parallel_load::{LoadFault, Loaded, load_here};
use replica_store::{Edit, Place, Store, Viewer};
use std::alloc::Global;
use unit_name::UnitName;
use worked_lines::{Answer, LineFault, Words};

// A store with a load of it.
#[derive(Drop)]
struct LoadedStore {
    store: Store,
    load: Loaded,
}

impl LoadedStore {
    // A store with the load by one thread.
    fn of(
        alloc: Global,
        store: Store,
        viewer: &Viewer,
        names: &[UnitName],
    ) -> Result<LoadedStore, LoadFault>
        ensures load { IfOk result
            (λ made. IsLoad (host_view_of made.store made.load.viewer) made.load.extra made.load) }
    {
        let load = load_here(alloc, &store, viewer, names)?;
        Ok(LoadedStore { store, load })
    }

    // Refreshes the load for another store, if these are just the places at which that one shows something else.
    fn refreshed(&self, store: &Store, changed: &[Place]) -> Result<Loaded, LoadFault>
        requires load { IsLoad (host_view_of self.now.store self.now.load.viewer)
            self.now.load.extra self.now.load }
        requires changed { (p : PlaceParts) → IsAmong p changed.now
            ↔ (visible_at store.now p ≢ visible_at self.now.store p) }
        ensures load { IfOk result
            (λ load. IsLoad (host_view_of store.now load.viewer) load.extra load) }
    {
        let load = load_refreshes::refresh(&self.load, store, changed)?;
        Ok(load)
    }

    // Refreshes the load in place, and gives it away.
    fn given_away(self, store: &Store, changed: &[Place]) -> Result<Refreshed, LoadFault>
        requires load { IsLoad (host_view_of self.store self.load.viewer) self.load.extra
            self.load }
        requires changed { (p : PlaceParts) → IsAmong p changed.now
            ↔ (visible_at store.now p ≢ visible_at self.store p) }
    {
        refresh_in_place(self.load, store, changed)
    }
}

// The store of so many first edits.
fn store_of(alloc: Global, edits: &[Edit], count: usize) -> Result<Store, LineFault> {
    if count > edits.len() {
        return Err(LineFault::Words);
    }
    Ok(Store::from_edits(alloc, &edits[..count])?)
}

// Writes from how many edits a store is made.
fn append_count(out: &mut Answer, count: usize) {
    out.line_made(format!(in out.alloc; "of {count} edits: "));
}

// Writes how many units were read for a load.
fn append_fresh(out: &mut Answer, load: &Loaded) {
    out.print(&load.fresh());
    out.write(b" read");
}

// Whether what two loads come to is the same.
fn is_same_universe(alloc: Global, one: &Loaded, other: &Loaded) -> Result<bool, LineFault> {
    let text = universe_of(alloc, one)?;
    Ok(text == universe_of(alloc, other)?)
}

// Compares a load with the one by one thread: what it has, and its edges and plan.
fn append_beside(out: &mut Answer, load: &Loaded, here: &Loaded) -> Done {
    if !is_same_load(load, here)? {
        out.write(b", another");
        return Ok(());
    }
    let is_same = is_same_universe(out.alloc, load, here)?;
    out.either(is_same, b", the same", b", with other edges or plans");
    Ok(())
}

// Writes how many units were read for a load, and how it compares with the one by one thread.
fn append_compared(out: &mut Answer, load: &Loaded, here: &Result<Loaded, LoadFault>) -> Done {
    append_fresh(out, load);
    match here {
        Ok(here) => append_beside(out, load, here)?,
        Err(LoadFault::Memory) => return Err(LineFault::Memory),
        Err(_) => out.write(b", where there is none"),
    }
    Ok(())
}

// Writes whether a load that was given away was refreshed in place, how many units were read for that, and how the result
// compares with the load by one thread.
fn append_given_away(
    out: &mut Answer,
    refreshed: &Result<Refreshed, LoadFault>,
    here: &Result<Loaded, LoadFault>,
) -> Done {
    match refreshed {
        Ok(Refreshed::InPlace(load)) => {
            out.write(b"; in place ");
            append_compared(out, load, here)?;
        }
        Ok(Refreshed::Anew(_, load)) => {
            out.write(b"; anew ");
            append_compared(out, load, here)?;
        }
        Err(LoadFault::Memory) => return Err(LineFault::Memory),
        Err(_) => out.write(b"; and none"),
    }
    Ok(())
}

// Writes why a load wasn't refreshed, and whether there is one by one thread.
fn append_refused(out: &mut Answer, fault: &LoadFault, here: &Result<Loaded, LoadFault>) -> Done {
    append_fault(out, fault)?;
    out.either(here.is_ok(), b", where there is one", b"");
    Ok(())
}

// Writes the places at which a store shows something else than the one before it.
fn append_changed(out: &mut Answer, changed: &[Place]) {
    out.write(b"changed");
    append_places(out, changed);
    out.write(b"; ");
}

// The load of a store by one thread, as another load was made.
fn load_like(alloc: Global, store: &Store, load: &Loaded) -> Result<Loaded, LoadFault> {
    load_here(alloc, store, load.viewer(), load.extra())
}

// Writes how a refreshed load compares with the one by one thread, and how the load before, given away, does.
fn append_both(
    out: &mut Answer,
    before: LoadedStore,
    store: &Store,
    changed: &[Place],
    load: &Loaded,
    here: &Result<Loaded, LoadFault>,
) -> Done
    requires load { IsLoad (host_view_of before.store before.load.viewer) before.load.extra
        before.load }
    requires changed { (p : PlaceParts) → IsAmong p changed.now
        ↔ (visible_at store.now p ≢ visible_at before.store p) }
{
    append_compared(out, load, here)?;
    append_given_away(out, &before.given_away(store, changed), here)
}

// Writes the places at which a store shows something else than the one before it, and how many units are read when its load
// is refreshed from that one's. Returns the store with its load, or the one before if there is no load.
fn append_refreshed(
    out: &mut Answer,
    before: LoadedStore,
    store: Store,
) -> Result<LoadedStore, LineFault>
    requires load { IsLoad (host_view_of before.store before.load.viewer) before.load.extra
        before.load }
    ensures load { IfOk result
        (λ made. IsLoad (host_view_of made.store made.load.viewer) made.load.extra made.load) }
{
    let changed = store.changed(&before.store)?;
    append_changed(out, &changed);
    let here = load_like(out.alloc, &store, &before.load);
    match before.refreshed(&store, &changed) {
        Ok(load) => {
            append_both(out, before, &store, &changed, &load, &here)?;
            Ok(LoadedStore { store, load })
        }
        Err(fault) => {
            append_refused(out, &fault, &here)?;
            Ok(before)
        }
    }
}

// Refreshes the load for each of several numbers of edits, one after another.
fn append_later(out: &mut Answer, first: LoadedStore, edits: &[Edit], counts: &[usize]) -> Done
    requires load { IsLoad (host_view_of first.store first.load.viewer) first.load.extra
        first.load }
{
    let mut held = first;
    for count in counts {
        append_count(out, *count);
        let store = store_of(out.alloc, edits, *count)?;
        held = append_refreshed(out, held, store)?;
    }
    Ok(())
}

// Loads the store of the first edits, as many as the first number says, and refreshes that load for each later number.
fn append_counts(
    out: &mut Answer,
    viewer: &Viewer,
    edits: &[Edit],
    names: &[UnitName],
    counts: &[usize],
) -> Done {
    let (first, later) = counts.split_first().ok_or(LineFault::Words)?;
    append_count(out, *first);
    let store = store_of(out.alloc, edits, *first)?;
    match LoadedStore::of(out.alloc, store, viewer, names) {
        Ok(held) => {
            append_fresh(out, &held.load);
            append_later(out, held, edits, later)
        }
        Err(fault) => append_fault(out, &fault),
    }
}

/// Loads a store of first edits, and refreshes its load for other numbers of first edits.
pub fn refresh(words: &mut Words, viewer: Viewer, out: &mut Answer) -> Done {
    let counts = words.numbers()?;
    let edits = words.edits()?;
    let names = words.names()?;
    append_counts(out, &viewer, &edits, &names, &counts)
}

// Writes the footprint of the unit of a main name.
fn append_footprint(out: &mut Answer, load: &Loaded, name: &UnitName) -> Done {
    out.line(name.bytes());
    out.write(b":");
    if load.unit(name).is_none() {
        out.write(b" no unit");
        return Ok(());
    }
    for part in &parallel_load::footprint(load, name)? {
        out.write(b" ");
        out.write(part.as_slice());
    }
    Ok(())
}

// Writes the footprints of the units of several main names.
fn append_footprints(out: &mut Answer, load: &Loaded, names: &[UnitName]) -> Done {
    for name in names {
        append_footprint(out, load, name)?;
    }
    Ok(())
}

/// Loads a store, and writes the footprints of the units of several names.
pub fn footprint(words: &mut Words, viewer: Viewer, out: &mut Answer) -> Done {
    let asked = asked_of(words, viewer)?;
    let looked = words.names()?;
    match load_here(words.alloc, &asked.store, &asked.viewer, &asked.names) {
        Ok(load) => append_footprints(out, &load, &looked),
        Err(fault) => append_fault(out, &fault),
    }
}
