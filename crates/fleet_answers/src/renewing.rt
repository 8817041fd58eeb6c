//! Snapshots that are made anew, or from one of an earlier store.
ghost use Rattle.std.specs.Prelude.{◌≡◌, IfOk, IfErr, IsTrue};
ghost use Rattle.path_maps.specs.HostViews.{host_view_of};
ghost use Rattle.parallel_load.specs.{AskedLaws.{AreSources, asked_for}, Refusals.{OnTooMany, OnWorkers}, Universe.{IsTooLarge}};
ghost use Rattle.fleet_answers.specs.{Answers.{IsSnapshot}, Tracked.{IsSnapshotBefore}};

use crate::snapshots::Snapshot;
use parallel_load::{Gate, LoadFault, are_sources};
use plain_values::{Items, copied};
use replica_store::{Place, Store, Viewer};
use std::alloc::{AllocError, Global};
use std::thread::Threads;
use unit_name::UnitName;

/// What is needed to load a store.
#[derive(Drop)]
pub(crate) struct LoadResources<'a, R, G> {
    pub(crate) rt: &'a R,
    pub(crate) alloc: Global,
    pub(crate) workers: usize,
    pub(crate) gate: &'a G,
}

/// Loads everything anew.
pub(crate) fn loaded_anew<R: Threads + Sync, G: Gate + Sync>(
    resources: &LoadResources<R, G>,
    store: &Store,
    viewer: &Viewer,
    names: &[UnitName],
) -> Result<Snapshot, LoadFault>
    ensures snapshot { IfOk result (IsSnapshot (host_view_of store.now viewer.now) names.now) }
    ensures over { IfErr result
        (λ fault. OnTooMany fault (IsTooLarge (host_view_of store.now viewer.now) names.now)) }
{
    let LoadResources {
        rt,
        alloc,
        workers,
        gate,
    } = resources;
    Snapshot::by_workers(*rt, *alloc, store, viewer, names, *workers, *gate)
}

/// The snapshot of a store for the same viewer, asked for by names that it serves, from one of a store that shows the same
/// at each place but these. Reads nothing where nothing was touched.
pub(crate) fn renewed(
    snapshot: Snapshot,
    store: &Store,
    touched: &[Place],
    names: &[UnitName],
) -> Result<Snapshot, LoadFault>
    requires before { IsSnapshotBefore snapshot store.now touched.now }
    requires these { AreSources (host_view_of store.now snapshot.viewer) snapshot.extra names.now }
    requires those { AreSources (host_view_of store.now snapshot.viewer) names.now snapshot.extra }
    ensures snapshot { IfOk result (IsSnapshot (host_view_of store.now snapshot.viewer) names.now) }
    ensures over { IfErr result
        (λ fault. OnTooMany fault (IsTooLarge (host_view_of store.now snapshot.viewer) names.now)) }
    ensures no_workers { IfErr result (λ fault. OnWorkers fault ⊥) }
{
    match refreshed(snapshot, store, touched) {
        Ok(snapshot) => Ok(asked_by(snapshot, names)?),
        Err(fault) => Err(fault),
    }
}

// The snapshot of a store for the same viewer and names, from one of a store that shows the same at each place but these.
fn refreshed(snapshot: Snapshot, store: &Store, touched: &[Place]) -> Result<Snapshot, LoadFault>
    requires before { IsSnapshotBefore snapshot store.now touched.now }
    ensures snapshot { IfOk result
        (IsSnapshot (host_view_of store.now snapshot.viewer) snapshot.extra) }
    ensures over { IfErr result
        (λ fault. OnTooMany fault
        (IsTooLarge (host_view_of store.now snapshot.viewer) snapshot.extra)) }
    ensures no_workers { IfErr result (λ fault. OnWorkers fault ⊥) }
{
    if touched.is_empty() {
        Ok(snapshot)
    } else {
        snapshot.refreshed(store, touched)
    }
}

// The same snapshot, asked for by these names.
fn asked_by(snapshot: Snapshot, names: &[UnitName]) -> Result<Snapshot, AllocError>
    ensures asked { IfOk result (λ one. one ≡ asked_for names.now snapshot) }
{
    if is_asked_by(&snapshot, names) {
        return Ok(snapshot);
    }
    let extra = copied(snapshot.loaded().allocator(), names)?;
    Ok(snapshot.asked_for(Items::from_vec(extra)))
}

// Whether exactly these names were asked for, in this order.
fn is_asked_by(snapshot: &Snapshot, names: &[UnitName]) -> bool
    ensures names { IsTrue result → snapshot.now.extra ≡ names.now }
{
    *snapshot.loaded().extra() == *names
}

/// Whether a store's load of these names has the units of its load of the snapshot's names, for the snapshot's viewer: each
/// name was asked for or is visible, and each that was asked for is one of the names or visible.
pub(crate) fn serves(store: &Store, snapshot: &Snapshot, names: &[UnitName]) -> bool
    ensures these { IsTrue result
        → AreSources (host_view_of store.now snapshot.now.viewer) snapshot.now.extra names.now }
    ensures those { IsTrue result
        → AreSources (host_view_of store.now snapshot.now.viewer) names.now snapshot.now.extra }
{
    if is_asked_by(snapshot, names) {
        return true;
    }
    let loaded = snapshot.loaded();
    let view = store.host_view(loaded.viewer());
    let asked = loaded.extra();
    are_sources(&view, asked, names) && are_sources(&view, names, asked)
}

/// Whether a snapshot is for this viewer.
pub(crate) fn is_of(snapshot: &Snapshot, viewer: &Viewer) -> bool
    ensures viewer { IsTrue result → snapshot.now.viewer ≡ viewer.now }
{
    *snapshot.loaded().viewer() == *viewer
}
