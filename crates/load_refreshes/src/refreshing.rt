//! Refreshes a load after few changes.
ghost use Rattle.std.specs.Prelude.{IfOk, IfErr};
ghost use Rattle.path_maps.specs.HostViews.{host_view_of};
ghost use Rattle.parallel_load.specs.{Loads.{IsLoad}, Refreshes.{IsBefore}, Refusals.{OnTooMany, OnWorkers}, Universe.{IsTooLarge}};
ghost use Rattle.load_refreshes.specs.RefreshedLoads.{IsRefreshed};

use parallel_load::{LoadFault, Loaded, copy_of_load, patches_for, refreshed_anew};
use replica_store::{Place, Store};

/// The result of refreshing a load that the caller gives away.
#[derive(Debug, Drop)]
pub enum Refreshed {
    /// The refreshed load: some of its units were read again. Names and dependencies by indices are those of the old
    /// load.
    InPlace(Loaded),
    /// The old load as it was, and the new one.
    Anew(Loaded, Loaded),
}

/// Makes the load of a store from the load of another, when these places are all at which the two stores show different
/// contents. The result, refusals included, is that of `load_here` for the same viewer and the same names.
///
/// Reads a unit again only if it is new, or if a changed place that the host sees is in its footprint; all others are
/// shared with the old load. Loads everything anew if aliases or the set of visible names may differ: where a link at a
/// path of one component comes, goes or changes its target, or the first or last file of a name comes or goes.
pub fn refresh(loaded: &Loaded, store: &Store, touched: &[Place]) -> Result<Loaded, LoadFault>
    requires before { IsBefore loaded.now store.now touched.now }
    ensures load { IfOk result
        (IsLoad (host_view_of store.now loaded.now.viewer) loaded.now.extra) }
    ensures over { IfErr result
        (λ fault. OnTooMany fault
        (IsTooLarge (host_view_of store.now loaded.now.viewer) loaded.now.extra)) }
    ensures not_over { IfOk result
        (λ _. ¬ IsTooLarge (host_view_of store.now loaded.now.viewer) loaded.now.extra) }
    ensures no_workers { IfErr result (λ fault. OnWorkers fault ⊥) }
{
    match patches_for(loaded, store, touched)? {
        Some(patches) => Ok(copy_of_load(loaded)?.patched(patches)),
        None => refreshed_anew(loaded, store, touched),
    }
}

/// The same for a load that the caller gives away. It is changed in place if its names and what each of them names
/// stay; that costs reading the affected units and a look at each name. After a refusal the old load is gone.
pub fn refresh_in_place(
    loaded: Loaded,
    store: &Store,
    touched: &[Place],
) -> Result<Refreshed, LoadFault>
    requires before { IsBefore loaded store.now touched.now }
    ensures load { IfOk result (IsRefreshed (host_view_of store.now loaded.viewer) loaded) }
    ensures over { IfErr result
        (λ fault. OnTooMany fault
        (IsTooLarge (host_view_of store.now loaded.viewer) loaded.extra)) }
    ensures not_over { IfOk result
        (λ _. ¬ IsTooLarge (host_view_of store.now loaded.viewer) loaded.extra) }
    ensures no_workers { IfErr result (λ fault. OnWorkers fault ⊥) }
{
    match patches_for(&loaded, store, touched)? {
        Some(patches) => Ok(Refreshed::InPlace(loaded.patched(patches))),
        None => {
            let load = refreshed_anew(&loaded, store, touched)?;
            Ok(Refreshed::Anew(loaded, load))
        }
    }
}
