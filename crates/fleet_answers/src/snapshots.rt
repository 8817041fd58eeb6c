//! The result of loading a store.
ghost use Rattle.inverse_deps.specs.Tables.{IsEdgeTable};
ghost use Rattle.std.specs.{Prelude.{◌≡◌, ◌↔◌, ◌⊎◌, ◌<◌, Err, IfOk, IfErr}, Option.{IfSome}};
ghost use Rattle.path_maps.specs.HostViews.{host_view_of};
ghost use Rattle.parallel_load.specs.{AskedLaws.{asked_for}, Refreshes.{IsBefore}, Refusals.{OnTooMany, OnWorkers}, Universe.{IsTooLarge}};
ghost use Rattle.parallel_load.specs.declared.faults.LoadFault.TheVariants.{Workers};
ghost use Rattle.fleet_answers.specs.Answers.{AreKnown, IsSnapshot, IsReturned, viewer_asked, names_asked};

use crate::from_loads::{linked_unit, linked_units, planned, pulled};
use crate::questions::{Answer, Question};
use inverse_deps::EdgeTable;
use load_refreshes::{Refreshed, refresh_in_place};
use parallel_load::{Gate, LoadFault, Loaded, load_fleet, load_here};
use plain_values::Items;
use profiles::Profile;
use replica_store::{Place, Store, Viewer};
use std::alloc::{AllocError, Global};
use std::marker::Model;
use std::thread::Threads;
use unit_name::UnitName;

/// All units that must be loaded of a store, and the edges between them. Contracts see the load.
#[derive(Debug)]
pub struct Snapshot {
    loaded: Loaded,
    table: EdgeTable,
}

impl Drop for Snapshot {
    fn drop(self) {
        let Snapshot {
            loaded: _,
            table: _,
        } = self;
    }
}

impl Model for Snapshot {
    ghost use Rattle.inverse_deps.specs.Tables.{IsEdgeTable};
    ghost use Rattle.parallel_load.specs.Loads.{LoadMap, coded_load};

    ghost Value = { LoadMap };

    ghost coded = { coded_load };

    ghost view = { λ s. s.loaded };

    ghost invariant = { λ s. IsEdgeTable s.loaded s.table };
}

impl Snapshot {
    /// The snapshot of a store, for a host or without one, by one thread. Loads these names and all at which something
    /// is visible. `TooManyUnits` exactly if more than 4,096 names must be loaded, aliases included. `Memory` if memory
    /// runs out.
    ///
    /// Costs one load (systemd.unit(5)) and the edges between its units.
    pub fn of(
        alloc: Global,
        store: &Store,
        viewer: &Viewer,
        extra: &[UnitName],
    ) -> Result<Snapshot, LoadFault>
        ensures snapshot { IfOk result (IsSnapshot (host_view_of store.now viewer.now) extra.now) }
        ensures over { IfErr result
            (λ fault. OnTooMany fault (IsTooLarge (host_view_of store.now viewer.now) extra.now)) }
        ensures no_workers { IfErr result (λ fault. OnWorkers fault ⊥) }
    {
        let loaded = load_here(alloc, store, viewer, extra)?;
        Ok(Snapshot::of_load(loaded)?)
    }

    /// The same snapshot, by 1 to 64 workers. Neither their number nor the gate's answers change it. `Workers`, before
    /// anything else, exactly if the number isn't 1 to 64. May wait for threads; one worker needs none.
    pub fn by_workers<R: Threads + Sync, G: Gate + Sync>(
        rt: &R,
        alloc: Global,
        store: &Store,
        viewer: &Viewer,
        extra: &[UnitName],
        workers: usize,
        gate: &G,
    ) -> Result<Snapshot, LoadFault>
        ensures workers { (result ≡ Err Workers) ↔ ((workers ≡ 0) ⊎ (64 < workers)) }
        ensures snapshot { IfOk result (IsSnapshot (host_view_of store.now viewer.now) extra.now) }
        ensures over { IfErr result
            (λ fault. OnTooMany fault (IsTooLarge (host_view_of store.now viewer.now) extra.now)) }
    {
        if workers == 1 {
            return Snapshot::of(alloc, store, viewer, extra);
        }
        let loaded = load_fleet(rt, alloc, store, viewer, extra, workers, gate)?;
        Ok(Snapshot::of_load(loaded)?)
    }

    // A load and its edges.
    fn of_load(loaded: Loaded) -> Result<Snapshot, AllocError>
        ensures load { IfOk result (λ made. made ≡ loaded) }
    {
        let table = EdgeTable::of(loaded.allocator(), &loaded)?;
        Ok(Snapshot::with_table(loaded, table))
    }

    // A load with its edges.
    fn with_table(loaded: Loaded, table: EdgeTable) -> Snapshot
        requires table { IsEdgeTable loaded table }
        ensures load { result ≡ loaded }
    {
        Snapshot { loaded, table }
    }

    /// The snapshot of another store for the same viewer and names, if these places are all at which the two stores show
    /// different contents. The result, refusals included, is that of `of`, but only what changed is read. If names and
    /// dependencies stayed the same, the edges are reused by files; a manager's are made anew, as they depend on more.
    pub(crate) fn refreshed(self, store: &Store, touched: &[Place]) -> Result<Snapshot, LoadFault>
        requires before { IsBefore self store.now touched.now }
        ensures snapshot { IfOk result
            (IsSnapshot (host_view_of store.now self.viewer) self.extra) }
        ensures over { IfErr result
            (λ fault. OnTooMany fault
            (IsTooLarge (host_view_of store.now self.viewer) self.extra)) }
        ensures no_workers { IfErr result (λ fault. OnWorkers fault ⊥) }
    {
        let Snapshot { loaded, table } = self;
        match refresh_in_place(loaded, store, touched)? {
            Refreshed::InPlace(loaded) => match loaded.viewer().profile {
                Profile::Files => Ok(Snapshot { loaded, table }),
                Profile::Manager => Ok(Snapshot::of_load(loaded)?),
            },
            Refreshed::Anew(_, loaded) => Ok(Snapshot::of_load(loaded)?),
        }
    }

    /// The same snapshot, asked for by these names: the edges stay. Allocates nothing.
    pub(crate) fn asked_for(self, extra: Items<UnitName>) -> Snapshot
        ensures load { result ≡ asked_for extra self }
    {
        let Snapshot { loaded, table } = self;
        Snapshot {
            loaded: loaded.asked_for(extra),
            table,
        }
    }

    /// The load.
    pub fn loaded(&self) -> &Loaded
        ensures load { result.now ≡ self.now }
    {
        &self.loaded
    }

    /// Answers a question for its host, if all its names are in the load. Fails only if memory runs out.
    pub fn answer(&mut self, question: &Question) -> Result<Answer, AllocError>
        requires viewer { self.old.viewer ≡ viewer_asked question.now }
        requires known { AreKnown self.old (names_asked question.now) }
        ensures returned { IfOk result (IsReturned self.old question.now) }
        ensures load { self.new ≡ self.old }
    {
        match question {
            Question::Unit { name, .. } => {
                Ok(Answer::Unit(linked_unit(&self.loaded, &self.table, name)?))
            }
            Question::Pulled { name, .. } => {
                Ok(Answer::Pulled(pulled(&self.loaded, &self.table, name)?))
            }
            Question::Plan(request) => planned(&self.loaded, &self.table, request),
            Question::Units { .. } => {
                Ok(Answer::Units(linked_units(&self.loaded, &self.table)?))
            }
        }
    }
}
