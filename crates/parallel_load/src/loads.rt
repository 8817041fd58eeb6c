//! Loads a store, in one thread or by several workers.
ghost use Rattle.std.specs.{Prelude.{◌≡◌, ◌↔◌, ◌⊎◌, ◌<◌, Err, IfOk, IfErr}};
ghost use Rattle.path_maps.specs.HostViews.{host_view_of};
ghost use Rattle.list_laws.specs.Members.{IsAmong};
ghost use Rattle.parallel_load.specs.{Loads.{IsLoad}, OwnLinkTargets.{AreOwnLinkTargets}, Refusals.{OnTooMany, OnWorkers}};
ghost use Rattle.parallel_load.specs.{Universe.{IsSource, IsTooLarge}, declared.faults.LoadFault.TheVariants.{Workers}};

use crate::faults::LoadFault;
use crate::finishing::{normalized, normalized_by_workers};
use crate::loaded::Loaded;
use crate::loader::UnitLoader;
use crate::sources::sources;
use crate::words::CachedLinkTargets;
use fragment_choice::AliasIndex;
use name_closure::close_loaded;
use plain_values::Shared;
use replica_store::{Store, Viewer};
use std::alloc::{AllocError, Global};
use std::thread::Threads;
use unit_name::UnitName;
use worker_rounds::{Gate, close_loaded_by_workers, is_worker_count};

/// The most names that a load may have, aliases included.
pub const MOST_NAMES: usize = 4096;

/// Loads all units that the manager of a host, or a manager without one, must load from a store: the universe of the
/// names that are asked for, for a manager of the perpetual units, and of all names at which something is visible, closed
/// under main names and under what units name (systemd.unit(5)).
///
/// `TooManyUnits` exactly if the universe has more than 4,096 names, aliases included. `Memory` if memory runs out.
/// Never `Workers`. Linear in the bytes of the units' files, apart from a factor logarithmic in the numbers of names
/// and paths.
pub fn load_here(
    alloc: Global,
    store: &Store,
    viewer: &Viewer,
    extra: &[UnitName],
) -> Result<Loaded, LoadFault>
    ensures load { IfOk result (IsLoad (host_view_of store.now viewer.now) extra.now) }
    ensures over { IfErr result
        (λ fault. OnTooMany fault (IsTooLarge (host_view_of store.now viewer.now) extra.now)) }
    ensures not_over { IfOk result
        (λ _. ¬ IsTooLarge (host_view_of store.now viewer.now) extra.now) }
    ensures no_workers { IfErr result (λ fault. OnWorkers fault ⊥) }
{
    let Start {
        words,
        sources,
        loader,
    } = start_of(alloc, store, viewer, extra)?;
    let found = close_loaded(alloc, &loader, &sources, MOST_NAMES)?;
    Ok(normalized(alloc, viewer, extra, words, found)?)
}

/// The same load, and the same refusals, by 1 to 64 workers. Neither the number of workers nor the gate's answers
/// change the result.
///
/// `Workers`, before anything else, exactly if the number isn't 1 to 64. The closure runs in rounds. The new names of a
/// round are cut, in byte order, into chunks that aren't empty: as many as there are workers, or as names if those are
/// fewer, with indices from 0 in each round. Each chunk has its own worker, which asks the gate before it loads, at
/// most 1,000,000 times. Workers also collect what a round names, and at the end replace names by main names; for that
/// they ask no gate. May wait for threads.
pub fn load_fleet<R: Threads + Sync, G: Gate + Sync>(
    rt: &R,
    alloc: Global,
    store: &Store,
    viewer: &Viewer,
    extra: &[UnitName],
    workers: usize,
    gate: &G,
) -> Result<Loaded, LoadFault>
    ensures workers { (result ≡ Err Workers) ↔ ((workers ≡ 0) ⊎ (64 < workers)) }
    ensures load { IfOk result (IsLoad (host_view_of store.now viewer.now) extra.now) }
    ensures over { IfErr result
        (λ fault. OnTooMany fault (IsTooLarge (host_view_of store.now viewer.now) extra.now)) }
    ensures not_over { IfOk result
        (λ _. ¬ IsTooLarge (host_view_of store.now viewer.now) extra.now) }
{
    if !is_worker_count(workers) {
        return Err(LoadFault::Workers);
    }
    let Start {
        words,
        sources,
        loader,
    } = start_of(alloc, store, viewer, extra)?;
    let found = close_loaded_by_workers(rt, alloc, &loader, &sources, MOST_NAMES, workers, gate)?;
    Ok(normalized_by_workers(rt, alloc, viewer, extra, words, found, workers)?)
}

// Where a load begins: the link targets that are seen, the source names, and the loader.
#[derive(Drop)]
struct Start<'a> {
    words: Shared<CachedLinkTargets>,
    sources: Vec<UnitName>,
    loader: UnitLoader<'a>,
}

// The start of a load for a host, or without one. Fails only if memory runs out.
fn start_of<'a>(
    alloc: Global,
    store: &'a Store,
    viewer: &'a Viewer,
    extra: &[UnitName],
) -> Result<Start<'a>, AllocError>
    ensures words { IfOk result
        (λ start. AreOwnLinkTargets (host_view_of store.now viewer.now) start.words) }
    ensures sources { IfOk result (λ start. (n : _) → IsAmong n start.sources.items
        ↔ IsSource (host_view_of store.now viewer.now) extra.now n) }
    ensures view { IfOk result (λ start. start.loader.index ≡ host_view_of store.now viewer.now) }
{
    let view = store.host_view(viewer);
    let words = CachedLinkTargets::of(alloc, &view)?;
    let sources = sources(alloc, viewer.profile, &words, extra)?;
    let index = AliasIndex::of_targets(alloc, view, words.names())?;
    let loader = UnitLoader::new(index);
    Ok(Start {
        words: Shared::new(alloc, words)?,
        sources,
        loader,
    })
}
