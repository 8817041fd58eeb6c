//! Makes a load of what the closure found: names in byte order, and dependencies both by main names and by indices.
ghost use Rattle.std.specs.{Prelude.{◌≡◌, ◌<◌, ◌≤◌, length, map, IfOk, IsTrue}, BTreeMap.{keys}, FinMap.{is_sorted}};
ghost use Rattle.std.specs.{List.Sorted.{IsStrictlySortedBy}};
ghost use Rattle.unit_name.specs.Names.{name_cmp};
ghost use Rattle.parallel_load.specs.{LoadRows.{IsKept}, Indexing.{AreIndexed}, SecondaryNames.{AreSecondaryNames}};
ghost use Rattle.parallel_load.specs.Normalized.{IsNormalizedLoad, IsWhole, name_lists, name_loads, name_indices, normalized_name};

use crate::kept::{NamedLists, RawLoad};
use crate::loaded::{CachedRows, Dependency, Loaded, NameLoad};
use crate::mains::{Mains, Normalized};
use crate::secondary_names::SecondaryNames;
use crate::words::CachedLinkTargets;
use plain_values::{Items, Shared, copied};
use replica_store::Viewer;
use std::alloc::{AllocError, Global};
use std::collections::BTreeMap;
use std::thread::Threads;
use unit_name::UnitName;
use worker_rounds::{Chunk, work_by_chunks};

// A name with its unit or its main name.
type Named = (UnitName, NameLoad);

/// The load of what was found, with dependencies by main names. Fails only if memory runs out.
pub(crate) fn normalized(
    alloc: Global,
    viewer: &Viewer,
    extra: &[UnitName],
    words: Shared<CachedLinkTargets>,
    found: BTreeMap<UnitName, RawLoad>,
) -> Result<Loaded, AllocError>
    requires ascending { IsStrictlySortedBy name_cmp (keys found) }
    requires whole { IsWhole found.entries }
    requires few { length found.entries ≤ 4096 }
    ensures load { IfOk result (IsNormalizedLoad found.entries viewer.now extra.now words) }
{
    let FoundNames { pairs, mains, read } = found_of(alloc, found)?;
    let names = mains.normalize_all(alloc, pairs)?;
    load_of(alloc, viewer, extra, words, names, mains, read)
}

/// The same load. Worker threads replace names by main names, each in one chunk of the load's names. May wait for
/// threads.
pub(crate) fn normalized_by_workers<R: Threads + Sync>(
    rt: &R,
    alloc: Global,
    viewer: &Viewer,
    extra: &[UnitName],
    words: Shared<CachedLinkTargets>,
    found: BTreeMap<UnitName, RawLoad>,
    workers: usize,
) -> Result<Loaded, AllocError>
    requires some { 0 < workers }
    requires ascending { IsStrictlySortedBy name_cmp (keys found) }
    requires whole { IsWhole found.entries }
    requires few { length found.entries ≤ 4096 }
    ensures load { IfOk result (IsNormalizedLoad found.entries viewer.now extra.now words) }
{
    let FoundNames { pairs, mains, read } = found_of(alloc, found)?;
    let names = normalize_by_workers(rt, alloc, &mains, pairs, workers)?;
    load_of(alloc, viewer, extra, words, names, mains, read)
}

// What was found, in order, with the indices of the main names and the count of units that were read.
#[derive(Drop)]
struct FoundNames {
    pairs: Vec<(UnitName, RawLoad)>,
    mains: Mains,
    read: u64,
}

// What was found, in order.
fn found_of(alloc: Global, found: BTreeMap<UnitName, RawLoad>) -> Result<FoundNames, AllocError>
    requires ascending { IsStrictlySortedBy name_cmp (keys found) }
    ensures pairs { IfOk result (λ all. all.pairs.items ≡ found.entries) }
    ensures mains { IfOk result (λ all. AreIndexed found.entries found.entries all.mains) }
{
    let pairs = pairs_of(alloc, found)?;
    let mains = Mains::of(alloc, pairs.as_slice())?;
    let read = fresh_among(&pairs);
    Ok(FoundNames { pairs, mains, read })
}

// The entries of a map, in ascending order of their keys.
fn pairs_of(
    alloc: Global,
    found: BTreeMap<UnitName, RawLoad>,
) -> Result<Vec<(UnitName, RawLoad)>, AllocError>
    ensures pairs { IfOk result (λ pairs. pairs.items ≡ found.entries) }
{
    found.into_iter().collect(alloc)
}

// How many of these are units that were read.
fn fresh_among(pairs: &[(UnitName, RawLoad)]) -> u64 {
    pairs.iter().filter(|pair| pair.1.is_fresh()).count() as u64
}

// Names with their units or main names, and with dependencies by main names and by indices. Each chunk has its own
// worker.
fn normalize_by_workers<R: Threads + Sync>(
    rt: &R,
    alloc: Global,
    mains: &Mains,
    pairs: Vec<(UnitName, RawLoad)>,
    workers: usize,
) -> Result<Vec<Normalized>, AllocError>
    requires some { 0 < workers }
    ensures names { IfOk result
        (λ names. names.items ≡ map (normalized_name mains.now) pairs.items) }
{
    if workers == 1 {
        return mains.normalize_all(alloc, pairs);
    }
    let normalize = |chunk: Chunk<(UnitName, RawLoad)>| -> Result<Vec<Normalized>, AllocError>
        ensures { IfOk result
            (λ names. names.items ≡ map (normalized_name mains.entry.now) chunk.nodes.items) }
    { mains.normalize_all(alloc, chunk.nodes) };
    work_by_chunks(rt, alloc, pairs, workers, &normalize)
}

// The load of these names, which are in byte order, with the indices of their main names.
fn load_of(
    alloc: Global,
    viewer: &Viewer,
    extra: &[UnitName],
    words: Shared<CachedLinkTargets>,
    normalized: Vec<Normalized>,
    mains: Mains,
    fresh: u64,
) -> Result<Loaded, AllocError>
    requires kept { IsKept (name_loads normalized.items) (name_lists normalized.items)
        (name_indices normalized.items) mains }
    ensures viewer { IfOk result (λ load. load.viewer ≡ viewer.now) }
    ensures extra { IfOk result (λ load. load.extra ≡ extra.now) }
    ensures names { IfOk result (λ load. load.names ≡ name_loads normalized.items) }
    ensures named { IfOk result (λ load. load.named ≡ name_lists normalized.items) }
    ensures words { IfOk result (λ load. load.words ≡ words) }
{
    let LoadParts { names, named, deps } = parts_of(alloc, normalized)?;
    let second = SecondaryNames::of(alloc, &names)?;
    let kept = CachedRows {
        named,
        deps,
        mains,
        second,
        words,
    };
    let kept = Shared::new(alloc, kept)?;
    load_with(alloc, viewer, extra, names, kept, fresh)
}

// The load of these names, which are in byte order, with the data that is cached for them.
fn load_with(
    alloc: Global,
    viewer: &Viewer,
    extra: &[UnitName],
    names: Vec<Named>,
    kept: Shared<CachedRows>,
    fresh: u64,
) -> Result<Loaded, AllocError>
    requires kept { IsKept names.items kept.named.items kept.deps.items kept.mains }
    requires second { AreSecondaryNames names.items kept.second }
    ensures viewer { IfOk result (λ load. load.viewer ≡ viewer.now) }
    ensures extra { IfOk result (λ load. load.extra ≡ extra.now) }
    ensures names { IfOk result (λ load. load.names ≡ names.items) }
    ensures named { IfOk result (λ load. load.named ≡ kept.named.items) }
    ensures words { IfOk result (λ load. load.words ≡ kept.words) }
{
    let viewer = viewer.try_clone()?;
    let extra = Items::from_vec(copied(alloc, extra)?);
    Ok(Loaded::new(viewer, extra, names, kept, fresh))
}

/// A copy of a load: the names are copied, their units are shared. Fails only if memory runs out.
pub fn copy_of_load(loaded: &Loaded) -> Result<Loaded, AllocError>
    ensures copy { IfOk result (λ copy. copy ≡ loaded.now) }
{
    let alloc = loaded.allocator();
    let names = copied(alloc, loaded.names())?;
    load_with(
        alloc,
        loaded.viewer(),
        loaded.extra(),
        names,
        loaded.kept()?,
        loaded.fresh(),
    )
}

// Names with their units or main names, and in the same order the lists of what they name and their dependencies by
// indices.
#[derive(Drop)]
struct LoadParts {
    names: Vec<Named>,
    named: Vec<NamedLists>,
    deps: Vec<Shared<Items<Dependency>>>,
}

// Splits rows into these parts.
fn parts_of(alloc: Global, normalized: Vec<Normalized>) -> Result<LoadParts, AllocError>
    ensures names { IfOk result (λ parts. parts.names.items ≡ name_loads normalized.items) }
    ensures named { IfOk result (λ parts. parts.named.items ≡ name_lists normalized.items) }
    ensures deps { IfOk result (λ parts. parts.deps.items ≡ name_indices normalized.items) }
{
    let mut names = Vec::with_capacity(alloc, normalized.len())?;
    let mut named = Vec::with_capacity(alloc, normalized.len())?;
    let mut deps = Vec::with_capacity(alloc, normalized.len())?;
    for one in normalized {
        names.push((one.name, one.load))?;
        named.push(one.lists)?;
        deps.push(one.deps)?;
    }
    Ok(LoadParts { names, named, deps })
}
