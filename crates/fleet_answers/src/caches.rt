//! Snapshots that are cached of a store, and the places that were touched since.
use crate::questions::{Answer, Question};
use crate::renewing::{LoadResources, is_of, loaded_anew, renewed, serves};
use crate::snapshots::Snapshot;
use parallel_load::{Gate, LoadFault};
use plain_values::append_copies;
use replica_store::{Place, Store, Viewer};
use std::alloc::{AllocError, Global};
use std::thread::Threads;
use unit_name::UnitName;

/// The most snapshots that are cached of a store.
pub const MOST_SNAPSHOTS: usize = 64;

/// The most touched places behind which a snapshot is refreshed. Where more were touched, everything is loaded anew.
pub const MOST_TOUCHED: usize = 1_024;

/// A snapshot, and how many touched places were listed when it was made.
#[derive(Drop)]
pub(crate) struct Cached {
    pub(crate) snapshot: Snapshot,
    pub(crate) mark: usize,
}

/// The cached snapshots of a store: for each viewer the one of the last question, and at most 64. The least recently used
/// one is dropped first. And the places that were touched since the oldest of them was made, in order.
pub(crate) struct SnapshotCache {
    touched: Vec<Place>,
    cached: Vec<Cached>,
}

impl Drop for SnapshotCache {
    fn drop(self) {
        let SnapshotCache {
            touched: _,
            cached: _,
        } = self;
    }
}

impl SnapshotCache {
    ghost use Rattle.std.specs.{Prelude.{◌≡◌, ◌<◌, length}, List.{slice_index_or}, Option.{IfSome}};
    ghost use Rattle.edit_sums.specs.Sums.{EntryMap, join, IsStoreBelow};
    ghost use Rattle.fleet_answers.specs.{Answers.{IsSnapshotOf}, Tracked.{IsCacheFor, IsCachedFor, ShowTheSameBut}};

    /// An empty cache. Allocates nothing.
    pub(crate) fn new(alloc: Global) -> SnapshotCache
        ensures empty { (s : EntryMap) → IsCacheFor s result }
    {
        SnapshotCache {
            touched: Vec::new(alloc),
            cached: Vec::new(alloc),
        }
    }

    /// Drops all snapshots.
    pub(crate) fn clear(&mut self)
        ensures empty { (s : EntryMap) → IsCacheFor s self.new }
    {
        let alloc = *self.touched.allocator();
        *self = SnapshotCache::new(alloc);
    }

    /// Lists places where what the store shows may change. Drops all snapshots if memory runs out.
    pub(crate) fn note(&mut self, places: &[Place])
        ensures noted { (s t : EntryMap) → ShowTheSameBut places.now s t → IsCacheFor s self.old
            → IsCacheFor t self.new }
    {
        if self.cached.is_empty() || places.len() > MOST_TOUCHED {
            self.clear();
            return;
        }
        match append_copies(&mut self.touched, places) {
            Ok(()) => self.shorten(),
            Err(_) => self.clear(),
        }
    }

    /// Lists the places at which a store that joins another one may change. Drops all snapshots if memory runs out.
    ///
    /// Reads both stores side by side once, unless nothing is cached.
    pub(crate) fn note_news(&mut self, store: &Store, other: &Store)
        ensures noted { (t : EntryMap) → IsStoreBelow store.now t
            → IsStoreBelow t (join store.now other.now) → IsCacheFor store.now self.old
            → IsCacheFor t self.new }
    {
        if self.cached.is_empty() {
            self.clear();
            return;
        }
        match store.news(other) {
            Ok(places) => self.note(&places),
            Err(_) => self.clear(),
        }
    }

    // Drops all snapshots once 2,048 places are listed.
    fn shorten(&mut self)
        ensures kept { (s : EntryMap) → IsCacheFor s self.old → IsCacheFor s self.new }
    {
        if self.touched.len() >= 2 * MOST_TOUCHED {
            self.clear();
        }
    }

    // Where the snapshot for a viewer is.
    fn place_of(&self, viewer: &Viewer) -> Option<usize>
        ensures there { IfSome result (λ at. at < length self.now.cached.items) }
        ensures viewer { IfSome result (λ at. (one : _)
            → (slice_index_or self.now.cached.items at one).snapshot.viewer ≡ viewer.now) }
    {
        for (at, one) in self.cached.iter().enumerate() {
            if is_of(&one.snapshot, viewer) {
                return Some(at);
            }
        }
        None
    }

    // Takes out the snapshot for a viewer.
    fn take(&mut self, viewer: &Viewer) -> Option<Cached>
        ensures viewer { IfSome result (λ one. one.snapshot.viewer ≡ viewer.now) }
        ensures taken { (s : EntryMap) → IsCacheFor s self.old
            → IfSome result (IsCachedFor s self.new.touched.items) }
        ensures kept { (s : EntryMap) → IsCacheFor s self.old → IsCacheFor s self.new }
    {
        let at = self.place_of(viewer)?;
        Some(self.cached.remove(at))
    }

    /// Drops the snapshot for a viewer.
    pub(crate) fn forget(&mut self, viewer: &Viewer)
        ensures kept { (s : EntryMap) → IsCacheFor s self.old → IsCacheFor s self.new }
    {
        let _ = self.take(viewer);
        if self.cached.is_empty() {
            self.clear();
        }
    }

    // Drops the least recently used snapshot if 64 are cached, and the list of places if none is.
    fn make_room(&mut self)
        ensures kept { (s : EntryMap) → IsCacheFor s self.old → IsCacheFor s self.new }
    {
        if self.cached.is_empty() {
            self.clear();
        } else if self.cached.len() >= MOST_SNAPSHOTS {
            self.cached.remove(0);
        }
    }

    // Caches a snapshot of the store as the last one, unless memory runs out.
    fn keep(&mut self, snapshot: Snapshot)
        ensures kept { (s : EntryMap) → IsSnapshotOf s snapshot → IsCacheFor s self.old
            → IsCacheFor s self.new }
    {
        self.make_room();
        let mark = self.touched.len();
        let _ = self.cached.push(Cached { snapshot, mark });
    }
}

impl SnapshotCache {
    ghost use Rattle.std.specs.{Prelude.{◌≡◌, IfOk, IfErr}, Option.{IfSome}};
    ghost use Rattle.edit_sums.specs.Sums.{EntryMap};
    ghost use Rattle.path_maps.specs.HostViews.{host_view_of};
    ghost use Rattle.parallel_load.specs.{AskedLaws.{AreSources}, Refusals.{OnTooMany}, Universe.{IsTooLarge}};
    ghost use Rattle.fleet_answers.specs.Answers.{AreKnown, IsReturned, IsSnapshot, IsSnapshotOf, viewer_asked, names_asked};
    ghost use Rattle.fleet_answers.specs.Tracked.{IsCacheFor, IsCachedFor};

    /// The snapshot of the store for a viewer and these names: the cached one, as it is or refreshed, or else a new load. If
    /// memory runs out, drops all that is cached and tries once more.
    pub(crate) fn found<R: Threads + Sync, G: Gate + Sync>(
        &mut self,
        resources: &LoadResources<R, G>,
        store: &Store,
        viewer: &Viewer,
        names: &[UnitName],
    ) -> Result<Snapshot, LoadFault>
        requires cache { IsCacheFor store.now self.old }
        ensures snapshot { IfOk result (IsSnapshot (host_view_of store.now viewer.now) names.now) }
        ensures over { IfErr result
            (λ fault. OnTooMany fault (IsTooLarge (host_view_of store.now viewer.now) names.now)) }
        ensures cache { IsCacheFor store.now self.new }
    {
        let made = match self.take_for(store, viewer, names) {
            Some(Cached { snapshot, mark }) => {
                renewed(snapshot, store, &self.touched[mark..], names)
            }
            None => loaded_anew(resources, store, viewer, names),
        };
        match made {
            Err(LoadFault::Memory) => {
                self.clear();
                loaded_anew(resources, store, viewer, names)
            }
            made => made,
        }
    }

    // Takes out the snapshot for a viewer, if it serves these names and at most 1,024 places were touched since it was made.
    // Drops it if not.
    fn take_for(&mut self, store: &Store, viewer: &Viewer, names: &[UnitName]) -> Option<Cached>
        requires cache { IsCacheFor store.now self.old }
        ensures viewer { IfSome result (λ one. one.snapshot.viewer ≡ viewer.now) }
        ensures these { IfSome result
            (λ one. AreSources
            (host_view_of store.now one.snapshot.viewer) one.snapshot.extra names.now) }
        ensures those { IfSome result
            (λ one. AreSources
            (host_view_of store.now one.snapshot.viewer) names.now one.snapshot.extra) }
        ensures taken { IfSome result (IsCachedFor store.now self.new.touched.items) }
        ensures cache { IsCacheFor store.now self.new }
    {
        let one = self.take(viewer)?;
        if self.touched.len() - one.mark > MOST_TOUCHED || !serves(store, &one.snapshot, names) {
            return None;
        }
        Some(one)
    }

    /// The answer of a snapshot of the store. Then caches the snapshot.
    pub(crate) fn returned(
        &mut self,
        snapshot: Snapshot,
        question: &Question,
    ) -> Result<Answer, AllocError>
        requires viewer { snapshot.viewer ≡ viewer_asked question.now }
        requires known { AreKnown snapshot (names_asked question.now) }
        ensures returned { IfOk result (IsReturned snapshot question.now) }
        ensures kept { (s : EntryMap) → IsSnapshotOf s snapshot → IsCacheFor s self.old
            → IsCacheFor s self.new }
    {
        let mut snapshot = snapshot;
        let answer = self.answer(&mut snapshot, question)?;
        self.keep(snapshot);
        Ok(answer)
    }

    // The answer of a snapshot. If memory runs out, drops all others and tries once more.
    fn answer(&mut self, snapshot: &mut Snapshot, question: &Question) -> Result<Answer, AllocError>
        requires viewer { snapshot.old.viewer ≡ viewer_asked question.now }
        requires known { AreKnown snapshot.old (names_asked question.now) }
        ensures returned { IfOk result (IsReturned snapshot.old question.now) }
        ensures load { snapshot.new ≡ snapshot.old }
        ensures kept { (s : EntryMap) → IsCacheFor s self.old → IsCacheFor s self.new }
    {
        match snapshot.answer(question) {
            Ok(answer) => Ok(answer),
            Err(_) => {
                self.clear();
                snapshot.answer(question)
            }
        }
    }
}
