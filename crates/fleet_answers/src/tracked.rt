//! Replicas whose takes are tracked, so that a question reads again only what was touched since the one before.
ghost use Rattle.std.specs.Prelude.{◌≡◌, ◌≢◌, ◌↔◌, ◌⊎◌, ◌<◌, [], Err, IfOk, IfErr, IsErrOf, IsSome, None, OnErr, OnOk};
ghost use Rattle.std.specs.FinMap as finmap;
ghost use Rattle.edit_sums.specs.declared.contents.Content.TheVariants.{Gone};
ghost use Rattle.edit_sums.specs.Sums.{changed_places, high_of, join, visible_at, IsStoreBelow};
ghost use Rattle.replica_store.specs.Replicas.{next_version, with_put};
ghost use Rattle.fleet_answers.specs.Answers.{IsAnswer};
ghost use Rattle.fleet_answers.specs.declared.questions.AnswerFault.TheVariants.{Workers};

use crate::caches::SnapshotCache;
use crate::names::whole_names;
use crate::questions::{Answer, AnswerFault, Question};
use crate::renewing::LoadResources;
use parallel_load::{Gate, LoadFault, is_worker_count};
use replica_store::{Content, EditFault, Place, Replica, Rest, Store, Version, Viewer};
use std::alloc::{AllocError, Global};
use std::marker::Model;
use std::slice::from_ref;
use std::thread::Threads;

/// A replica with cached snapshots of its store, for each viewer the one of the last question, and the places that its takes
/// touched since. No answer depends on what is cached. Contracts see the replica.
pub struct TrackedReplica {
    replica: Replica,
    cache: SnapshotCache,
}

impl Drop for TrackedReplica {
    fn drop(self) {
        let TrackedReplica {
            replica: _,
            cache: _,
        } = self;
    }
}

impl Model for TrackedReplica {
    ghost use Rattle.replica_store.specs.Replicas.{Replicated, coded_replicated};
    ghost use Rattle.fleet_answers.specs.Tracked.{IsCacheFor};

    ghost Value = { Replicated };

    ghost coded = { coded_replicated };

    ghost view = { λ t. t.replica };

    ghost invariant = { λ t. IsCacheFor t.replica.store t.cache };
}

impl TrackedReplica {
    /// Tracks a replica. Nothing is cached of it yet. Allocates nothing.
    pub fn new(replica: Replica) -> TrackedReplica
        ensures given { result ≡ replica }
    {
        let cache = SnapshotCache::new(replica.store().allocator());
        TrackedReplica { replica, cache }
    }

    /// Borrows the replica.
    pub fn replica(&self) -> &Replica
        ensures replica { result.now ≡ self.now }
    {
        &self.replica
    }

    /// Borrows the replica's store.
    pub fn store(&self) -> &Store
        ensures store { result.now ≡ self.now.store }
    {
        self.replica.store()
    }

    /// Writes a content at a place, as `Replica::put`. Lists the place if something is cached.
    pub fn put(&mut self, place: Place, content: Content) -> Result<Version, EditFault>
        ensures version { IfOk result (λ version. version ≡ next_version self.old) }
        ensures joined { OnOk result (self.new ≡ with_put self.old (record
            { place = place; version = next_version self.old; content = content })) }
        ensures spent { IsErrOf result EditFault.VersionsSpent
            ↔ (high_of self.old.store ≡ u64.MAX) }
        ensures always { IsErrOf result EditFault.Nothing → ⊥ }
        ensures held { IsSome (finmap.get self.old.store place) → IsErrOf result EditFault.Memory
            → ⊥ }
        ensures err { OnErr result (self.new ≡ self.old) }
    {
        self.cache.note(from_ref(&place));
        self.replica.put(place, content)
    }

    /// Removes what is visible at a place, as `Replica::remove`. Lists the place if something is cached.
    pub fn remove(&mut self, place: Place) -> Result<Version, EditFault>
        ensures version { IfOk result (λ version. version ≡ next_version self.old) }
        ensures joined { OnOk result (self.new ≡ with_put self.old (record
            { place = place; version = next_version self.old; content = Gone })) }
        ensures nothing { IsErrOf result EditFault.Nothing
            ↔ (visible_at self.old.store place ≡ None) }
        ensures spent { IsErrOf result EditFault.VersionsSpent
            ↔ (IsSome (visible_at self.old.store place)
            × (high_of self.old.store ≡ u64.MAX)) }
        ensures without_memory { IsErrOf result EditFault.Memory → ⊥ }
        ensures err { OnErr result (self.new ≡ self.old) }
    {
        self.cache.note(from_ref(&place));
        self.replica.remove(place)
    }

    /// Joins copies of what a store holds, as `Replica::merge`. Lists the places with news if something is cached, which
    /// reads both stores side by side once more.
    pub fn merge(&mut self, other: &Store) -> Result<u64, AllocError>
        ensures ok { OnOk result
            (self.new ≡ record self.old { store = join self.old.store other.now }) }
        ensures changed { IfOk result
            (λ changed. changed ≡ changed_places self.old.store self.new.store) }
        ensures kept { OnErr result (IsStoreBelow self.old.store self.new.store) }
        ensures within { OnErr result
            (IsStoreBelow self.new.store (join self.old.store other.now)) }
        ensures again { OnErr result
            (join self.new.store other.now ≡ join self.old.store other.now) }
        ensures single { OnErr result (finmap.len other.now ≡ 1 → self.new ≡ self.old) }
        ensures writer { self.new.writer ≡ self.old.writer }
    {
        self.cache.note_news(self.replica.store(), other);
        self.replica.merge(other)
    }

    /// Joins what a store holds, as `Replica::absorb`. Lists the places with news if something is cached, which reads both
    /// stores side by side once more.
    pub fn absorb(&mut self, other: Store) -> Result<u64, Rest<Store>>
        ensures ok { OnOk result
            (self.new ≡ record self.old { store = join self.old.store other }) }
        ensures changed { IfOk result
            (λ changed. changed ≡ changed_places self.old.store self.new.store) }
        ensures kept { OnErr result (IsStoreBelow self.old.store self.new.store) }
        ensures within { OnErr result (IsStoreBelow self.new.store (join self.old.store other)) }
        ensures rest { IfErr result
            (λ fault. join self.new.store fault.rest ≡ join self.old.store other) }
        ensures single { OnErr result (finmap.len other ≡ 1 → self.new ≡ self.old) }
        ensures writer { self.new.writer ≡ self.old.writer }
    {
        self.cache.note_news(self.replica.store(), &other);
        self.replica.absorb(other)
    }

    /// Drops the snapshot that is cached for a viewer.
    pub fn drop_snapshot(&mut self, viewer: &Viewer)
        ensures same { self.new ≡ self.old }
    {
        self.cache.forget(viewer);
    }

    /// The answer that `answer_question` gives for the replica's store. What was loaded for the last question of the same
    /// viewer is refreshed, so that only what was touched since is read again, and cached for the next one. What can't be
    /// cached because memory runs out is dropped.
    pub fn answer<R: Threads + Sync, G: Gate + Sync>(
        &mut self,
        rt: &R,
        alloc: Global,
        question: &Question,
        workers: usize,
        gate: &G,
    ) -> Result<Answer, AnswerFault>
        ensures workers { (result ≡ Err Workers) ↔ ((workers ≡ 0) ⊎ (64 < workers)) }
        ensures answer { IfOk result (IsAnswer self.old.store [] question.now) }
        ensures same { self.new ≡ self.old }
    {
        if !is_worker_count(workers) {
            return Err(AnswerFault::Workers);
        }
        let Ok(names) = whole_names(alloc, &[], question) else {
            return Err(AnswerFault::Memory);
        };
        let Some(names) = names else {
            return Ok(Answer::Template);
        };
        let resources = LoadResources {
            rt,
            alloc,
            workers,
            gate,
        };
        let store = self.replica.store();
        match self
            .cache
            .found(&resources, store, question.viewer(), &names)
        {
            Ok(snapshot) => self
                .cache
                .returned(snapshot, question)
                .map_err(|_| AnswerFault::Memory),
            Err(LoadFault::TooManyUnits) => Ok(Answer::TooManyUnits),
            Err(_) => Err(AnswerFault::Memory),
        }
    }
}
