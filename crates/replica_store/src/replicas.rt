//! Replicas.
ghost use Rattle.std.specs.Prelude.{◌≡◌, ◌↔◌, IfOk, OnOk, OnErr, IfErr, IsErrOf, IsSome, None, MatchOption, ◌≢◌};
ghost use Rattle.std.specs.FinMap as finmap;
ghost use Rattle.edit_sums.specs.declared.contents.Content.TheVariants.{Gone};
ghost use Rattle.edit_sums.specs.Sums.{changed_places, high_of, join, visible_at, IsStoreBelow};
ghost use Rattle.replica_store.specs.Replicas.{next_version, with_put};

use edit_sums::{Content, Edit};
use join_law::{Rest, Version};
use load_places::Place;
use path_maps::Store;
use std::alloc::{AllocError, Global};
use std::marker::Model;
use thiserror::Error;

/// Why an edit was refused. A refused edit leaves the replica unchanged.
#[derive(Clone, Copy, Debug, PartialEq, Eq, Error)]
pub enum EditFault {
    /// E1: the replica already holds the greatest possible counter.
    #[error("E1 VersionsSpent")]
    VersionsSpent,
    /// E2: nothing is visible that could be removed.
    #[error("E2 Nothing")]
    Nothing,
    /// Memory ran out.
    #[error("out of memory")]
    Memory,
}

/// A node's replica: its store, and the number under which it writes.
#[derive(Debug)]
pub struct Replica {
    writer: u32,
    store: Store,
}

impl Drop for Replica {
    fn drop(self) {
        let Replica {
            writer: _,
            store: _,
        } = self;
    }
}

impl Model for Replica {
    ghost use Rattle.replica_store.specs.Replicas.{Replicated, coded_replicated};

    ghost Value = { Replicated };

    ghost coded = { coded_replicated };

    ghost view = { λ r. record { store = r.store; writer = r.writer } };
}

impl Replica {
    /// Makes a replica that holds nothing. Allocates nothing.
    pub fn new(alloc: Global, writer: u32) -> Replica
        ensures empty { result ≡ record { store = finmap.empty; writer = writer } }
    {
        Replica {
            writer,
            store: Store::new(alloc),
        }
    }

    /// Makes a replica that holds this store. Allocates nothing.
    pub fn from_store(writer: u32, store: Store) -> Replica
        ensures given { result ≡ record { store = store; writer = writer } }
    {
        Replica { writer, store }
    }

    /// Borrows its store.
    pub fn store(&self) -> &Store
        ensures store { result.now ≡ self.now.store }
    {
        &self.store
    }

    /// Returns its store, and drops the rest.
    pub fn into_store(self) -> Store
        ensures store { result ≡ self.store }
    {
        let Replica { writer: _, store } = self;
        store
    }

    /// Returns the number under which it writes.
    pub fn writer(&self) -> u32
        ensures writer { result ≡ self.now.writer }
    {
        self.writer
    }

    /// Returns the greatest counter that it holds, or 0 if it holds nothing. O(1). Allocates nothing.
    pub fn high(&self) -> u64
        ensures high { result ≡ high_of self.now.store }
    {
        self.store.high()
    }

    /// Writes a content at a place and returns the version, which is the next one: `high` + 1 and the writer. A removal
    /// is written whether or not anything is visible. Costs a search and at most one shift of entries in each of four
    /// maps.
    ///
    /// Fails with `VersionsSpent` exactly if `high` is the greatest possible counter, and with `Memory` only if memory
    /// runs out, which can't happen at a place that is already held. A refused edit changes nothing.
    pub fn put(&mut self, place: Place, content: Content) -> Result<Version, EditFault>
        ensures version { IfOk result (λ version. version ≡ next_version self.old) }
        ensures joined { OnOk result (self.new ≡ with_put self.old (record
            { place = place; version = next_version self.old; content = content })) }
        ensures spent { IsErrOf result EditFault.VersionsSpent
            ↔ (high_of self.old.store ≡ u64.MAX) }
        ensures always { IsErrOf result EditFault.Nothing → ⊥ }
        ensures held { IsSome (finmap.get self.old.store place) → IsErrOf result EditFault.Memory
            → ⊥ }
        ensures err { OnErr result (self.new ≡ self.old) }
    {
        let Some(version) = self.next_version() else {
            return Err(EditFault::VersionsSpent);
        };
        let edit = Edit {
            place,
            version,
            content,
        };
        match self.store.join_edit(edit) {
            Ok(()) => Ok(version),
            Err(_) => Err(EditFault::Memory),
        }
    }

    /// Removes what is visible at a place and returns the version of the removal, which is the next one. The removal is
    /// an entry that stays.
    ///
    /// Fails with `Nothing` exactly if nothing is visible, and with `VersionsSpent` if something is visible and `high`
    /// is the greatest possible counter. Searches for the place once and allocates nothing, since the place is held. A
    /// refused edit changes nothing.
    pub fn remove(&mut self, place: Place) -> Result<Version, EditFault>
        ensures version { IfOk result (λ version. version ≡ next_version self.old) }
        ensures joined { OnOk result (self.new ≡ with_put self.old (record
            { place = place; version = next_version self.old; content = Gone })) }
        ensures nothing { IsErrOf result EditFault.Nothing
            ↔ (visible_at self.old.store place ≡ None) }
        ensures spent { IsErrOf result EditFault.VersionsSpent
            ↔ (IsSome (visible_at self.old.store place)
            × (high_of self.old.store ≡ u64.MAX)) }
        ensures without_memory { IsErrOf result EditFault.Memory → ⊥ }
        ensures err { OnErr result (self.new ≡ self.old) }
    {
        let Some(version) = self.next_version() else {
            return match self.store.visible(&place) {
                Some(_) => Err(EditFault::VersionsSpent),
                None => Err(EditFault::Nothing),
            };
        };
        if self.store.join_removal(&place, version) {
            Ok(version)
        } else {
            Err(EditFault::Nothing)
        }
    }

    // Returns the version of its next edit: `high` + 1 and the writer. Returns `None` if `high` is the greatest
    // possible counter.
    fn next_version(&self) -> Option<Version>
        ensures next { MatchOption result (high_of self.now.store ≡ u64.MAX)
            (λ version. (version ≡ next_version self.now) × (high_of self.now.store ≢ u64.MAX)) }
    {
        let counter = self.store.high().checked_add(1)?;
        Some(Version {
            counter,
            writer: self.writer,
        })
    }

    /// Joins copies of what a store holds, and returns how many places changed. Reads both side by side to count what
    /// changes; if anything does, the join costs the changed entries and a search for each, or one pass over both,
    /// whichever is less. Copies of entries share their bytes.
    ///
    /// Fails only if memory runs out. The store then lies between what it was and the join, and the same call can be
    /// repeated; if the other store has just one entry, the replica is unchanged.
    pub fn merge(&mut self, other: &Store) -> Result<u64, AllocError>
        ensures ok { OnOk result
            (self.new ≡ record self.old { store = join self.old.store other.now }) }
        ensures changed { IfOk result
            (λ changed. changed ≡ changed_places self.old.store self.new.store) }
        ensures kept { OnErr result (IsStoreBelow self.old.store self.new.store) }
        ensures within { OnErr result
            (IsStoreBelow self.new.store (join self.old.store other.now)) }
        ensures again { OnErr result
            (join self.new.store other.now ≡ join self.old.store other.now) }
        ensures single { OnErr result (finmap.len other.now ≡ 1 → self.new ≡ self.old) }
        ensures writer { self.new.writer ≡ self.old.writer }
    {
        self.store.merge(other)
    }

    /// Joins what a store holds, and returns how many places changed. Reads both side by side to count what changes; if
    /// anything does, the join costs a search for each entry of the other store.
    ///
    /// Fails only if memory runs out. The store then lies between what it was and the join, and joining the returned
    /// rest gives that join; if the other store has just one entry, the replica is unchanged.
    pub fn absorb(&mut self, other: Store) -> Result<u64, Rest<Store>>
        ensures ok { OnOk result
            (self.new ≡ record self.old { store = join self.old.store other }) }
        ensures changed { IfOk result
            (λ changed. changed ≡ changed_places self.old.store self.new.store) }
        ensures kept { OnErr result (IsStoreBelow self.old.store self.new.store) }
        ensures within { OnErr result (IsStoreBelow self.new.store (join self.old.store other)) }
        ensures rest { IfErr result
            (λ fault. join self.new.store fault.rest ≡ join self.old.store other) }
        ensures single { OnErr result (finmap.len other ≡ 1 → self.new ≡ self.old) }
        ensures writer { self.new.writer ≡ self.old.writer }
    {
        self.store.absorb(other)
    }

    /// Returns an equal replica. Fails only if memory runs out.
    pub fn try_clone(&self) -> Result<Replica, AllocError>
        ensures copy { IfOk result (λ copy. copy ≡ self.now) }
    {
        Ok(Replica {
            writer: self.writer,
            store: self.store.try_clone()?,
        })
    }
}
