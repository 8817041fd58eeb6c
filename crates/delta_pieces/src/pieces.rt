//! Pieces.
ghost use Rattle.std.specs.Prelude.{◌≡◌, ◌↔◌, [], length, map, take, drop, IsTrue, IfOk, IfErr};
ghost use Rattle.std.specs.FinMap as finmap;
ghost use Rattle.edit_sums.specs.{Flat.{at_fleet}, Sums.{join, sum_of}};
ghost use Rattle.world_law.specs.Cuts.{only_at};

use crate::copies::gather;
use crate::digests::Digest;
use crate::newer::newer_at;
use edit_sums::{Edit, FlatEdit};
use join_law::Rest;
use load_places::Place;
use replica_store::Store;
use std::alloc::{AllocError, Global};
use std::marker::Model;

/// Entries by place, removals included, that are sent to a replica and taken by it.
#[derive(Debug)]
pub struct Piece {
    store: Store,
}

impl Drop for Piece {
    fn drop(self) {
        let Piece { store: _ } = self;
    }
}

impl Model for Piece {
    ghost use Rattle.std.specs.FinMap as finmap;
    ghost use Rattle.load_places.specs.PlaceLaws.{coded_place};
    ghost use Rattle.edit_sums.specs.{EntryCodes.{coded_entry}, Sums.{EntryMap}};

    ghost Value = { EntryMap };

    ghost coded = { finmap.code coded_place coded_entry };

    ghost view = { λ p. p.store };
}

impl Piece {
    /// Returns the sum of some edits as a piece. O(n log n). Fails only if memory runs out.
    pub fn from_edits(alloc: Global, edits: &[Edit]) -> Result<Piece, AllocError>
        ensures sum { IfOk result (λ piece. piece ≡ sum_of edits.now) }
    {
        Ok(Piece {
            store: Store::from_edits(alloc, edits)?,
        })
    }

    /// Returns the sum of edits without hosts as a piece; each is an edit for the whole fleet. O(n log n). Fails only
    /// if memory runs out.
    pub fn from_flat(alloc: Global, edits: &[FlatEdit]) -> Result<Piece, AllocError>
        ensures sum { IfOk result (λ piece. piece ≡ sum_of (map at_fleet edits.now)) }
    {
        Ok(Piece {
            store: Store::from_flat(alloc, edits)?,
        })
    }

    /// Makes a piece of this store. Allocates nothing.
    pub fn from_store(store: Store) -> Piece
        ensures store { result ≡ store }
    {
        Piece { store }
    }

    /// Returns the piece's entries as a store. Allocates nothing.
    pub fn into_store(self) -> Store
        ensures store { result ≡ self }
    {
        let Piece { store } = self;
        store
    }

    /// Borrows the piece's entries as a store.
    pub fn store(&self) -> &Store
        ensures store { result.now ≡ self.now }
    {
        &self.store
    }

    /// Returns the number of places. O(1). Allocates nothing.
    pub fn len(&self) -> usize
        ensures len { result ≡ length (finmap.entries self.now) }
    {
        self.store.len()
    }

    /// Returns whether the piece is empty. O(1). Allocates nothing.
    pub fn is_empty(&self) -> bool
        ensures empty { IsTrue result ↔ (finmap.entries self.now ≡ []) }
    {
        self.len() == 0
    }

    /// Returns a copy of the piece's entries at these places. Duplicates and order don't matter. Each place costs a
    /// search, and at most one shift of what was found so far; if the places are in ascending order, nothing is
    /// shifted. Fails only if memory runs out.
    pub fn only(&self, places: &[Place]) -> Result<Piece, AllocError>
        ensures only { IfOk result (λ piece. piece ≡ only_at places.now self.now) }
    {
        let alloc = self.store.allocator();
        let nothing = Digest::new(alloc);
        let store = newer_at(alloc, &self.store, &nothing, places)?;
        Ok(Piece { store })
    }

    /// Splits the piece into its first `at` entries, sorted by place, and the others. The second part is empty if the
    /// piece has no more than `at` entries. Costs a search for each entry; the parts share the bytes of the entries.
    ///
    /// If memory runs out, the error returns the piece.
    pub fn split(self, at: usize) -> Result<(Piece, Piece), Rest<Piece>>
        ensures first { IfOk result
            (λ parts. finmap.entries parts.0 ≡ take at (finmap.entries self)) }
        ensures second { IfOk result
            (λ parts. finmap.entries parts.1 ≡ drop at (finmap.entries self)) }
        ensures joined { IfOk result (λ parts. join parts.0 parts.1 ≡ self) }
        ensures rest { IfErr result (λ fault. fault.rest ≡ self) }
    {
        match parts_of(&self.store, at) {
            Ok((prefix, back)) => Ok((Piece::from_store(prefix), Piece::from_store(back))),
            Err(_) => Err(Rest { rest: self }),
        }
    }

    /// Returns an equal piece. Linear. Fails only if memory runs out.
    pub fn try_clone(&self) -> Result<Piece, AllocError>
        ensures copy { IfOk result (λ copy. copy ≡ self.now) }
    {
        Ok(Piece {
            store: self.store.try_clone()?,
        })
    }
}

// Returns copies of the first `at` entries, and of the others.
fn parts_of(store: &Store, at: usize) -> Result<(Store, Store), AllocError>
    ensures first { IfOk result
        (λ parts. finmap.entries parts.0 ≡ take at (finmap.entries store.now)) }
    ensures second { IfOk result
        (λ parts. finmap.entries parts.1 ≡ drop at (finmap.entries store.now)) }
{
    let mut entries = store.entries();
    let prefix = gather(store.allocator(), &mut entries, at)?;
    let back = gather(store.allocator(), &mut entries, store.len())?;
    Ok((prefix, back))
}
