//! Cursors over the entries of a store in place order: by scope, and within each scope by path.
ghost use Rattle.std.specs.{Prelude.{◌≡◌, ◌∷◌, [], List, map, IfOk, MatchOption}, Option.{option_copied}};
ghost use Rattle.load_places.specs.Places.{place_cmp, PlaceParts};
ghost use Rattle.edit_sums.specs.{Entries.{Entry}, Sums.{shown}};
ghost use Rattle.path_maps.specs.{Cursors.{left_of}, Kept.{HasWellFormedPaths}, PlaceMaps.{all_listed, placed}, Scopes.{within}};

use crate::cursors::Cursor;
use crate::entries::{PathEntries, PathEntry};
use crate::nested::{Places, places_of};
use crate::stores::ScopeMap;
use edit_sums::{Content, Entry};
use load_places::{Place, Scope};
use plain_values::Bytes;
use std::alloc::{AllocError, Global};
use std::cmp::Ordering;
use std::marker::Model;

/// A borrowed entry with its place.
#[derive(Drop)]
pub struct Placed<'a> {
    scope: &'a Scope,
    entry: PathEntry<'a>,
}

impl<'a> Model for Placed<'a> {
    ghost Value = { PlaceParts × Entry };

    ghost view = { λ p. (within p.scope.now p.entry.0, p.entry.1) };
}

impl<'a> Placed<'a> {
    // Makes an entry of a scope.
    pub(crate) fn new(scope: &'a Scope, entry: PathEntry<'a>) -> Self
        ensures placed { result ≡ (within scope.now entry.entry.0, entry.entry.1) }
    {
        Placed { scope, entry }
    }

    /// Returns its place. Fails only if memory runs out. Copies no bytes.
    pub fn place(&self) -> Result<Place, AllocError>
        ensures place { IfOk result (λ place. place ≡ self.now.0) }
    {
        Ok(Place {
            scope: self.scope.try_clone()?,
            path: self.entry.path()?,
        })
    }

    /// Returns the scope that it is for. Allocates nothing.
    pub fn scope(&self) -> &'a Scope
        ensures scope { result.now ≡ self.now.0.scope }
    {
        self.scope
    }

    /// Returns the rank of the directory that its path is in. Allocates nothing.
    pub fn rank(&self) -> u8
        ensures rank { result ≡ self.now.0.path.rank }
    {
        self.entry.rank()
    }

    /// Returns the folder that its path is in; it is empty for a path of one component. Allocates nothing.
    pub fn folder(&self) -> &'a Bytes
        ensures folder { result.now ≡ self.now.0.path.folder }
    {
        self.entry.folder()
    }

    /// Returns the name in its folder, which is the last component of its path. Allocates nothing.
    pub fn name(&self) -> &'a Bytes
        ensures name { result.now ≡ self.now.0.path.name }
    {
        self.entry.name()
    }

    /// Returns what is visible at its place: the entry's content, unless it is a removal. Allocates nothing.
    pub fn visible(&self) -> Option<&'a Content>
        ensures visible { option_copied result ≡ shown self.now.1 }
    {
        self.entry.visible()
    }

    /// Compares a place with the place of this entry. Allocates nothing.
    pub fn order_of(&self, place: &Place) -> Ordering
        ensures order { result ≡ place_cmp place.now self.now.0 }
    {
        place
            .scope
            .cmp(self.scope)
            .then(self.entry.order_of(&place.path))
    }

    // Compares its place with the place of another entry.
    pub(crate) fn cmp_place(&self, other: &Placed<'_>) -> Ordering
        ensures order { result ≡ place_cmp self.now.0 other.now.0 }
    {
        self.scope
            .cmp(other.scope)
            .then(self.entry.cmp_path(&other.entry))
    }

    /// Returns the entry. Allocates nothing.
    pub fn entry(&self) -> &'a Entry
        ensures entry { result.now ≡ self.now.1 }
    {
        self.entry.entry()
    }
}

/// A cursor over the entries of a store, in place order.
#[derive(Drop)]
pub struct Entries<'a> {
    entries: Places<'a, (), (), (), ()>,
}

impl<'a> Model for Entries<'a> {
    ghost Value = { List (PlaceParts × Entry) };

    ghost view = { λ e. map (λ p. p.0) (left_of e.entries.inner e.entries.outer) };
}

impl<'a> Entries<'a> {
    // Returns a cursor over the entries of maps by scope with valid paths.
    pub(crate) fn of_scopes(scopes: &'a ScopeMap) -> Self
        requires paths { HasWellFormedPaths scopes.now }
        ensures entries { result ≡ all_listed scopes.now }
    {
        Entries {
            entries: places_of(scopes, ()),
        }
    }

    /// Takes the next entry, if one is left. O(1). Allocates nothing.
    pub fn next_entry(&mut self) -> Option<Placed<'a>>
        ensures first { MatchOption result ((self.old ≡ []) × (self.new ≡ []))
            (λ placed. self.old ≡ placed ∷ self.new) }
    {
        let (placed, ()) = self.entries.next()?;
        Some(placed)
    }

    /// Returns the places of all entries that are left. Fails only if memory runs out. Copies no bytes.
    pub fn places(mut self, alloc: Global) -> Result<Vec<Place>, AllocError>
        ensures places { IfOk result (λ places. places.items ≡ map (λ p. p.0) self.entry) }
    {
        let mut places = Vec::new(alloc);
        while let Some(placed) = self.next_entry() {
            places.push(placed.place()?)?;
        }
        Ok(places)
    }
}

/// Returns the places of the entries of a folder, in a scope. Fails only if memory runs out. Copies no bytes.
pub(crate) fn places_in(
    scope: &Scope,
    mut entries: PathEntries<'_>,
    alloc: Global,
) -> Result<Vec<Place>, AllocError>
    ensures places { IfOk result
        (λ places. places.items ≡ map (λ p. p.0) (placed scope.now entries.entry)) }
{
    let mut places = Vec::new(alloc);
    while let Some(entry) = entries.next_entry() {
        places.push(Placed::new(scope, entry).place()?)?;
    }
    Ok(places)
}
