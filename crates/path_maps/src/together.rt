//! A cursor over the places of two stores in place order, each with what both show there.
ghost use Rattle.std.specs.{Prelude.{◌≡◌, ◌∷◌, ◌++◌, [], List, None, IfOk, IsOk, MatchOption}, Option.{option_copied}};
ghost use Rattle.edit_sums.specs.Sums.{shown};
ghost use Rattle.path_maps.specs.Together.{differ, differing, of_both, only_new, only_old, together};
ghost use Rattle.path_maps.specs.Together as specs;

use crate::places::{Entries, Placed};
use edit_sums::Content;
use load_places::Place;
use std::alloc::{AllocError, Global};
use std::cmp::Ordering;
use std::marker::Model;

// A place, and what a store and an older store show there.
#[derive(Drop)]
struct Shown<'a> {
    placed: Placed<'a>,
    newer: Option<&'a Content>,
    older: Option<&'a Content>,
}

impl<'a> Model for Shown<'a> {
    ghost Value = { specs.Shown };

    ghost view = { λ s. (s.placed.0, (option_copied s.newer, option_copied s.older)) };
}

impl<'a> Shown<'a> {
    // For a place that only the new store holds.
    fn of_new(new: Placed<'a>) -> Self
        ensures shown { result ≡ only_new new.entry }
    {
        Shown {
            newer: new.visible(),
            older: None,
            placed: new,
        }
    }

    // For a place that only the old store holds.
    fn of_old(old: Placed<'a>) -> Self
        ensures shown { result ≡ only_old old.entry }
    {
        Shown {
            newer: None,
            older: old.visible(),
            placed: old,
        }
    }

    // For a place that both stores hold.
    fn of_both(new: Placed<'a>, old: &Placed<'a>) -> Self
        ensures shown { result ≡ of_both new.entry old.now }
    {
        Shown {
            newer: new.visible(),
            older: old.visible(),
            placed: new,
        }
    }

    // Returns whether the two stores show different things there. Compares contents, not versions.
    fn differs(&self) -> bool
        ensures differ { result ≡ differ self.now }
    {
        self.newer != self.older
    }
}

/// A cursor over the places of two stores, in place order, each with what both show there.
///
/// Reads each store once. A place costs one comparison.
#[derive(Drop)]
pub(crate) struct Together<'a> {
    // The next entry of each store, and the entries after it. Where there is no next entry, nothing is left.
    newer: Option<Placed<'a>>,
    older: Option<Placed<'a>>,
    newer_left: Entries<'a>,
    older_left: Entries<'a>,
}

impl<'a> Model for Together<'a> {
    ghost Value = { List specs.Shown };

    ghost view = { λ t. specs.together (specs.from_first t.newer t.newer_left)
        (specs.from_first t.older t.older_left) };
}

impl<'a> Together<'a> {
    // Returns a cursor over the places of a store and of an older store.
    pub(crate) fn of(mut newer: Entries<'a>, mut older: Entries<'a>) -> Self
        ensures shown { result ≡ together newer.entry older.entry }
    {
        Together {
            newer: newer.next_entry(),
            older: older.next_entry(),
            newer_left: newer,
            older_left: older,
        }
    }

    // Takes the next place, if one is left. Allocates nothing.
    fn next_shown(&mut self) -> Option<Shown<'a>>
        ensures first { MatchOption result ((self.old ≡ []) × (self.new ≡ []))
            (λ shown. self.old ≡ shown ∷ self.new) }
    {
        match (self.newer.take(), self.older.take()) {
            (None, None) => None,
            (Some(new), None) => {
                self.newer = self.newer_left.next_entry();
                Some(Shown::of_new(new))
            }
            (None, Some(old)) => {
                self.older = self.older_left.next_entry();
                Some(Shown::of_old(old))
            }
            (Some(new), Some(old)) => match new.cmp_place(&old) {
                Ordering::Less => {
                    self.newer = self.newer_left.next_entry();
                    self.older = Some(old);
                    Some(Shown::of_new(new))
                }
                Ordering::Equal => {
                    self.newer = self.newer_left.next_entry();
                    self.older = self.older_left.next_entry();
                    Some(Shown::of_both(new, &old))
                }
                Ordering::Greater => {
                    self.newer = Some(new);
                    self.older = self.older_left.next_entry();
                    Some(Shown::of_old(old))
                }
            },
        }
    }

    // Returns the places where the two stores show different things. Allocates only when the list grows, and fails only
    // if memory runs out. Copies no bytes.
    pub(crate) fn differing(mut self, alloc: Global) -> Result<Vec<Place>, AllocError>
        ensures places { IfOk result (λ places. places.items ≡ differing self.entry) }
        ensures without_memory { differing self.entry ≡ [] → IsOk result }
    {
        let mut places = Vec::new(alloc);
        while let Some(shown) = self.next_shown() {
            if shown.differs() {
                places.push(shown.placed.place()?)?;
            }
        }
        Ok(places)
    }
}
