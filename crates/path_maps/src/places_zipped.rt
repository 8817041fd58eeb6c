//! Cursors over the entries of a store in place order, each with what another store holds at its place.
ghost use Rattle.std.specs.{Prelude.{◌≡◌, ◌∷◌, [], List, MatchOption}, Option.{option_copied}};
ghost use Rattle.load_places.specs.Places.{PlaceParts};
ghost use Rattle.path_maps.specs.{Cursors.{left_of}, Kept.{HasWellFormedPaths}, PlaceMaps.{all_listed, look_up_place}, Zipped.{Compared, zipped}};

use crate::cursors::Cursor;
use crate::folders::NameMap;
use crate::nested::{Places, places_of};
use crate::others::{OtherRanks, Others};
use crate::places::Placed;
use crate::stores::ScopeMap;
use edit_sums::{Content, Entry};
use join_law::Versioned;
use std::marker::Model;

/// A cursor over the entries of a store in place order, each with what another store holds at its place.
///
/// Reads both stores side by side. An entry costs one or two comparisons if the other store holds about the same
/// places, and a search if it holds many more in between. A scope costs a search.
#[derive(Drop)]
pub struct Zipped<'a> {
    entries: Places<
        'a,
        Others<'a, Versioned<Content>>,
        Others<'a, NameMap>,
        OtherRanks<'a>,
        &'a ScopeMap,
    >,
}

impl<'a> Model for Zipped<'a> {
    ghost Value = { List (Compared PlaceParts) };

    ghost view = { λ b. left_of b.entries.inner b.entries.outer };
}

impl<'a> Zipped<'a> {
    // Returns a cursor over the entries of maps by scope with valid paths, side by side with `others`.
    pub(crate) fn of_scopes(scopes: &'a ScopeMap, others: &'a ScopeMap) -> Self
        requires paths { HasWellFormedPaths scopes.now }
        ensures entries { result ≡ zipped (look_up_place others.now) (all_listed scopes.now) }
    {
        Zipped {
            entries: places_of(scopes, others),
        }
    }

    /// Takes the next entry, if one is left, and what the other store holds there. Allocates nothing.
    #[inline(always)]
    pub fn next_entry(&mut self) -> Option<(Placed<'a>, Option<&'a Entry>)>
        ensures first { MatchOption result ((self.old ≡ []) × (self.new ≡ []))
            (λ both. self.old ≡ (both.0, option_copied both.1) ∷ self.new) }
    {
        let (placed, held) = self.entries.next()?;
        Some((placed, held.entry))
    }
}
