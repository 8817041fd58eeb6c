//! What another store holds beside the maps that are read: by scope, rank, folder and name.
ghost use Rattle.std.specs.{Prelude.{◌≡◌, List, Option, ℕ}, FinMap.{find}, Option.{option_copied}, Ordering.{nat_cmp}};
ghost use Rattle.std.specs.declared.cmp.Ordering.TheVariants.{Less};
ghost use Rattle.edit_sums.specs.Entries.{Entry};
ghost use Rattle.join_law.specs.{Maps.{or_empty}, VersionOrder.{written_at}};
ghost use Rattle.path_maps.specs.{PathMaps.{bytes_cmp, RankMap}, PlaceMaps.{ranks_of}};

use crate::folders::{FolderMap, NameMap};
use crate::stores::{RankMap, ScopeMap};
use edit_sums::{Content, Entry};
use join_law::{Join, Versioned};
use join_maps::{JoinMap, Pairs};
use load_places::Scope;
use plain_values::Bytes;
use std::marker::Model;

/// Another map, or none, that is asked for what it holds at keys in ascending order.
pub trait OtherMap<K: Ord>: Drop {
    /// What is held at a key.
    type Held;

    // What is held at a key.
    ghost held: { Self → K → Self.Held };

    /// Returns what is held at a key. What is held at greater keys stays the same.
    fn meet(&mut self, key: &K) -> Self::Held
        ensures held { result ≡ held self.old key.now }
        ensures later { (k : K) → K.cmp key.now k ≡ Less → held self.new k ≡ held self.old k };
}

// Nothing is held beside a map that is read alone.
impl<K: Ord> OtherMap<K> for () {
    type Held = ();

    ghost held = { λ _ _. tt };

    #[inline(always)]
    fn meet(&mut self, _key: &K) -> () {}
}

/// The entry that another store holds, if it holds one.
#[derive(Drop)]
pub struct HeldEntry<'a> {
    pub entry: Option<&'a Entry>,
}

impl<'a> Model for HeldEntry<'a> {
    ghost Value = { Option Entry };

    ghost view = { λ h. option_copied h.entry };
}

/// The pairs of another map that are left, sorted by key.
#[derive(Drop)]
pub struct Others<'a, V> {
    left: Pairs<'a, Bytes, V>,
}

impl<'a, V> Model for Others<'a, V> {
    ghost Value = { List (List ℕ × V) };

    ghost view = { λ o. o.left };
}

impl<'a, V: Join> Others<'a, V> {
    // Takes the pairs of a map; none where there is no map.
    fn of(map: Option<&'a JoinMap<Bytes, V>>) -> Self
        ensures pairs { result ≡ or_empty (option_copied map.entry) }
    {
        match map {
            None => Others {
                left: Pairs::none(),
            },
            Some(map) => Others { left: map.pairs() },
        }
    }
}

impl<'a> Others<'a, NameMap> {
    // Takes the folders of a rank; none where there is no rank.
    fn of_rank(folders: Option<&'a FolderMap>) -> Self
        ensures pairs { result ≡ or_empty (option_copied folders.entry) }
    {
        match folders {
            None => Others {
                left: Pairs::none(),
            },
            Some(folders) => Others {
                left: folders.pairs(),
            },
        }
    }
}

impl<'a> OtherMap<Bytes> for Others<'a, Versioned<Content>> {
    type Held = HeldEntry<'a>;

    ghost held = { λ o name. written_at (find bytes_cmp name o) };

    #[inline(always)]
    fn meet(&mut self, key: &Bytes) -> HeldEntry<'a> {
        let entry = match self.left.meet(key) {
            None => None,
            Some(value) => value.entry(),
        };
        HeldEntry { entry }
    }
}

impl<'a> OtherMap<Bytes> for Others<'a, NameMap> {
    type Held = Others<'a, Versioned<Content>>;

    ghost held = { λ o folder. or_empty (find bytes_cmp folder o) };

    #[inline(always)]
    fn meet(&mut self, key: &Bytes) -> Others<'a, Versioned<Content>> {
        Others::of(self.left.meet(key))
    }
}

/// What another store has in a scope, if it has anything there.
#[derive(Drop)]
pub struct OtherRanks<'a> {
    ranks: Option<&'a RankMap>,
}

impl<'a> Model for OtherRanks<'a> {
    ghost Value = { RankMap };

    ghost view = { λ o. or_empty (option_copied o.ranks) };
}

impl<'a> OtherMap<u8> for OtherRanks<'a> {
    type Held = Others<'a, NameMap>;

    ghost held = { λ o rank. or_empty (find nat_cmp rank o) };

    fn meet(&mut self, key: &u8) -> Others<'a, NameMap> {
        let Some(ranks) = self.ranks else {
            return Others::of_rank(None);
        };
        Others::of_rank(ranks.get(key))
    }
}

impl<'a> OtherMap<Scope> for &'a ScopeMap {
    type Held = OtherRanks<'a>;

    ghost held = { λ o scope. ranks_of o.now scope };

    fn meet(&mut self, key: &Scope) -> OtherRanks<'a> {
        OtherRanks {
            ranks: self.get(key),
        }
    }
}
