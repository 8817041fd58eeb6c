//! Stores.
ghost use Rattle.std.specs.Prelude.{◌≡◌, ◌≢◌, ◌≤◌, ◌↔◌, ◌+◌, ℕ, List, None};
ghost use Rattle.std.specs.Prelude.{IsTrue, IsSome, IsOk, IfOk, OnOk, OnErr, IfErr, filter, is_some, map};
ghost use Rattle.std.specs.{Bool.{OnTrue, OnFalse}, Option.{option_copied}, List.Sorted.{IsStrictlySortedBy}};
ghost use Rattle.std.specs.FinMap as finmap;
ghost use Rattle.list_laws.specs.Members.{IsAmong};
ghost use Rattle.load_places.specs.{Places.{PlaceParts, place_cmp}, declared.places.Scope.TheVariants.{Host}};
ghost use Rattle.edit_sums.specs.{declared.contents.Content.TheVariants.{Gone}, Flat.{at_fleet}};
ghost use Rattle.edit_sums.specs.Sums.{changed_places, high_of, join, sum_of, visible_at, with_edit, IsStoreBelow};
ghost use Rattle.path_maps.specs.{Zipped.{zipped}, Changes.{additions}, Folders.{is_within}, PlaceMaps.{AreScopes, all_held}};
ghost use Rattle.path_maps.specs.{Scopes.{scope_of}, HostLaws.{HoldsNothing, ShowsNothing}, HostViews.{own_of, host_view_of}};

use crate::changes::{count_changes, find_news};
use crate::counts::{Counts, count_entries};
use crate::differences::find_unlike;
use crate::folders::{AddInFolder, FolderMap, OverwriteInFolder};
use crate::held::Held;
use crate::look_ups::host_at;
use crate::places::{Entries, places_in};
use crate::places_zipped::Zipped;
use crate::together::Together;
use crate::view::{HostView, Own};
use edit_sums::{Content, Edit, Entry, FlatEdit};
use join_law::{Change, Join, Overwrite, Rest, Version, Versioned};
use join_maps::{AddAt, AddValue, Addition, ChangeAt, JoinMap};
use load_places::{HostName, Place, Scope, Viewer};
use std::alloc::{AllocError, Global};
use std::marker::Model;

/// The contents of all directories by rank, folder and name.
pub type RankMap = JoinMap<u8, FolderMap>;

/// The contents of the fleet and of each host by scope, rank, folder and name.
pub type ScopeMap = JoinMap<Scope, RankMap>;

/// The entries of a node by place, removals included.
///
/// A removal is an entry that stays, so an old edit cannot bring back what was removed.
#[derive(Debug)]
pub struct Store {
    scopes: ScopeMap,
    // How many places are held.
    len: usize,
    // The greatest counter among the entries.
    high: u64,
}

impl Drop for Store {
    fn drop(self) {
        let Store {
            scopes: _,
            len: _,
            high: _,
        } = self;
    }
}

impl Model for Store {
    ghost use Rattle.std.specs.FinMap as finmap;
    ghost use Rattle.load_places.specs.{Places.{place_cmp}, PlaceLaws.{coded_place}};
    ghost use Rattle.edit_sums.specs.{Entries.{Entry}, EntryCodes.{coded_entry}};
    ghost use Rattle.path_maps.specs.{PlaceMaps.{all_held}, Kept.{IsKept}};

    ghost Value = { finmap.FinMap place_cmp Entry };

    ghost coded = { finmap.code coded_place coded_entry };

    ghost view = { λ s. all_held s.scopes };

    ghost invariant = { λ s. IsKept s.scopes s.len s.high };
}

impl Store {
    /// A store that holds nothing. It takes no memory.
    pub fn new(alloc: Global) -> Store
        ensures empty { result ≡ finmap.empty }
    {
        Store {
            scopes: JoinMap::new(alloc),
            len: 0,
            high: 0,
        }
    }

    /// The sum of some edits: at each place the greatest of the edits there. It seeks four keys for each edit; what stands
    /// behind a new key in its map is moved, so edits that come in place order move nothing.
    pub fn from_edits(alloc: Global, edits: &[Edit]) -> Result<Store, AllocError>
        ensures sum { IfOk result (λ store. store ≡ sum_of edits.now) }
    {
        let mut store = Store::new(alloc);
        for edit in edits {
            store.join_edit(edit.try_clone()?)?;
        }
        Ok(store)
    }

    /// The sum of edits of before there were hosts, each the fleet's: what `from_edits` makes of these. It holds nothing at
    /// any host's place, and shows nothing there: so each host sees of it what is seen without one.
    pub fn from_flat(alloc: Global, edits: &[FlatEdit]) -> Result<Store, AllocError>
        ensures sum { IfOk result (λ store. store ≡ sum_of (map at_fleet edits.now)) }
        ensures held { IfOk result (λ store. (host : List ℕ) → HoldsNothing store (Host host)) }
        ensures shown { IfOk result (λ store. (host : List ℕ) → ShowsNothing store (Host host)) }
    {
        let mut store = Store::new(alloc);
        for edit in edits {
            store.join_edit(edit.at_fleet()?)?;
        }
        Ok(store)
    }

    /// The allocator that the store takes its memory from.
    pub fn allocator(&self) -> Global {
        self.scopes.allocator()
    }

    /// How many places are held, those of removals too. O(1), without memory.
    pub fn len(&self) -> usize
        ensures len { result ≡ finmap.len self.now }
        ensures within { finmap.len self.now ≤ u64.MAX }
    {
        self.len
    }

    /// The greatest counter held, 0 where nothing is. O(1), without memory.
    pub fn high(&self) -> u64
        ensures high { result ≡ high_of self.now }
    {
        self.high
    }

    /// What is held at a place, a removal too. O(log n), without memory.
    pub fn get(&self, place: &Place) -> Option<&Entry>
        ensures held { option_copied result ≡ finmap.get self.now place.now }
    {
        self.held_in(&place.scope).get(&place.path)
    }

    /// The visible content at a place: what is held there, if it is no removal. O(log n), without memory.
    pub fn visible(&self, place: &Place) -> Option<&Content>
        ensures visible { option_copied result ≡ visible_at self.now place.now }
    {
        self.held_in(&place.scope).visible(&place.path)
    }

    /// What a host looks at, or what is looked at without one: the host's own places and the fleet's, and nothing of other
    /// hosts. It doesn't depend on the viewer's profile, which goes with it. Two searches, without memory.
    pub fn host_view<'a>(&'a self, viewer: &'a Viewer) -> HostView<'a>
        ensures view { result ≡ host_view_of self.now viewer.now }
    {
        let own = match &viewer.host {
            Some(host) => Some(self.own_of(host)),
            None => None,
        };
        HostView::new(own, self.held_in(&Scope::Fleet), viewer.profile)
    }

    // What a host has for itself.
    fn own_of<'a>(&'a self, host: &'a HostName) -> Own<'a>
        ensures own { result ≡ own_of self.now host.now }
    {
        let held = Held::of(self.allocator(), host_at(&self.scopes, host));
        Own { host, held }
    }

    // What is held in a scope.
    fn held_in(&self, scope: &Scope) -> Held<'_>
        ensures view { result ≡ scope_of self.now scope.now }
    {
        Held::of(self.allocator(), self.scopes.get(scope))
    }

    /// The maps that the store is: they have its entries and no others. It takes no memory.
    pub fn maps(&self) -> &ScopeMap
        ensures maps { all_held result.now ≡ self.now }
        ensures scopes { AreScopes result.now }
    {
        &self.scopes
    }

    /// All places held, in place order, those of removals too. Fails only if memory runs out. Copies no bytes.
    pub fn list(&self) -> Result<Vec<Place>, AllocError>
        ensures places { IfOk result (λ places. places.items ≡ finmap.keys self.now) }
    {
        self.entries().places(self.allocator())
    }

    /// The places held in a scope in a folder of the directory of a rank, in place order, those of removals too. The
    /// empty folder has the paths of one component. Fails only if memory runs out. Copies no bytes.
    ///
    /// O(log n) and the places given.
    pub fn folder(&self, scope: &Scope, rank: u8, folder: &[u8]) -> Result<Vec<Place>, AllocError>
        ensures places { IfOk result (λ places. places.items
            ≡ filter (is_within scope.now rank folder.now) (finmap.keys self.now)) }
    {
        let entries = self.held_in(scope).entries_in(rank, folder);
        places_in(scope, entries, self.allocator())
    }

    /// All entries with their places, one after another in place order, those of removals too.
    pub fn entries(&self) -> Entries<'_>
        ensures entries { result ≡ finmap.entries self.now }
    {
        Entries::of_scopes(&self.scopes)
    }

    /// All entries with their places in place order, each with what another store holds there. Both are read side by side,
    /// without memory.
    pub fn entries_zipped<'a>(&'a self, other: &'a Store) -> Zipped<'a>
        ensures entries { result ≡ zipped (finmap.get other.now) (finmap.entries self.now) }
        ensures within { finmap.len self.now ≤ u64.MAX }
    {
        Zipped::of_scopes(&self.scopes, &other.scopes)
    }

    /// The places at which something else is visible than in an older store, in place order: where a content was put, made
    /// another or removed since. A content that only has another version is none, nor is a removal where nothing was visible.
    ///
    /// It reads both once: linear in the places that both hold, and in the bytes of contents that stand in both; and once
    /// more, where the older one holds a place that this one doesn't. Fails only if memory runs out, when the list
    /// grows, and copies no bytes.
    pub fn changed(&self, older: &Store) -> Result<Vec<Place>, AllocError>
        ensures ascending { IfOk result (λ places. IsStrictlySortedBy place_cmp places.items) }
        ensures exact { IfOk result (λ places. (p : PlaceParts) →
            IsAmong p places.items ↔ (visible_at self.now p ≢ visible_at older.now p)) }
        ensures without_memory { ((p : PlaceParts) → visible_at self.now p ≡ visible_at older.now p)
            → IsOk result }
    {
        let found = find_unlike(self, older)?;
        if self.has_all_of(older, found.added) {
            return Ok(found.places);
        }
        Together::of(self.entries(), older.entries()).differing(self.allocator())
    }

    /// The places at which joining another store would change what is held, in place order: at which that store holds a
    /// greater entry, or holds one where nothing is held yet.
    ///
    /// It reads both side by side once. Fails only if memory runs out, when the list grows, and copies no bytes.
    pub fn news(&self, other: &Store) -> Result<Vec<Place>, AllocError>
        ensures ascending { IfOk result (λ places. IsStrictlySortedBy place_cmp places.items) }
        ensures exact { IfOk result (λ places. (p : PlaceParts) → IsAmong p places.items
            ↔ (finmap.get (join self.now other.now) p ≢ finmap.get self.now p)) }
        ensures without_memory { join self.now other.now ≡ self.now → IsOk result }
    {
        find_news(self, other)
    }

    // Whether all places of an older store are held too, where so many are held that it doesn't have.
    fn has_all_of(&self, older: &Store, added: usize) -> bool
        requires added { added ≡ additions older.now (finmap.entries self.now) }
        ensures all { IsTrue result → (p : PlaceParts) → finmap.get self.now p ≡ None
            → finmap.get older.now p ≡ None }
    {
        self.len - added == older.len
    }

    /// Whether both hold the same. Linear, without memory.
    pub fn same(&self, other: &Store) -> bool
        ensures same { IsTrue result ↔ (self.now ≡ other.now) }
    {
        self.scopes.same(&other.scopes)
    }

    /// An equal store. Fails only if memory runs out.
    pub fn try_clone(&self) -> Result<Store, AllocError>
        ensures copy { IfOk result (λ copy. copy ≡ self.now) }
    {
        Ok(Store {
            scopes: self.scopes.try_clone()?,
            len: self.len,
            high: self.high,
        })
    }

    /// Joins one edit. A search and at most one shift of entries in each of four maps. Where memory is refused,
    /// nothing has changed; at a place that is held it takes none.
    pub fn join_edit(&mut self, edit: Edit) -> Result<(), AllocError>
        ensures ok { OnOk result (self.new ≡ with_edit self.old edit) }
        ensures err { OnErr result (self.new ≡ self.old) }
        ensures held { IsSome (finmap.get self.old edit.place) → IsOk result }
    {
        if self.is_full_for(&edit.place) {
            return Err(AllocError);
        }
        let (place, version, content) = edit.into_parts();
        let (scope, path) = place.into_parts();
        let (rank, folder, name) = path.into_parts();
        let value = Versioned::At(Entry { version, content });
        let addition = AddAt {
            key: scope,
            addition: AddAt {
                key: rank,
                addition: AddInFolder {
                    addition: AddAt {
                        key: folder,
                        addition: AddAt {
                            key: name,
                            addition: AddValue { value },
                        },
                    },
                },
            },
        };
        let added = addition.join_to(&mut self.scopes)?;
        self.len += usize::from(added);
        self.high = self.high.max(version.counter);
        Ok(())
    }

    /// Joins a removal at a place where a content is visible, and answers whether one was. One search in each of four
    /// maps, without memory.
    pub fn join_removal(&mut self, place: &Place, version: Version) -> bool
        ensures visible { result ≡ is_some (visible_at self.old place.now) }
        ensures removed { OnTrue result (self.new ≡ with_edit self.old (record
            { place = place.now; version = version; content = Gone })) }
        ensures same { OnFalse result (self.new ≡ self.old) }
    {
        let (rank, folder, name) = place.path.parts();
        let content = Content::gone();
        let entry = Entry { version, content };
        let at_name = ChangeAt {
            key: name,
            change: Overwrite { entry },
        };
        let at_folder = ChangeAt {
            key: folder,
            change: at_name,
        };
        let at_rank = ChangeAt {
            key: &rank,
            change: OverwriteInFolder { change: at_folder },
        };
        let removal = ChangeAt {
            key: &place.scope,
            change: at_rank,
        };
        let removed = removal.make(&mut self.scopes);
        if removed {
            self.high = self.high.max(version.counter);
        }
        removed
    }

    /// Joins copies of what another store holds, and answers how many places changed. Both are read side by side; where
    /// there is news, the join then costs what is news and a search for each, or one pass over both, whichever is less.
    /// Copies of entries share their bytes.
    ///
    /// Where memory is refused, the store has part of what the join adds, and calling again with the same gives the rest;
    /// where the other has one entry, the store is as it was.
    pub fn merge(&mut self, other: &Store) -> Result<u64, AllocError>
        ensures ok { OnOk result (self.new ≡ join self.old other.now) }
        ensures changed { IfOk result (λ changed. changed ≡ changed_places self.old self.new) }
        ensures kept { OnErr result (IsStoreBelow self.old self.new) }
        ensures within { OnErr result (IsStoreBelow self.new (join self.old other.now)) }
        ensures again { OnErr result (join self.new other.now ≡ join self.old other.now) }
        ensures single { OnErr result (finmap.len other.now ≡ 1 → self.new ≡ self.old) }
    {
        let changes = count_changes(self, other);
        if changes.changed == 0 {
            return Ok(0);
        }
        let len = sum_of_lens(self.len, changes.added)?;
        match self.scopes.join_copy(&other.scopes) {
            Ok(()) => {
                self.len = len;
                self.high = self.high.max(other.high);
                Ok(changes.changed)
            }
            Err(refused) => {
                let counts = count_entries(&self.scopes);
                self.len = counts.len;
                self.high = counts.high;
                Err(refused)
            }
        }
    }

    /// Joins what another store holds, and answers how many places changed. Both are read side by side; where there is
    /// news, the join then costs a search for each entry of the other, and a map that is empty here is taken over.
    ///
    /// Where memory is refused, the store lies between what it was and the join, and joining the rest that comes back
    /// gives that join; where the other has one entry, the store is as it was.
    pub fn absorb(&mut self, other: Store) -> Result<u64, Rest<Store>>
        ensures ok { OnOk result (self.new ≡ join self.old other) }
        ensures changed { IfOk result (λ changed. changed ≡ changed_places self.old self.new) }
        ensures kept { OnErr result (IsStoreBelow self.old self.new) }
        ensures within { OnErr result (IsStoreBelow self.new (join self.old other)) }
        ensures rest { IfErr result (λ fault. join self.new fault.rest ≡ join self.old other) }
        ensures single { OnErr result (finmap.len other ≡ 1 → self.new ≡ self.old) }
    {
        let changes = count_changes(self, &other);
        if changes.changed == 0 {
            return Ok(0);
        }
        let Ok(len) = sum_of_lens(self.len, changes.added) else {
            return Err(Rest { rest: other });
        };
        let Store {
            scopes,
            len: _,
            high,
        } = other;
        match self.scopes.join_from(scopes) {
            Ok(()) => {
                self.len = len;
                self.high = self.high.max(high);
                Ok(changes.changed)
            }
            Err(Rest { rest }) => {
                let counts = count_entries(&self.scopes);
                self.len = counts.len;
                self.high = counts.high;
                let Counts { len, high } = count_entries(&rest);
                let scopes = rest;
                Err(Rest {
                    rest: Store { scopes, len, high },
                })
            }
        }
    }

    // Whether the place would be one more than can be counted, which counts as out of memory. It is looked for only if the
    // greatest number is held.
    fn is_full_for(&self, place: &Place) -> bool
        ensures full { OnTrue result (finmap.get self.now place.now ≡ None) }
        ensures room { OnFalse result
            (finmap.get self.now place.now ≡ None → finmap.len self.now + 1 ≤ usize.MAX) }
    {
        self.len == usize::MAX && self.get(place).is_none()
    }
}

// How many places are held with this many more. More than the greatest number counts as out of memory.
fn sum_of_lens(len: usize, added: usize) -> Result<usize, AllocError>
    ensures sum { IfOk result (λ sum. sum ≡ len + added) }
    ensures within { IfOk result (λ sum. len + added ≤ usize.MAX) }
{
    len.checked_add(added).ok_or(AllocError)
}
