//! What a host sees of a store, or what is seen without a host: look-ups by level, folder and name, and by place.
ghost use Rattle.std.specs.{Prelude.{◌≡◌, ◌∷◌, [], filter, IfOk, MatchOption}, Option.{option_and_then, option_copied, option_map, IfSome}};
ghost use Rattle.std.specs.FinMap as finmap;
ghost use Rattle.edit_sums.specs.Sums.{shown};
ghost use Rattle.path_maps.specs.{Folders.{is_in, path_at}, Sights.{after_entries, holding}};
ghost use Rattle.path_maps.specs.HostViews.{content_at, held_by, held_by_own, scope_at, view, viewed_place};

use crate::entries::{PathEntries, PathEntry};
use crate::held::Held;
use edit_sums::{Content, Entry};
use load_places::{HostName, Place, Scope};
use plain_values::Bytes;
use profiles::Profile;
use std::alloc::{AllocError, Global};
use std::marker::Model;

/// A borrowed entry with the path at which it is seen. In contracts the path has the level in place of its rank.
#[derive(Drop)]
pub struct HostViewEntry<'a> {
    level: u8,
    entry: PathEntry<'a>,
}

impl<'a> Model for HostViewEntry<'a> {
    ghost use Rattle.std.specs.Prelude.{◌≡◌, ◌/◌};
    ghost use Rattle.load_path.specs.Paths.{PathParts};
    ghost use Rattle.edit_sums.specs.Entries.{Entry};
    ghost use Rattle.path_maps.specs.HostViews.{at_level};

    ghost Value = { PathParts × Entry };

    ghost view = { λ e. at_level e.level e.entry };

    ghost invariant = { λ e. e.entry.0.rank ≡ e.level / 2 };
}

impl<'a> HostViewEntry<'a> {
    /// Returns the name in its folder, which is the last component of its path. Allocates nothing.
    pub fn name(&self) -> &'a Bytes
        ensures name { result.now ≡ self.now.0.name }
    {
        self.entry.name()
    }

    /// Returns what is visible there: the entry's content, unless it is a removal. Allocates nothing.
    pub fn visible(&self) -> Option<&'a Content>
        ensures visible { option_copied result ≡ shown self.now.1 }
    {
        self.entry.visible()
    }

    /// Returns the entry. Allocates nothing.
    pub fn entry(&self) -> &'a Entry
        ensures entry { result.now ≡ self.now.1 }
    {
        self.entry.entry()
    }
}

/// A cursor over the entries of a folder, in path order.
#[derive(Drop)]
pub struct HostViewEntries<'a> {
    level: u8,
    entries: PathEntries<'a>,
}

impl<'a> Model for HostViewEntries<'a> {
    ghost use Rattle.std.specs.Prelude.{List, map, ◌≡◌, ◌/◌};
    ghost use Rattle.load_path.specs.Paths.{PathParts};
    ghost use Rattle.edit_sums.specs.Entries.{Entry};
    ghost use Rattle.path_maps.specs.{Spread.{AllKeys}, HostViews.{at_level}};

    ghost Value = { List (PathParts × Entry) };

    ghost view = { λ e. map (at_level e.level) e.entries };

    ghost invariant = { λ e. AllKeys (λ p. p.rank ≡ e.level / 2) e.entries };
}

impl<'a> HostViewEntries<'a> {
    /// Takes the next entry, if one is left. O(1). Allocates nothing.
    pub fn next_entry(&mut self) -> Option<HostViewEntry<'a>>
        ensures first { MatchOption result ((self.old ≡ []) × (self.new ≡ []))
            (λ placed. self.old ≡ placed ∷ self.new) }
    {
        let entry = self.entries.next_entry()?;
        let level = self.level;
        Some(HostViewEntry { level, entry })
    }
}

/// A host's name and what the host has for itself, both borrowed.
#[derive(Drop)]
pub(crate) struct Own<'a> {
    pub host: &'a HostName,
    pub held: Held<'a>,
}

impl<'a> Model for Own<'a> {
    ghost use Rattle.path_maps.specs.HostViews.{Own as OwnParts, coded_own};

    ghost Value = { OwnParts };

    ghost coded = { coded_own };

    ghost view = { λ o. record { host = o.host.now; held = o.held } };
}

impl<'a> Own<'a> {
    // Returns what the host has, if this is its name.
    fn held_by(&self, host: &HostName) -> Option<&Held<'a>>
        ensures held { option_copied result ≡ held_by_own self.now host.now }
    {
        if host.bytes() == self.host.bytes() {
            Some(&self.held)
        } else {
            None
        }
    }
}

/// What a host sees of a store, or what is seen without a host, borrowed; and by which rules units are loaded from it. Units
/// are read from this alone.
///
/// A level below `LEVELS` belongs to the host's own directory of a rank if it is twice the rank, and to the fleet's if it
/// is twice the rank plus one.
#[derive(Drop)]
pub struct HostView<'a> {
    own: Option<Own<'a>>,
    fleet: Held<'a>,
    profile: Profile,
}

impl<'a> Model for HostView<'a> {
    ghost use Rattle.path_maps.specs.HostViews.{HostViewMap, coded_host_view};

    ghost Value = { HostViewMap };

    ghost coded = { coded_host_view };

    ghost view = { λ s. record { own = s.own; fleet = s.fleet; profile = s.profile } };
}

impl<'a> HostView<'a> {
    // Makes the view from what a host has for itself, if there is a host, and what the fleet has.
    pub(crate) fn new(own: Option<Own<'a>>, fleet: Held<'a>, profile: Profile) -> Self
        ensures view { result ≡ record { own = own.entry; fleet = fleet.entry; profile = profile } }
    {
        HostView {
            own,
            fleet,
            profile,
        }
    }

    /// Returns by which rules units are loaded from it. Allocates nothing.
    pub fn profile(&self) -> Profile
        ensures profile { result ≡ self.now.profile }
    {
        self.profile
    }

    /// Returns the allocator of the store.
    pub fn allocator(&self) -> Global {
        self.fleet.allocator()
    }

    /// Returns the entry at the path of these parts, with the path; it may be a removal. An empty folder means that the
    /// path has no folder. O(log n). Builds no path and allocates nothing.
    pub fn entry_at(&self, level: u8, folder: &[u8], name: &[u8]) -> Option<HostViewEntry<'a>>
        ensures path { IfSome result (λ entry. entry.0 ≡ path_at level folder.now name.now) }
        ensures held { option_map (λ entry. entry.1) result
            ≡ finmap.get (view self.now) (path_at level folder.now name.now) }
    {
        let held = self.holding(level)?;
        let entry = held.entry_at(level / 2, folder, name)?;
        Some(HostViewEntry { level, entry })
    }

    /// Returns a cursor over the entries in a folder of the directory of a level, in path order, removals included. The
    /// empty folder has the paths of one component. O(log n). Allocates nothing.
    pub fn entries_in(&self, level: u8, folder: &[u8]) -> HostViewEntries<'a>
        ensures entries { result ≡ filter (λ p. is_in level folder.now p.0)
            (finmap.entries (view self.now)) }
    {
        let entries = self.entries_after(level, folder);
        HostViewEntries { level, entries }
    }

    /// Returns the visible content at a place that is seen, and `None` at any other place. O(log n). Allocates nothing.
    pub fn visible(&self, place: &Place) -> Option<&'a Content>
        ensures visible { option_copied result ≡ content_at self.now place.now }
    {
        self.held_by(&place.scope)?.visible(&place.path)
    }

    /// Returns the place of an entry that is seen. Fails only if memory runs out. Copies no bytes.
    pub fn place(&self, view: &HostViewEntry) -> Result<Place, AllocError>
        ensures place { IfOk result (λ place. place ≡ viewed_place self.now view.now.0) }
    {
        Ok(Place {
            scope: self.scope_at(view.level)?,
            path: view.entry.path()?,
        })
    }

    // Returns the scope whose directories have this level. Fails only if memory runs out. Copies no bytes.
    fn scope_at(&self, level: u8) -> Result<Scope, AllocError>
        ensures scope { IfOk result (λ scope. scope ≡ scope_at self.now level) }
    {
        if level % 2 != 0 {
            return Ok(Scope::Fleet);
        }
        match &self.own {
            Some(own) => Ok(Scope::Host(own.host.try_clone()?)),
            None => Ok(Scope::Fleet),
        }
    }

    // Returns what is seen in the directories of a level.
    fn holding(&self, level: u8) -> Option<&Held<'a>>
        ensures held { option_copied result ≡ holding self.now level }
    {
        if level % 2 != 0 {
            return Some(&self.fleet);
        }
        match &self.own {
            Some(own) => Some(&own.held),
            None => None,
        }
    }

    // Returns a cursor over the entries of a folder of a level, with their paths in their scope.
    fn entries_after(&self, level: u8, folder: &[u8]) -> PathEntries<'a>
        ensures entries { result ≡ after_entries level folder.now (holding self.now level) }
    {
        match self.holding(level) {
            Some(held) => held.entries_in(level / 2, folder),
            None => PathEntries::none(),
        }
    }

    // Returns what is seen of a scope.
    fn held_by(&self, scope: &Scope) -> Option<&Held<'a>>
        ensures held { option_copied result ≡ held_by self.now scope.now }
    {
        match scope {
            Scope::Fleet => Some(&self.fleet),
            Scope::Host(host) => self.own.as_ref()?.held_by(host),
        }
    }
}
