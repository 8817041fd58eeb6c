//! What a scope holds: look-ups by the parts of a path, and by folder.
ghost use Rattle.std.specs.{Prelude.{◌≡◌, filter}, Option.{option_copied, option_map, IfSome}};
ghost use Rattle.std.specs.FinMap as finmap;
ghost use Rattle.join_law.specs.Maps.{or_empty};
ghost use Rattle.path_maps.specs.{Folders.{is_in, path_at}, Kept.{AreWellFormed}, PathMaps.{flat}, Scopes.{shown_at}};

use crate::entries::{PathEntries, PathEntry};
use crate::look_ups::{folder_at, pair_at};
use crate::stores::RankMap;
use edit_sums::{Content, Entry};
use load_path::Path;
use std::alloc::Global;
use std::marker::Model;

/// The entries of a scope by path, borrowed.
#[derive(Drop)]
pub(crate) struct Held<'a> {
    alloc: Global,
    // What the scope has, if it has anything.
    ranks: Option<&'a RankMap>,
}

impl<'a> Model for Held<'a> {
    ghost use Rattle.std.specs.FinMap as finmap;
    ghost use Rattle.std.specs.Option.{option_copied};
    ghost use Rattle.join_law.specs.Maps.{or_empty};
    ghost use Rattle.load_path.specs.PathLaws.{coded_path};
    ghost use Rattle.edit_sums.specs.EntryCodes.{coded_entry};
    ghost use Rattle.path_maps.specs.{Kept.{AreWellFormed}, PathMaps.{flat}, Scopes.{PathMap}};

    ghost Value = { PathMap };

    ghost coded = { finmap.code coded_path coded_entry };

    ghost view = { λ s. flat (or_empty (option_copied s.ranks)) };

    ghost invariant = { λ s. AreWellFormed (or_empty (option_copied s.ranks)) };
}

impl<'a> Held<'a> {
    // What the scope has, if it has anything.
    pub(crate) fn of(alloc: Global, ranks: Option<&'a RankMap>) -> Self
        requires well_formed { AreWellFormed (or_empty (option_copied ranks)) }
        ensures view { result ≡ flat (or_empty (option_copied ranks.entry)) }
    {
        Held { alloc, ranks }
    }

    /// Returns the allocator of the store.
    pub fn allocator(&self) -> Global {
        self.alloc
    }

    /// Returns the entry at the path of these parts, with the path; it may be a removal. An empty folder means that the
    /// path has no folder. O(log n). Builds no path and allocates nothing.
    pub fn entry_at(&self, rank: u8, folder: &[u8], name: &[u8]) -> Option<PathEntry<'a>>
        ensures path { IfSome result (λ entry. entry.0 ≡ path_at rank folder.now name.now) }
        ensures held { option_map (λ entry. entry.1) result
            ≡ finmap.get self.now (path_at rank folder.now name.now) }
    {
        let (folder, names) = folder_at(self.ranks, rank, folder)?;
        let (name, value) = pair_at(names, name)?;
        let entry = value.entry()?;
        Some(PathEntry::new(rank as usize, folder, name, entry))
    }

    /// Returns the entry at a path; it may be a removal. O(log n). Allocates nothing.
    pub fn get(&self, path: &Path) -> Option<&'a Entry>
        ensures held { option_copied result ≡ finmap.get self.now path.now }
    {
        let entry = self.entry_at(path.rank(), path.folder(), path.name())?;
        Some(entry.entry())
    }

    /// Returns the visible content at a path: what is held there, unless it is a removal. O(log n). Allocates nothing.
    pub fn visible(&self, path: &Path) -> Option<&'a Content>
        ensures visible { option_copied result ≡ shown_at self.now path.now }
    {
        let entry = self.entry_at(path.rank(), path.folder(), path.name())?;
        entry.visible()
    }

    /// Returns a cursor over the entries in a folder of the directory of a rank, in path order, removals included. The
    /// empty folder has the paths of one component. O(log n). Allocates nothing.
    pub fn entries_in(&self, rank: u8, folder: &[u8]) -> PathEntries<'a>
        ensures entries { result ≡ filter (λ p. is_in rank folder.now p.0)
            (finmap.entries self.now) }
    {
        match folder_at(self.ranks, rank, folder) {
            Some((folder, names)) => PathEntries::of_folder(rank, folder, names),
            None => PathEntries::none(),
        }
    }
}
