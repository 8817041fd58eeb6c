//! Cursors over the entries of a scope, in path order: by rank, folder and name.
ghost use Rattle.std.specs.{Prelude.{◌≡◌, ◌∷◌, [], List, IfOk, MatchOption, map}, Option.{option_copied}};
ghost use Rattle.load_path.specs.Paths.{IsPath, path_cmp, PathParts};
ghost use Rattle.path_maps.specs.{Cursors.{or_nothing}, Folders.{path_at}, PathMaps.{in_folder}, Spread.{AllKeys}};
ghost use Rattle.edit_sums.specs.{Entries.{Entry}, Sums.{shown}};

use crate::cursors::next_of;
use crate::folders::NameMap;
use crate::nested::{Names, names_of};
use edit_sums::{Content, Entry};
use load_path::Path;
use plain_values::{Bytes, order};
use std::alloc::{AllocError, Global};
use std::cmp::Ordering;
use std::marker::Model;

/// A borrowed entry with its path.
#[derive(Drop)]
pub struct PathEntry<'a> {
    // Each field is one machine word, so that an entry is passed in registers.
    rank: usize,
    folder: &'a Bytes,
    name: &'a Bytes,
    entry: &'a Entry,
}

impl<'a> Model for PathEntry<'a> {
    ghost Value = { PathParts × Entry };

    ghost view = { λ p. (path_at p.rank p.folder.now p.name.now, p.entry.now) };

    ghost invariant = { λ p. IsPath (path_at p.rank p.folder.now p.name.now) };
}

impl<'a> PathEntry<'a> {
    // Makes an entry at a valid path.
    pub(crate) fn new(rank: usize, folder: &'a Bytes, name: &'a Bytes, entry: &'a Entry) -> Self
        requires path { IsPath (path_at rank folder.now name.now) }
        ensures placed { result ≡ (path_at rank folder.now name.now, entry.now) }
    {
        PathEntry {
            rank,
            folder,
            name,
            entry,
        }
    }

    /// Returns its path. Fails only if memory runs out. Copies no bytes.
    pub fn path(&self) -> Result<Path, AllocError>
        ensures path { IfOk result (λ path. path ≡ self.now.0) }
    {
        let folder = self.folder.try_clone()?;
        let rank = self.rank as u8;
        Ok(Path::from_parts(rank, folder, self.name.try_clone()?))
    }

    // Returns the rank of the directory that its path is in. Allocates nothing.
    pub(crate) fn rank(&self) -> u8
        ensures rank { result ≡ self.now.0.rank }
    {
        self.rank as u8
    }

    // Returns the folder that its path is in; it is empty for a path of one component. Allocates nothing.
    pub(crate) fn folder(&self) -> &'a Bytes
        ensures folder { result.now ≡ self.now.0.folder }
    {
        self.folder
    }

    /// Returns the name in its folder, which is the last component of its path. Allocates nothing.
    pub fn name(&self) -> &'a Bytes
        ensures name { result.now ≡ self.now.0.name }
    {
        self.name
    }

    /// Returns what is visible at its path: the entry's content, unless it is a removal. Allocates nothing.
    pub fn visible(&self) -> Option<&'a Content>
        ensures visible { option_copied result ≡ shown self.now.1 }
    {
        match &self.entry.content {
            Content::Gone => None,
            content => Some(content),
        }
    }

    // Compares a path with the path of this entry.
    pub(crate) fn order_of(&self, path: &Path) -> Ordering
        ensures order { result ≡ path_cmp path.now self.now.0 }
    {
        let within = order(path.folder(), self.folder.as_slice());
        let within = within.then(order(path.name(), self.name.as_slice()));
        (path.rank() as usize).cmp(&self.rank).then(within)
    }

    // Compares its path with the path of another entry.
    pub(crate) fn cmp_path(&self, other: &PathEntry<'_>) -> Ordering
        ensures order { result ≡ path_cmp self.now.0 other.now.0 }
    {
        let within = order(self.folder.as_slice(), other.folder.as_slice());
        let within = within.then(order(self.name.as_slice(), other.name.as_slice()));
        self.rank.cmp(&other.rank).then(within)
    }

    /// Returns the entry. Allocates nothing.
    pub fn entry(&self) -> &'a Entry
        ensures entry { result.now ≡ self.now.1 }
    {
        self.entry
    }
}

/// A cursor over the entries of a folder, in path order.
#[derive(Drop)]
pub struct PathEntries<'a> {
    names: Option<Names<'a, ()>>,
}

impl<'a> Model for PathEntries<'a> {
    ghost Value = { List (PathParts × Entry) };

    ghost view = { λ e. map (λ p. p.0) (or_nothing e.names) };
}

impl<'a> PathEntries<'a> {
    // Returns a cursor over no entries.
    pub(crate) fn none() -> Self
        ensures entries { result ≡ [] }
    {
        PathEntries { names: None }
    }

    // Returns a cursor over the entries of a folder with valid paths.
    pub(crate) fn of_folder(rank: u8, folder: &'a Bytes, names: &'a NameMap) -> Self
        requires paths { AllKeys IsPath (in_folder rank folder.now names.now) }
        ensures entries { result ≡ in_folder rank folder.now names.now }
    {
        let names = names_of(rank as usize, folder, names, ());
        PathEntries { names: Some(names) }
    }

    /// Takes the next entry, if one is left. O(1). Allocates nothing.
    pub fn next_entry(&mut self) -> Option<PathEntry<'a>>
        ensures first { MatchOption result ((self.old ≡ []) × (self.new ≡ []))
            (λ placed. self.old ≡ placed ∷ self.new) }
    {
        let (entry, ()) = next_of(&mut self.names)?;
        Some(entry)
    }
}
