//! Maps by folder and name, as a type of their own: what is proved of the maps around them need not look into them.
ghost use Rattle.std.specs.Prelude.{◌≡◌};
ghost use Rattle.path_maps.specs.PathMaps.{AreFolders};

use edit_sums::Content;
use join_law::{Change, Join, Overwrite, Rest, Versioned};
use join_maps::{AddAt, AddValue, Addition, ChangeAt, JoinMap, Pairs};
use plain_values::Bytes;
use std::alloc::{AllocError, Global};
use std::fmt;
use std::fmt::{Debug, Formatter};
use std::marker::Model;

/// The contents of one folder by name.
pub type NameMap = JoinMap<Bytes, Versioned<Content>>;

/// The contents of one directory by folder and name; the empty folder has the paths of one component.
pub struct FolderMap {
    folders: JoinMap<Bytes, NameMap>,
}

impl Drop for FolderMap {
    fn drop(self) {
        let FolderMap { folders: _ } = self;
    }
}

impl Model for FolderMap {
    ghost use Rattle.std.specs.Prelude.{List, ℕ};
    ghost use Rattle.path_maps.specs.PathMaps.{NameMap as Names};

    ghost Value = { List (List ℕ × Names) };

    ghost view = { λ m. m.folders };
}

impl Debug for FolderMap {
    fn fmt<W: fmt::Write>(&self, f: &mut Formatter<W>) -> fmt::Result {
        Debug::fmt(&self.folders, f)
    }
}

impl FolderMap {
    // The map by folder and name.
    pub(crate) fn map(&self) -> &JoinMap<Bytes, NameMap>
        ensures map { result.now ≡ self.now }
    {
        &self.folders
    }

    /// The folders with their names, in order. Allocates nothing.
    #[inline(always)]
    pub fn pairs(&self) -> Pairs<'_, Bytes, NameMap>
        ensures pairs { result ≡ self.now }
        ensures map { AreFolders self.now }
    {
        self.folders.pairs()
    }
}

impl Join for FolderMap {
    ghost use Rattle.join_law.specs.Maps.{IsSinglePair};
    ghost use Rattle.path_maps.specs.PathMaps.{AreFolders, FoldersBelow};
    ghost use Rattle.path_maps.specs.PathMapLaws.{folders_chain, folders_itself, folders_joins, folders_keep, folders_one, folders_union};

    ghost below = { FoldersBelow };

    ghost join = { folders_union };

    ghost is_single = { IsSinglePair (IsSinglePair (λ _. Unit {0})) };

    ghost is_valid = { AreFolders };

    ghost joins_in_place = { ⊥ };

    ghost reflexive = { folders_itself };

    ghost transitive = { folders_chain };

    ghost joins = { folders_joins };

    ghost keeps = { folders_keep };

    ghost one = { folders_one };

    fn is_bottom(&self) -> bool {
        self.folders.is_bottom()
    }

    fn join_from(&mut self, other: Self) -> Result<(), Rest<Self>> {
        let FolderMap { folders } = other;
        match self.folders.join_from(folders) {
            Ok(()) => Ok(()),
            Err(Rest { rest }) => Err(Rest {
                rest: FolderMap { folders: rest },
            }),
        }
    }

    fn join_copy(&mut self, other: &Self) -> Result<(), AllocError> {
        self.folders.join_copy(&other.folders)
    }

    fn try_clone(&self) -> Result<Self, AllocError> {
        Ok(FolderMap {
            folders: self.folders.try_clone()?,
        })
    }

    fn same(&self, other: &Self) -> bool {
        self.folders.same(&other.folders)
    }
}

/// Adds a value at a name in a folder.
#[derive(Drop)]
pub struct AddInFolder {
    /// What to add to the map by folder.
    pub addition: AddAt<Bytes, AddAt<Bytes, AddValue<Versioned<Content>>>>,
}

impl Addition for AddInFolder {
    ghost use Rattle.std.specs.Prelude.{◌∷◌, [], false};
    ghost use Rattle.std.specs.FinMap.{find};
    ghost use Rattle.join_law.specs.Maps.{is_none_or};
    ghost use Rattle.path_maps.specs.PathMaps.{bytes_cmp};

    type Value = FolderMap;

    ghost added = { λ a. (
      a.addition.key,
      (a.addition.addition.key, a.addition.addition.addition.value) ∷ [],
    ) ∷ [] };

    ghost is_new = { λ a map. is_none_or
        (λ names. is_none_or (λ _. false) (find bytes_cmp a.addition.addition.key names))
        (find bytes_cmp a.addition.key map) };

    ghost joins_in_place = { Unit {0} };

    #[inline(always)]
    fn join_to(self, map: &mut FolderMap) -> Result<bool, AllocError> {
        self.addition.join_to(&mut map.folders)
    }

    fn into_value(self, alloc: Global) -> Result<Option<FolderMap>, AllocError> {
        match self.addition.into_value(alloc)? {
            Some(folders) => Ok(Some(FolderMap { folders })),
            None => Ok(None),
        }
    }
}

/// Overwrites the entry at a name in a folder.
#[derive(Drop)]
pub struct OverwriteInFolder<'a> {
    /// The change of the map by folder.
    pub change: ChangeAt<'a, Bytes, ChangeAt<'a, Bytes, Overwrite<Content>>>,
}

impl<'a> Change for OverwriteInFolder<'a> {
    ghost use Rattle.std.specs.Prelude.{◌∷◌, []};
    ghost use Rattle.std.specs.FinMap.{find};
    ghost use Rattle.join_law.specs.{declared.versions.Versioned.TheVariants.{At}, Maps.{is_some_and}, VersionOrder.{has_other}};
    ghost use Rattle.edit_sums.specs.Contents.{content_cmp};
    ghost use Rattle.path_maps.specs.PathMaps.{bytes_cmp};

    type Value = FolderMap;

    ghost is_made = { λ o map. is_some_and
        (λ names. is_some_and (has_other content_cmp o.change.change.change.entry.content)
        (find bytes_cmp o.change.change.key.now names)) (find bytes_cmp o.change.key.now map) };

    ghost added = { λ o. (
      o.change.key.now,
      (o.change.change.key.now, At o.change.change.change.entry) ∷ [],
    ) ∷ [] };

    fn make(self, map: &mut FolderMap) -> bool {
        let OverwriteInFolder { change } = self;
        change.make(&mut map.folders)
    }
}
