//! Entries of stores, and edits.
ghost use Rattle.std.specs.Prelude.{◌≡◌, IfOk};
ghost use Rattle.edit_sums.specs.Flat.{at_fleet};

use crate::contents::Content;
use join_law::Version;
use load_path::Path;
use load_places::{Place, Scope};
use plain_values::Key;
use std::alloc::AllocError;

/// What a store holds at a place: a version and a content, ordered by version, then by content. Of two entries at one
/// place the greater one wins.
pub type Entry = join_law::Entry<Content>;

/// A write to one place: a content with the version of the write.
#[derive(Debug, PartialEq, Eq)]
pub struct Edit {
    /// The place that it writes to.
    pub place: Place,
    /// The version of the edit.
    pub version: Version,
    /// The content that it writes.
    pub content: Content,
}

impl Drop for Edit {
    fn drop(self) {
        let Edit {
            place: _,
            version: _,
            content: _,
        } = self;
    }
}

impl Edit {
    /// Takes the edit apart.
    pub fn into_parts(self) -> (Place, Version, Content)
        ensures place { result.0 ≡ self.place }
        ensures version { result.1 ≡ self.version }
        ensures content { result.2 ≡ self.content }
    {
        let Edit {
            place,
            version,
            content,
        } = self;
        (place, version, content)
    }

    /// Returns an equal edit. Fails only if memory runs out.
    pub fn try_clone(&self) -> Result<Edit, AllocError>
        ensures copy { IfOk result (λ copy. copy ≡ self.now) }
    {
        Ok(Edit {
            place: self.place.try_clone()?,
            version: self.version,
            content: self.content.try_clone()?,
        })
    }
}

/// An edit from a store without hosts: a write to a path, for the whole fleet.
#[derive(Debug, PartialEq, Eq)]
pub struct FlatEdit {
    /// The path that it writes to.
    pub path: Path,
    /// The version of the edit.
    pub version: Version,
    /// The content that it writes.
    pub content: Content,
}

impl Drop for FlatEdit {
    fn drop(self) {
        let FlatEdit {
            path: _,
            version: _,
            content: _,
        } = self;
    }
}

impl FlatEdit {
    /// Returns the same edit as one for the whole fleet, with shared bytes. Fails only if memory runs out.
    pub fn at_fleet(&self) -> Result<Edit, AllocError>
        ensures edit { IfOk result (λ edit. edit ≡ at_fleet self.now) }
    {
        let path = self.path.try_clone()?;
        let content = self.content.try_clone()?;
        let scope = Scope::Fleet;
        Ok(Edit {
            place: Place { scope, path },
            version: self.version,
            content,
        })
    }
}
