//! Paths and their parts.
ghost use Rattle.std.specs.Prelude.{◌≡◌, ◌<◌, ◌⊎◌, ◌||◌, ◌++◌, not, length, Err, IsErr, IsTrue, IfOk, OnOk, OnErr};
ghost use Rattle.load_path.specs.Paths.{directory_of, has_folder, is_component, path_of, text_of, IsPath};

use crate::texts::{Parts, directory};
use plain_values::{Bytes, Key, TryClone};
use std::alloc::{AllocError, Global};
use std::marker::Model;
use thiserror::Error;

/// The most bytes in one component of a path.
pub const COMPONENT_LIMIT: usize = 255;

/// Why a text isn't a path. A refused text leaves nothing behind.
#[derive(Clone, Copy, Debug, PartialEq, Eq, Error)]
pub enum PathFault {
    /// F1: the text doesn't begin with a directory of the load path and a slash.
    #[error("F1 Directory")]
    Directory,
    /// F2: more than two components follow the directory.
    #[error("F2 Depth")]
    Depth,
    /// F3: a component is empty, `.` or `..`, has more than 255 bytes, or has a byte outside 33 to 126.
    #[error("F3 Component")]
    Component,
    /// Memory ran out.
    #[error("out of memory")]
    Memory,
}

/// A path of the unit load path (systemd.unit(5), "Unit File Load Path"): a directory and one or two components, as
/// `/etc/systemd/system/x.service.d/10.conf`.
///
/// Paths are ordered by the rank of their directory; then those with one component come before those with two; then by
/// folder and name.
#[derive(Debug, PartialEq, Eq, PartialOrd, Ord)]
pub struct Path {
    rank: u8,
    folder: Bytes,
    name: Bytes,
}

impl Drop for Path {
    fn drop(self) {
        let Path {
            rank: _,
            folder: _,
            name: _,
        } = self;
    }
}

impl Model for Path {
    ghost use Rattle.load_path.specs.Paths.{PathParts, IsPath};

    ghost Value = { PathParts };

    ghost view = { λ p. record { rank = p.rank; folder = p.folder; name = p.name } };

    ghost invariant = { λ p. IsPath (record { rank = p.rank; folder = p.folder; name = p.name }) };

    ghost inverse = { λ v. record { rank = v.rank; folder = v.folder; name = v.name } };
}

impl Path {
    /// Parses a path. The faults are `Directory`, `Depth` and `Component`, checked in this order, and `Memory` if
    /// memory runs out, which happens only for a valid path. Linear in the text.
    pub fn parse(alloc: Global, text: &[u8]) -> Result<Path, PathFault>
        ensures parsed { (result ≡ Err PathFault.Memory) ⊎ (result ≡ path_of text.now) }
        ensures faults { IsErr (path_of text.now) → result ≡ path_of text.now }
    {
        let parts = Parts::of(text)?;
        Path::of(alloc, &parts).map_err(|_| PathFault::Memory)
    }

    // Makes a path of these parts, with its own copy of the bytes.
    fn of(alloc: Global, parts: &Parts) -> Result<Path, AllocError>
        ensures path { IfOk result (λ path. path ≡ parts.now) }
    {
        Ok(Path {
            rank: parts.rank,
            folder: Bytes::from_slice(alloc, parts.folder)?,
            name: Bytes::from_slice(alloc, parts.name)?,
        })
    }

    /// Returns the rank of the directory: 0 for `/etc`, 1 for `/run`, 2 for `/usr/local/lib`, 3 for `/usr/lib`. A
    /// lesser rank overrides a greater one. Allocates nothing.
    pub fn rank(&self) -> u8
        ensures rank { result ≡ self.now.rank }
        ensures within { result < 4 }
    {
        self.rank
    }

    /// Returns the path of the directory, without a trailing slash. Allocates nothing.
    pub fn dir(&self) -> &'static [u8]
        ensures directory { result.now ≡ directory_of self.now.rank }
    {
        directory(self.rank)
    }

    /// Returns the folder below the directory, or an empty slice if the path has only one component. Allocates nothing.
    pub fn folder(&self) -> &[u8]
        ensures folder { result.now ≡ self.now.folder }
        ensures component { IsTrue (not (has_folder self.now) || is_component self.now.folder) }
    {
        self.folder.as_slice()
    }

    /// Returns the last component. Allocates nothing.
    pub fn name(&self) -> &[u8]
        ensures name { result.now ≡ self.now.name }
        ensures component { IsTrue (is_component self.now.name) }
    {
        self.name.as_slice()
    }

    /// Returns the rank of the directory, and borrows the folder and the name. Allocates nothing.
    pub fn parts(&self) -> (u8, &Bytes, &Bytes)
        ensures rank { result.0 ≡ self.now.rank }
        ensures folder { result.1.now ≡ self.now.folder }
        ensures name { result.2.now ≡ self.now.name }
    {
        (self.rank, &self.folder, &self.name)
    }

    /// Returns the rank of the directory, and the folder and the name by value. Allocates nothing.
    pub fn into_parts(self) -> (u8, Bytes, Bytes)
        ensures parts { record { rank = result.0; folder = result.1; name = result.2 } ≡ self }
        ensures well_formed { IsPath self }
    {
        let Path { rank, folder, name } = self;
        (rank, folder, name)
    }

    /// Makes a path of these parts. Allocates nothing.
    pub fn from_parts(rank: u8, folder: Bytes, name: Bytes) -> Path
        requires well_formed { IsPath (record { rank = rank; folder = folder; name = name }) }
        ensures path { result ≡ record { rank = rank; folder = folder; name = name } }
    {
        Path { rank, folder, name }
    }

    /// Appends the text of the path to `out`. If memory runs out, nothing is appended.
    #[tactic(auto, unfolding(crate::specs::Paths::text_of))]
    pub fn append_to(&self, out: &mut Vec<u8>) -> Result<(), AllocError>
        ensures ok { OnOk result (out.new.items ≡ out.old.items ++ text_of self.now) }
        ensures err { OnErr result (out.new.items ≡ out.old.items) }
    {
        let directory = self.dir();
        let folder = self.folder();
        let name = self.name();
        let slashes = if folder.is_empty() { 1 } else { 2 };
        out.reserve(directory.len() + folder.len() + name.len() + slashes)?;
        out.extend_from_slice(directory)?;
        out.push(b'/')?;
        if !folder.is_empty() {
            out.extend_from_slice(folder)?;
            out.push(b'/')?;
        }
        out.extend_from_slice(name)
    }

    /// Returns an equal path that shares its bytes. Fails only if memory runs out.
    pub fn try_clone(&self) -> Result<Path, AllocError>
        ensures copy { IfOk result (λ copy. copy ≡ self.now) }
    {
        Ok(Path {
            rank: self.rank,
            folder: self.folder.try_clone()?,
            name: self.name.try_clone()?,
        })
    }
}

impl TryClone for Path {
    fn try_clone(&self) -> Result<Path, AllocError> {
        Path::try_clone(self)
    }
}

impl Key for Path {
    ghost use Rattle.load_path.specs.PathLaws.{path_cmp-IsAntisymmetric};

    ghost exact = { path_cmp-IsAntisymmetric };
}
