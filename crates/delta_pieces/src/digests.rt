//! Digests.
ghost use Rattle.std.specs.{Prelude.{◌≡◌, IsTrue, IfOk}, FinMap.{is_sorted}};
ghost use Rattle.std.specs.FinMap as finmap;
ghost use Rattle.load_places.specs.Places.{place_cmp};

use join_law::Version;
use load_places::Place;
use plain_values::copied;
use sorted_pairs::seek;
use std::alloc::{AllocError, Global};
use std::marker::Model;

/// What a replica asks with: the version of each entry that it holds, by place.
///
/// A digest has no contents, so it is small compared to the store that it describes.
#[derive(Debug)]
pub struct Digest {
    // Sorted by place.
    versions: Vec<(Place, Version)>,
}

impl Drop for Digest {
    fn drop(self) {
        let Digest { versions: _ } = self;
    }
}

impl Model for Digest {
    ghost use Rattle.std.specs.{Prelude.{IsTrue}, FinMap.{is_sorted}};
    ghost use Rattle.std.specs.FinMap as finmap;
    ghost use Rattle.join_law.specs.contracts.versions.Version as version;
    ghost use Rattle.load_places.specs.{Places.{place_cmp}, PlaceLaws.{coded_place}};
    ghost use Rattle.world_law.specs.Cuts.{VersionMap};

    ghost Value = { VersionMap };

    ghost coded = { finmap.code coded_place (version.the_row).coded };

    ghost view = { λ d. finmap.from_sorted d.versions.items };

    ghost invariant = { λ d. IsTrue (is_sorted place_cmp d.versions.items) };
}

impl Digest {
    // Returns an empty digest. Allocates nothing.
    pub(crate) fn new(alloc: Global) -> Digest
        ensures empty { result ≡ finmap.empty }
    {
        Digest {
            versions: Vec::new(alloc),
        }
    }

    /// Makes a digest of versions whose places are in ascending order. Allocates nothing.
    pub fn from_versions(versions: Vec<(Place, Version)>) -> Digest
        requires sorted { IsTrue (is_sorted place_cmp versions.items) }
        ensures versions { finmap.entries result ≡ versions.items }
    {
        Digest { versions }
    }

    /// Returns the version at a place. O(log n). Allocates nothing.
    pub fn get(&self, place: &Place) -> Option<Version>
        ensures version { result ≡ finmap.get self.now place.now }
    {
        match seek(&self.versions, place) {
            Ok(at) => Some(self.versions[at].1),
            Err(_) => None,
        }
    }

    /// Borrows all places and versions, sorted by place. Allocates nothing.
    pub fn versions(&self) -> &[(Place, Version)]
        ensures versions { result.now ≡ finmap.entries self.now }
    {
        &self.versions
    }

    /// Returns an equal digest. Linear. Fails only if memory runs out.
    pub fn try_clone(&self) -> Result<Digest, AllocError>
        ensures copy { IfOk result (λ copy. copy ≡ self.now) }
    {
        Ok(Digest {
            versions: copied(*self.versions.allocator(), &self.versions)?,
        })
    }
}
