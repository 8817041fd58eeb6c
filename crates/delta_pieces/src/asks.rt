//! Digests of replicas.
ghost use Rattle.std.specs.{Prelude.{◌≡◌, Some, IsTrue, IfOk, OnOk, map}, FinMap.{is_sorted, put}};
ghost use Rattle.std.specs.FinMap as finmap;
ghost use Rattle.load_places.specs.Places.{place_cmp};
ghost use Rattle.edit_sums.specs.Sums.{EntryMap};
ghost use Rattle.world_law.specs.Cuts.{cut, digest_of, only_at};

use crate::digests::Digest;
use join_law::Version;
use load_places::Place;
use replica_store::{Replica, Store};
use sorted_pairs::seek;
use std::alloc::{AllocError, Global};

/// Returns the digest of everything that a replica holds, removals included. One pass. Fails only if memory runs out.
pub fn digest(alloc: Global, replica: &Replica) -> Result<Digest, AllocError>
    ensures digest { IfOk result (λ digest. digest ≡ digest_of replica.now.store) }
{
    let versions = versions_of(alloc, replica.store())?;
    Ok(Digest::from_versions(versions))
}

// Returns each place with its version.
fn versions_of(alloc: Global, store: &Store) -> Result<Vec<(Place, Version)>, AllocError>
    ensures versions { IfOk result (λ versions. versions.items ≡ map (λ p. (p.0, p.1.version))
        (finmap.entries store.now)) }
{
    let mut versions = Vec::with_capacity(alloc, store.len())?;
    let mut entries = store.entries();
    while let Some(placed) = entries.next_entry() {
        versions.push((placed.place()?, placed.entry().version))?;
    }
    Ok(versions)
}

/// Returns the digest of what a replica holds at these places. Duplicates and order don't matter. At these places,
/// cutting for this digest gives the same as cutting for the complete digest.
///
/// Each place costs a search in the store, a search among the versions found so far, and at most one shift of these; if
/// the places are in ascending order, nothing is shifted. No other place is copied. Fails only if memory runs out.
pub fn digest_at(alloc: Global, replica: &Replica, places: &[Place]) -> Result<Digest, AllocError>
    ensures digest { IfOk result
        (λ digest. digest ≡ digest_of (only_at places.now replica.now.store)) }
    ensures same_cut { IfOk result (λ digest. (s : EntryMap)
        → cut s digest (Some places.now) ≡ cut s (digest_of replica.now.store) (Some places.now)) }
{
    let mut versions = Vec::new(alloc);
    for place in places {
        if let Some(entry) = replica.store().get(place) {
            put_version(&mut versions, place, entry.version)?;
        }
    }
    Ok(Digest::from_versions(versions))
}

// Sets the version at a place.
fn put_version(
    versions: &mut Vec<(Place, Version)>,
    place: &Place,
    version: Version,
) -> Result<(), AllocError>
    requires sorted { IsTrue (is_sorted place_cmp versions.old.items) }
    ensures put { OnOk result
        (versions.new.items ≡ put place_cmp place.now version versions.old.items) }
{
    match seek(versions, place) {
        Ok(at) => {
            versions[at].1 = version;
            Ok(())
        }
        Err(at) => {
            versions.insert(at, (place.try_clone()?, version))?;
            Ok(())
        }
    }
}
