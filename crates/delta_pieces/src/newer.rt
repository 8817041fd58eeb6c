//! Finding the entries that are newer than a digest or another store.
ghost use Rattle.std.specs.{Prelude.{◌≡◌, ◌≢◌, [], ◌∷◌, Some, None, IsTrue, IfOk, OnOk, filter, map}, Option.{option_map}};
ghost use Rattle.std.specs.{declared.cmp.Ordering.TheVariants.{Less}, FinMap.{is_sorted, find}};
ghost use Rattle.load_places.specs.Places.{PlaceParts, place_cmp};
ghost use Rattle.edit_sums.specs.Sums.{edit_of, join, sum_of, with_edit};
ghost use Rattle.sorted_pairs.specs.Places.{IsNotBelow};
ghost use Rattle.world_law.specs.Cuts.{cut, digest_of, is_newer};

use crate::copies::join_copy;
use crate::digests::Digest;
use edit_sums::{Edit, Entry};
use join_law::Version;
use load_places::Place;
use replica_store::{Entries, Placed, Store};
use std::alloc::{AllocError, Global};

// Returns copies of the entries that are newer. One pass over entries and versions side by side.
pub fn newer_entries(
    alloc: Global,
    mut entries: Entries<'_>,
    versions: &[(Place, Version)],
) -> Result<Store, AllocError>
    requires sorted { IsTrue (is_sorted place_cmp entries) }
    requires versions_sorted { IsTrue (is_sorted place_cmp versions.now) }
    ensures newer { IfOk result
        (λ newer. newer
        ≡ sum_of
        (map edit_of
        (filter (λ p. is_newer p.1.version (find place_cmp p.0 versions.now)) entries.entry))) }
{
    let mut newer = Store::new(alloc);
    let mut left = versions;
    while let Some(placed) = entries.next_entry() {
        left = from_place(left, &placed);
        if is_newer(placed.entry().version, version_at(left, &placed)) {
            join_copy(&mut newer, &placed)?;
        }
    }
    Ok(newer)
}

// Skips the versions whose places are below the entry's place, and returns the others. Linear in those skipped.
fn from_place<'a>(versions: &'a [(Place, Version)], placed: &Placed) -> &'a [(Place, Version)]
    requires sorted { IsTrue (is_sorted place_cmp versions.now) }
    ensures sorted { IsTrue (is_sorted place_cmp result.now) }
    ensures next { IsNotBelow place_cmp placed.now.0 result.now }
    ensures held { (q : PlaceParts) → place_cmp q placed.now.0 ≢ Less
        → find place_cmp q result.now ≡ find place_cmp q versions.now }
{
    let mut left = versions;
    while let Some((next, further)) = left.split_first() {
        if !placed.order_of(&next.0).is_lt() {
            return left;
        }
        left = further;
    }
    left
}

// Returns the version at the place of an entry; no version here has a lower place.
fn version_at(versions: &[(Place, Version)], placed: &Placed) -> Option<Version>
    requires sorted { IsTrue (is_sorted place_cmp versions.now) }
    requires next { IsNotBelow place_cmp placed.now.0 versions.now }
    ensures version { result ≡ find place_cmp placed.now.0 versions.now }
{
    let next = versions.first()?;
    if placed.order_of(&next.0).is_eq() {
        Some(next.1)
    } else {
        None
    }
}

// Returns copies of the entries of one store that are newer than what another holds. Reads both side by side.
pub fn newer_than(alloc: Global, store: &Store, other: &Store) -> Result<Store, AllocError>
    ensures cut { IfOk result (λ newer. newer ≡ cut store.now (digest_of other.now) None) }
{
    let mut newer = Store::new(alloc);
    let mut both = store.entries_zipped(other);
    while let Some((placed, held)) = both.next_entry() {
        if is_news(placed.entry(), held) {
            join_copy(&mut newer, &placed)?;
        }
    }
    Ok(newer)
}

// Returns whether an entry is newer than the one held, or none is held.
fn is_news(entry: &Entry, held: Option<&Entry>) -> bool
    ensures news { result ≡ is_newer entry.now.version
        (option_map (λ x. x.now.version) held.entry) }
{
    match held {
        None => true,
        Some(held) => entry.version.cmp(&held.version).is_gt(),
    }
}

// Returns whether a version is greater than the one in the digest, or there is none.
fn is_newer(version: Version, asked: Option<Version>) -> bool
    ensures newer { result ≡ is_newer version asked }
{
    match asked {
        None => true,
        Some(asked) => version.cmp(&asked).is_gt(),
    }
}

// Returns what is newer at these places. Each place costs a search, and at most one shift of what was found so far.
pub fn newer_at(
    alloc: Global,
    store: &Store,
    asked: &Digest,
    places: &[Place],
) -> Result<Store, AllocError>
    ensures cut { IfOk result (λ newer. newer ≡ cut store.now asked.now (Some places.now)) }
{
    let mut newer = Store::new(alloc);
    for place in places {
        join_newer(&mut newer, store, asked, place)?;
    }
    Ok(newer)
}

// Joins what is newer at one place.
fn join_newer(
    newer: &mut Store,
    store: &Store,
    asked: &Digest,
    place: &Place,
) -> Result<(), AllocError>
    ensures ok { OnOk result
        (newer.new ≡ join newer.old (cut store.now asked.now (Some (place.now ∷ [])))) }
{
    let Some(entry) = store.get(place) else {
        return Ok(());
    };
    if !is_newer(entry.version, asked.get(place)) {
        return Ok(());
    }
    join_at(newer, place, entry)
}

// Returns what is newer at these places than what another store holds. Each place costs a search in each store, and at
// most one shift of what was found so far.
pub fn newer_than_at(
    alloc: Global,
    store: &Store,
    other: &Store,
    places: &[Place],
) -> Result<Store, AllocError>
    ensures cut { IfOk result
        (λ newer. newer ≡ cut store.now (digest_of other.now) (Some places.now)) }
{
    let mut newer = Store::new(alloc);
    for place in places {
        join_news(&mut newer, store, other, place)?;
    }
    Ok(newer)
}

// Joins what is newer at one place.
fn join_news(
    newer: &mut Store,
    store: &Store,
    other: &Store,
    place: &Place,
) -> Result<(), AllocError>
    ensures ok { OnOk result
        (newer.new ≡ join newer.old (cut store.now (digest_of other.now) (Some (place.now ∷ [])))) }
{
    let Some(entry) = store.get(place) else {
        return Ok(());
    };
    if !is_news(entry, other.get(place)) {
        return Ok(());
    }
    join_at(newer, place, entry)
}

// Joins a copy of the entry at a place, which shares its bytes.
fn join_at(newer: &mut Store, place: &Place, entry: &Entry) -> Result<(), AllocError>
    ensures ok { OnOk result (newer.new ≡ with_edit newer.old (edit_of (place.now, entry.now))) }
{
    let Entry { version, content } = entry.try_clone()?;
    newer.join_edit(Edit {
        place: place.try_clone()?,
        version,
        content,
    })
}
