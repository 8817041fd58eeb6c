//! Cutting pieces for digests.
ghost use Rattle.std.specs.Prelude.{◌≡◌, ◌++◌, Some, None, IfOk};
ghost use Rattle.edit_sums.specs.Sums.{EntryMap, edits_of, join};
ghost use Rattle.world_law.specs.Cuts.{AreToldApart, cut, digest_of};

use crate::digests::Digest;
use crate::newer::{newer_at, newer_entries, newer_than, newer_than_at};
use crate::pieces::Piece;
use load_places::Place;
use replica_store::Replica;
use std::alloc::{AllocError, Global};

/// Returns copies of what a replica holds and the digest lacks: entries with a greater version than the digest has, or
/// at a place that isn't in the digest. If no two different edits of one place have one version, whoever asked with its own
/// digest lacks nothing of the replica after taking the piece.
///
/// One pass over entries and versions side by side. Only the entries of the piece are copied, and copies share their
/// bytes. Fails only if memory runs out.
pub fn delta_for(alloc: Global, replica: &Replica, asked: &Digest) -> Result<Piece, AllocError>
    ensures cut { IfOk result (λ piece. piece ≡ cut replica.now.store asked.now None) }
    ensures whole { IfOk result
        (λ piece. (s : EntryMap) → asked.now ≡ digest_of s
        → AreToldApart (edits_of s ++ edits_of replica.now.store)
        → join s piece ≡ join s replica.now.store) }
{
    let newer = newer_entries(alloc, replica.store().entries(), asked.versions())?;
    Ok(Piece::from_store(newer))
}

/// Returns what `from` holds and `to` lacks: the same piece as `delta_for` with the digest of `to`, which isn't built.
///
/// Reads both side by side: an entry costs one or two comparisons, and a search if `to` holds many places before it.
/// Fails only if memory runs out.
pub fn delta_between(alloc: Global, from: &Replica, to: &Replica) -> Result<Piece, AllocError>
    ensures cut { IfOk result (λ piece. piece ≡ cut from.now.store (digest_of to.now.store) None) }
    ensures whole { IfOk result
        (λ piece. AreToldApart (edits_of to.now.store ++ edits_of from.now.store)
        → join to.now.store piece ≡ join to.now.store from.now.store) }
{
    Ok(Piece::from_store(newer_than(alloc, from.store(), to.store())?))
}

/// Returns what `from` holds and `to` lacks, at these places only: the same piece as `delta_at` with the digest of `to`,
/// which isn't built. Duplicates and order of the places don't matter.
///
/// Each place costs a search in each store, and at most one shift of what was found so far; if the places are in
/// ascending order, nothing is shifted. An entry of the piece is copied once for each time its place is listed, and
/// nothing else is copied. Fails only if memory runs out.
pub fn delta_between_at(
    alloc: Global,
    from: &Replica,
    to: &Replica,
    places: &[Place],
) -> Result<Piece, AllocError>
    ensures cut { IfOk result
        (λ piece. piece ≡ cut from.now.store (digest_of to.now.store) (Some places.now)) }
{
    let newer = newer_than_at(alloc, from.store(), to.store(), places)?;
    Ok(Piece::from_store(newer))
}

/// Returns what a replica holds and the digest lacks, at these places only. Duplicates and order of the places don't
/// matter.
///
/// Each place costs a search in the store, a search in the digest, and at most one shift of what was found so far; if
/// the places are in ascending order, nothing is shifted. An entry of the piece is copied once for each time its place
/// is listed, and nothing else is copied. Fails only if memory runs out.
pub fn delta_at(
    alloc: Global,
    replica: &Replica,
    asked: &Digest,
    places: &[Place],
) -> Result<Piece, AllocError>
    ensures cut { IfOk result (λ piece. piece ≡ cut replica.now.store asked.now (Some places.now)) }
{
    let newer = newer_at(alloc, replica.store(), asked, places)?;
    Ok(Piece::from_store(newer))
}
