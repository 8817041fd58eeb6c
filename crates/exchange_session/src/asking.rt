//! Asks of a peer, answered.
ghost use Rattle.std.specs.{Prelude.{◌≡◌, ◌∷◌, [], All, IfOk, IsTrue, map, true}, FinMap.{is_sorted}};
ghost use Rattle.load_places.specs.Places.{place_cmp, PlaceParts};
ghost use Rattle.world_law.specs.Cuts.{digest_of};
ghost use Rattle.range_prints.specs.Ranges.{is_within, versions_of};
ghost use Rattle.exchange_session.specs.{Answered.{is_more, knows_more, own_ask, piece_for, places_within}, Told.{IsAskedAt, IsAskedBack, IsNewerAt, IsNothingNew, IsOwnAsk}};

use crate::comparing::ask_for;
use crate::messages::RangeAsk;
use delta_pieces::{Digest, Piece, delta_at};
use join_law::Version;
use load_places::Place;
use range_prints::{PlaceVersion, Range, parts, within};
use replica_store::Replica;
use std::alloc::{AllocError, Global};

// The most versions of which an ask tells that is made for an ask.
const MOST_TOLD: usize = 1_000;

// Returns whether a version is newer than what is held at its place.
fn is_more(node: &Replica, told: &(Place, Version)) -> bool
    ensures more { result ≡ is_more (digest_of node.now.store) told.now }
{
    match node.store().get(&told.0) {
        None => true,
        Some(held) => told.1.cmp(&held.version).is_gt(),
    }
}

// Returns whether an ask tells of a version that is newer than what is held at its place.
fn knows_more(node: &Replica, asked: &Digest) -> bool
    ensures more { result ≡ knows_more (digest_of node.now.store) asked.now }
{
    asked.versions().iter().any(|told| is_more(node, told))
}

// Returns the places of these versions that are in a range.
fn places_within(
    alloc: Global,
    own: &[PlaceVersion<'_>],
    range: &Range,
) -> Result<Vec<Place>, AllocError>
    requires sorted { IsTrue (is_sorted place_cmp own.now) }
    ensures places { IfOk result (λ places. places.items ≡ places_within range.now own.now) }
{
    let here = within(own, range);
    let mut places = Vec::with_capacity(alloc, here.len())?;
    for version in here {
        places.push(version.place()?)?;
    }
    Ok(places)
}

// Returns the piece for an ask: what is newer, or not told of, at the places in its range.
#[tactic(auto, unfolding(crate::specs::Answered::piece_for))]
fn piece_for(
    alloc: Global,
    node: &Replica,
    own: &[PlaceVersion<'_>],
    ask: &RangeAsk,
) -> Result<Piece, AllocError>
    requires own { own.now ≡ versions_of node.now.store }
    ensures piece { IfOk result (λ piece. piece ≡ piece_for node.now.store ask.now) }
{
    let places = places_within(alloc, own, &ask.range)?;
    delta_at(alloc, node, &ask.versions, &places)
}

/// Returns the pieces for asks, one for each.
pub fn pieces_for(
    alloc: Global,
    node: &Replica,
    own: &[PlaceVersion<'_>],
    asks: &[RangeAsk],
) -> Result<Vec<Piece>, AllocError>
    requires own { own.now ≡ versions_of node.now.store }
    ensures pieces { IfOk result
        (λ pieces. pieces.items ≡ map (piece_for node.now.store) asks.now) }
{
    let mut pieces = Vec::with_capacity(alloc, asks.len())?;
    for ask in asks {
        pieces.push(piece_for(alloc, node, own, ask)?)?;
    }
    Ok(pieces)
}

// Returns the ask for each range.
fn asks_of(
    alloc: Global,
    own: &[PlaceVersion<'_>],
    ranges: Vec<Range>,
) -> Result<Vec<RangeAsk>, AllocError>
    requires sorted { IsTrue (is_sorted place_cmp own.now) }
    ensures asks { IfOk result (λ asks. asks.items ≡ map (own_ask own.now) ranges.items) }
{
    let mut asks = Vec::with_capacity(alloc, ranges.len())?;
    for range in ranges {
        asks.push(ask_for(alloc, own, range)?)?;
    }
    Ok(asks)
}

// Returns asks for the parts of a range, each of which tells of at most `MOST_TOLD` versions.
fn asks_for(
    alloc: Global,
    own: &[PlaceVersion<'_>],
    range: Range,
) -> Result<Vec<RangeAsk>, AllocError>
    requires sorted { IsTrue (is_sorted place_cmp own.now) }
    ensures own { IfOk result (λ asks. All (IsOwnAsk own.now) asks.items) }
    ensures covered { IfOk result
        (λ asks. (p : PlaceParts) → is_within range p ≡ true → IsAskedAt asks.items p) }
    ensures stays { IfOk result
        (λ asks. (p : PlaceParts) → IsAskedAt asks.items p → is_within range p ≡ true) }
{
    let here = within(own, &range);
    let count = here.len().div_ceil(MOST_TOLD).max(1);
    let ranges = parts(alloc, range, here, count)?;
    Ok(asks_of(alloc, own, ranges)?)
}

// Returns asks of one's own for the range of an ask, if it tells of something newer.
fn ask_back(
    alloc: Global,
    node: &Replica,
    own: &[PlaceVersion<'_>],
    ask: RangeAsk,
) -> Result<Vec<RangeAsk>, AllocError>
    requires own { own.now ≡ versions_of node.now.store }
    ensures own { IfOk result (λ back. All (IsOwnAsk (versions_of node.now.store)) back.items) }
    ensures all { IfOk result (λ back. IsAskedBack (digest_of node.now.store) back.items ask) }
    ensures stays { IfOk result (λ back. (p : PlaceParts) → IsAskedAt back.items p
        → IsNewerAt (digest_of node.now.store) (ask ∷ []) p) }
    ensures none { IfOk result
        (λ back. IsNothingNew (digest_of node.now.store) ask → back.items ≡ []) }
{
    if !knows_more(node, &ask.versions) {
        return Ok(Vec::new(alloc));
    }
    Ok(asks_for(alloc, own, ask.into_range())?)
}

/// Returns asks of one's own for the range of each ask that tells of something newer.
pub fn asks_back(
    alloc: Global,
    node: &Replica,
    own: &[PlaceVersion<'_>],
    asks: Vec<RangeAsk>,
) -> Result<Vec<RangeAsk>, AllocError>
    requires own { own.now ≡ versions_of node.now.store }
    ensures own { IfOk result (λ back. All (IsOwnAsk (versions_of node.now.store)) back.items) }
    ensures all { IfOk result
        (λ back. All (IsAskedBack (digest_of node.now.store) back.items) asks.items) }
    ensures stays { IfOk result (λ back. (p : PlaceParts) → IsAskedAt back.items p
        → IsNewerAt (digest_of node.now.store) asks.items p) }
    ensures none { IfOk result
        (λ back. All (IsNothingNew (digest_of node.now.store)) asks.items → back.items ≡ []) }
{
    let mut back = Vec::new(alloc);
    for ask in asks {
        let mut more = ask_back(alloc, node, own, ask)?;
        back.append(&mut more)?;
    }
    Ok(back)
}
