//! What frames are made of, read from the start of bytes, and returned with the bytes after it. The faults are `Memory` and
//! the first in the bytes.
ghost use Rattle.std.specs.{Option.{option_copied}, Prelude.{◌≡◌, IfOk, OnOk}};
ghost use Rattle.byte_fields.specs.Reading.{Gives};
ghost use Rattle.load_places.specs.Places.{place_cmp};
ghost use Rattle.edit_sums.specs.Sums.{edit_of, with_edit};
ghost use Rattle.path_maps.specs.Scopes.{within};
ghost use Rattle.store_bytes.specs.{ListReading.{key_above_at, list_at}, Reading.{place_at, version_at}};
ghost use Rattle.exchange_bytes.specs.Frames.{parts_of};
ghost use Rattle.exchange_bytes.specs.Peers.{peer_cmp};
ghost use Rattle.exchange_bytes.specs.Pieces.{own_taken, scope_taken, scopes_taken};
ghost use Rattle.exchange_bytes.specs.Reading.{ask_at, asks_at, bound_at, fields_at, flag_at, hello_at, last_from, mark_at, other_from, own_at, peer_at, peers_at, piece_at, print_at, prints_at, range_at, versions_at, writer_at};

use crate::frames::{Frame, Hello};
use crate::peers::{Peer, Peers, is_peer_next};
use crate::writing::is_last_bound;
use byte_fields::{DecodeFault, SpellingFault, byte_of, number_of};
use delta_pieces::{Digest, Piece};
use edit_sums::{Edit, Entry};
use exchange_session::{RangeAsk, RangePrint};
use join_law::Version;
use load_path::Path;
use load_places::{Place, Scope};
use path_maps::Store;
use range_prints::Range;
use std::alloc::{AllocError, Global};
use store_bytes::{entry_above, place_of, scope_head_of, version_above};

// ---- ranges

// Returns a copy of a bound.
fn copy_of(bound: Option<&Place>) -> Result<Option<Place>, AllocError>
    ensures copy { IfOk result (λ copy. copy ≡ option_copied bound.entry) }
{
    match bound {
        None => Ok(None),
        Some(place) => Ok(Some(place.try_clone()?)),
    }
}

// Returns the last bound told, where a bound is the same. `Order` if none was.
fn last_of<'a>(
    last: Option<&Place>,
    rest: &'a [u8],
) -> Result<(Option<Place>, &'a [u8]), DecodeFault>
    ensures read { Gives (λ x. (x.0, x.1.now)) result
        (last_from (option_copied last.entry) rest.now) }
{
    match last {
        None => Err(DecodeFault::Fault(SpellingFault::Order)),
        Some(place) => Ok((Some(place.try_clone()?), rest)),
    }
}

// Reads a bound, after the last one told. `Order` if it is spelled as the last one where there is none, or in full where it
// is the last one; `Number` if its first byte names no bound.
#[tactic(auto, unfolding(crate::specs::Reading::bound_at))]
fn bound_of<'a>(
    alloc: Global,
    last: Option<&Place>,
    bytes: &'a [u8],
) -> Result<(Option<Place>, &'a [u8]), DecodeFault>
    ensures read { Gives (λ x. (x.0, x.1.now)) result
        (bound_at (option_copied last.entry) bytes.now) }
{
    let (sort, rest) = byte_of(bytes)?;
    match sort {
        0 => Ok((None, rest)),
        1 => last_of(last, rest),
        2 => {
            let (place, rest) = place_of(alloc, rest)?;
            if is_last_bound(last, &place) {
                return Err(DecodeFault::Fault(SpellingFault::Order));
            }
            Ok((Some(place), rest))
        }
        _ => Err(DecodeFault::Fault(SpellingFault::Number)),
    }
}

// Reads a range, after the last bound told.
#[tactic(auto, unfolding(crate::specs::Reading::range_at))]
fn range_of<'a>(
    alloc: Global,
    last: Option<&Place>,
    bytes: &'a [u8],
) -> Result<(Range, &'a [u8]), DecodeFault>
    ensures read { Gives (λ x. (x.0, x.1.now)) result
        (range_at (option_copied last.entry) bytes.now) }
{
    let (from, rest) = bound_of(alloc, last, bytes)?;
    let (until, rest) = bound_of(alloc, from.as_ref(), rest)?;
    Ok((Range { from, until }, rest))
}

// Reads a print, after the last bound told.
#[tactic(auto, unfolding(crate::specs::Reading::print_at))]
fn print_of<'a>(
    alloc: Global,
    last: Option<&Place>,
    bytes: &'a [u8],
) -> Result<(RangePrint, &'a [u8]), DecodeFault>
    ensures read { Gives (λ x. (x.0, x.1.now)) result
        (print_at (option_copied last.entry) bytes.now) }
{
    let (range, rest) = range_of(alloc, last, bytes)?;
    let (print, rest) = number_of(rest)?;
    Ok((RangePrint { range, print }, rest))
}

// Reads versions by place.
#[tactic(auto, unfolding(crate::specs::Chains::chained_at))]
fn version_list_of(
    alloc: Global,
    bytes: &[u8],
) -> Result<(Vec<(Place, Version)>, &[u8]), DecodeFault>
    ensures read { Gives (λ x. (x.0.items, x.1.now)) result
        (list_at place_cmp place_at version_at bytes.now) }
{
    let (count, inner) = number_of(bytes)?;
    let mut versions = Vec::new(alloc);
    let mut last = None;
    let mut rest = inner;
    for _ in 0..count {
        let (pair, after) = version_above(alloc, last.as_ref(), rest)?;
        last = Some(pair.0.try_clone()?);
        versions.push(pair)?;
        rest = after;
    }
    Ok((versions, rest))
}

// Reads versions by place, as a digest.
fn versions_of(alloc: Global, bytes: &[u8]) -> Result<(Digest, &[u8]), DecodeFault>
    ensures read { Gives (λ x. (x.0, x.1.now)) result (versions_at bytes.now) }
{
    match version_list_of(alloc, bytes) {
        Ok((versions, rest)) => Ok((Digest::from_versions(versions), rest)),
        Err(fault) => Err(fault),
    }
}

// Reads an ask, after the last bound told.
#[tactic(auto, unfolding(crate::specs::Reading::ask_at))]
fn ask_of<'a>(
    alloc: Global,
    last: Option<&Place>,
    bytes: &'a [u8],
) -> Result<(RangeAsk, &'a [u8]), DecodeFault>
    ensures read { Gives (λ x. (x.0, x.1.now)) result
        (ask_at (option_copied last.entry) bytes.now) }
{
    let (range, rest) = range_of(alloc, last, bytes)?;
    let (versions, rest) = versions_of(alloc, rest)?;
    Ok((RangeAsk { range, versions }, rest))
}

// Reads prints.
#[tactic(auto, unfolding(crate::specs::Chains::chained_at))]
fn prints_of(alloc: Global, bytes: &[u8]) -> Result<(Vec<RangePrint>, &[u8]), DecodeFault>
    ensures read { Gives (λ x. (x.0.items, x.1.now)) result (prints_at bytes.now) }
{
    let (count, inner) = number_of(bytes)?;
    let mut prints = Vec::new(alloc);
    let mut last = None;
    let mut rest = inner;
    for _ in 0..count {
        let (it, after) = print_of(alloc, last.as_ref(), rest)?;
        last = copy_of(it.range.until.as_ref())?;
        prints.push(it)?;
        rest = after;
    }
    Ok((prints, rest))
}

// Reads asks.
#[tactic(auto, unfolding(crate::specs::Chains::chained_at))]
fn asks_of(alloc: Global, bytes: &[u8]) -> Result<(Vec<RangeAsk>, &[u8]), DecodeFault>
    ensures read { Gives (λ x. (x.0.items, x.1.now)) result (asks_at bytes.now) }
{
    let (count, inner) = number_of(bytes)?;
    let mut asks = Vec::new(alloc);
    let mut last = None;
    let mut rest = inner;
    for _ in 0..count {
        let (it, after) = ask_of(alloc, last.as_ref(), rest)?;
        last = copy_of(it.range.until.as_ref())?;
        asks.push(it)?;
        rest = after;
    }
    Ok((asks, rest))
}

// ---- what a side says of itself

// Reads a mark.
#[tactic(auto, unfolding(crate::specs::Reading::mark_at))]
fn mark_of(bytes: &[u8]) -> Result<([u8; 16], &[u8]), DecodeFault>
    ensures read { Gives (λ x. (x.0, x.1.now)) result (mark_at bytes.now) }
{
    if bytes.len() < 16 {
        return Err(DecodeFault::Fault(SpellingFault::Truncated));
    }
    let (front, rest) = bytes.split_at(16);
    let mut mark = [0; 16];
    mark.copy_from_slice(front);
    Ok((mark, rest))
}

// Reads the number under which a node writes. `Number` if it isn't below 2^32.
#[tactic(auto, unfolding(crate::specs::Reading::writer_at))]
fn writer_of(bytes: &[u8]) -> Result<(u32, &[u8]), DecodeFault>
    ensures read { Gives (λ x. (x.0, x.1.now)) result (writer_at bytes.now) }
{
    let (writer, rest) = number_of(bytes)?;
    if writer >= 1 << 32 {
        return Err(DecodeFault::Fault(SpellingFault::Number));
    }
    Ok((writer as u32, rest))
}

// Reads a peer, which is above the last one. `Order` if it isn't.
#[tactic(auto, unfolding(crate::specs::Reading::peer_at, store_bytes::specs::ListReading::key_above_at))]
fn peer_of<'a>(last: Option<&Peer>, bytes: &'a [u8]) -> Result<(Peer, &'a [u8]), DecodeFault>
    ensures read { Gives (λ x. (x.0, x.1.now)) result
        (key_above_at peer_cmp peer_at (option_copied last.entry) bytes.now) }
{
    let (mark, rest) = mark_of(bytes)?;
    let (writer, rest) = writer_of(rest)?;
    let peer = Peer { mark, writer };
    if !is_peer_next(last, &peer) {
        return Err(DecodeFault::Fault(SpellingFault::Order));
    }
    Ok((peer, rest))
}

// Reads peers, in ascending order.
#[tactic(auto, unfolding(crate::specs::Chains::chained_at))]
fn peer_list_of(alloc: Global, bytes: &[u8]) -> Result<(Vec<Peer>, &[u8]), DecodeFault>
    ensures read { Gives (λ x. (x.0.items, x.1.now)) result (peers_at bytes.now) }
{
    let (count, inner) = number_of(bytes)?;
    let mut peers = Vec::new(alloc);
    let mut last: Option<Peer> = None;
    let mut rest = inner;
    for _ in 0..count {
        let (peer, after) = peer_of(last.as_ref(), rest)?;
        last = Some(peer);
        peers.push(peer)?;
        rest = after;
    }
    Ok((peers, rest))
}

// Reads peers, each above the one before it.
fn peers_of(alloc: Global, bytes: &[u8]) -> Result<(Peers, &[u8]), DecodeFault>
    ensures read { Gives (λ x. (x.0, x.1.now)) result (peers_at bytes.now) }
{
    match peer_list_of(alloc, bytes) {
        Ok((peers, rest)) => Ok((Peers::from_ascending(peers), rest)),
        Err(fault) => Err(fault),
    }
}

// Reads what a side says of itself.
#[tactic(auto, unfolding(crate::specs::Reading::own_at, crate::specs::Reading::writer_mark_at, crate::specs::Reading::seed_peers_at))]
fn own_of(alloc: Global, bytes: &[u8]) -> Result<(Hello, &[u8]), DecodeFault>
    ensures read { Gives (λ x. (x.0, x.1.now)) result (own_at bytes.now) }
{
    let (writer, rest) = writer_of(bytes)?;
    let (mark, rest) = mark_of(rest)?;
    let (seed, rest) = number_of(rest)?;
    let (peers, rest) = peers_of(alloc, rest)?;
    let own = Hello {
        writer,
        mark,
        seed,
        peers,
    };
    Ok((own, rest))
}

// Reads it, or that there is none. `Number` if the first byte is another.
#[tactic(auto, unfolding(crate::specs::Reading::hello_at))]
fn hello_of(alloc: Global, bytes: &[u8]) -> Result<(Option<Hello>, &[u8]), DecodeFault>
    ensures read { Gives (λ x. (x.0, x.1.now)) result (hello_at bytes.now) }
{
    let (sort, rest) = byte_of(bytes)?;
    match sort {
        0 => Ok((None, rest)),
        1 => {
            let (own, rest) = own_of(alloc, rest)?;
            Ok((Some(own), rest))
        }
        _ => Err(DecodeFault::Fault(SpellingFault::Number)),
    }
}

// ---- pieces

// Joins an entry at its place.
fn join_entry(store: &mut Store, scope: Scope, pair: (Path, Entry)) -> Result<(), AllocError>
    ensures joined { OnOk result
        (store.new ≡ with_edit store.old (edit_of (within scope pair.0, pair.1))) }
{
    let (path, entry) = pair;
    let Entry { version, content } = entry;
    store.join_edit(Edit {
        place: Place { scope, path },
        version,
        content,
    })
}

// Reads so many entries of a scope into a store.
fn take_own<'a>(
    alloc: Global,
    store: Store,
    scope: &Scope,
    count: u64,
    bytes: &'a [u8],
) -> Result<(Store, &'a [u8]), DecodeFault>
    ensures read { Gives (λ x. (x.0, x.1.now)) result (own_taken scope.now store count bytes.now) }
{
    let mut grown = store;
    let mut last = None;
    let mut rest = bytes;
    for _ in 0..count {
        let (pair, after) = entry_above(alloc, last.as_ref(), rest)?;
        last = Some(pair.0.try_clone()?);
        join_entry(&mut grown, scope.try_clone()?, pair)?;
        rest = after;
    }
    Ok((grown, rest))
}

// Reads a scope with its entries, which is above the last one, into a store.
fn take_scope<'a>(
    alloc: Global,
    store: Store,
    last: Option<&Scope>,
    bytes: &'a [u8],
) -> Result<((Store, Scope), &'a [u8]), DecodeFault>
    ensures read { Gives (λ x. (x.0, x.1.now)) result
        (scope_taken (option_copied last.entry) store bytes.now) }
{
    let ((scope, count), rest) = scope_head_of(alloc, last, bytes)?;
    let (store, rest) = take_own(alloc, store, &scope, count, rest)?;
    Ok(((store, scope), rest))
}

// Reads all scopes with their entries into a store.
fn take_scopes(alloc: Global, bytes: &[u8]) -> Result<(Store, &[u8]), DecodeFault>
    ensures read { Gives (λ x. (x.0, x.1.now)) result (scopes_taken bytes.now) }
{
    let (count, inner) = number_of(bytes)?;
    let mut store = Store::new(alloc);
    let mut last = None;
    let mut rest = inner;
    for _ in 0..count {
        let ((grown, scope), after) = take_scope(alloc, store, last.as_ref(), rest)?;
        store = grown;
        last = Some(scope);
        rest = after;
    }
    Ok((store, rest))
}

// Reads a piece.
fn piece_of(alloc: Global, bytes: &[u8]) -> Result<(Piece, &[u8]), DecodeFault>
    ensures read { Gives (λ x. (x.0, x.1.now)) result (piece_at bytes.now) }
{
    let (store, rest) = take_scopes(alloc, bytes)?;
    Ok((Piece::from_store(store), rest))
}

// Reads whether it is so. `Number` if the byte is neither 0 nor 1.
#[tactic(auto, unfolding(crate::specs::Reading::flag_at))]
fn flag_of(bytes: &[u8]) -> Result<(bool, &[u8]), DecodeFault>
    ensures read { Gives (λ x. (x.0, x.1.now)) result (flag_at bytes.now) }
{
    let (byte, rest) = byte_of(bytes)?;
    match byte {
        0 => Ok((false, rest)),
        1 => Ok((true, rest)),
        _ => Err(DecodeFault::Fault(SpellingFault::Number)),
    }
}

// ---- frames

// Reads what stands between the head and the checksum of a frame.
#[tactic(auto, unfolding(crate::specs::Reading::fields_at, crate::specs::Reading::told_at, crate::specs::Reading::prints_asks_at, crate::specs::Reading::piece_flag_at))]
pub(crate) fn fields_of(alloc: Global, bytes: &[u8]) -> Result<(Frame, &[u8]), DecodeFault>
    ensures read { Gives (λ x. (parts_of x.0, x.1.now)) result (fields_at bytes.now) }
{
    let (hello, rest) = hello_of(alloc, bytes)?;
    let (prints, rest) = prints_of(alloc, rest)?;
    let (asks, rest) = asks_of(alloc, rest)?;
    let (piece, rest) = piece_of(alloc, rest)?;
    let (more, rest) = flag_of(rest)?;
    let frame = Frame {
        hello,
        prints,
        asks,
        piece,
        more,
    };
    Ok((frame, rest))
}
