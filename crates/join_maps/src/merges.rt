//! Joining all pairs of one map in chunks into another one.
ghost use Rattle.std.specs.{Prelude.{◌≡◌, ◌+◌, ◌<◌, ◌≤◌, length, take, IsOk, IfOk, OnErr}, Bool.{OnTrue, OnFalse}};
ghost use Rattle.chunked_pairs.specs.Chunks.{all_pairs, AllKeys, AreChunks, FallsTo, run_at};
ghost use Rattle.join_maps.specs.Held.{AreMapped};
ghost use Rattle.join_law.specs.{Maps.{IsMap, IsSinglePair, MapBelow}, Order.{IsBetween, IsJoin}};
ghost use Rattle.join_maps.specs.Outcomes.{AreCopiesJoined, ArePairsJoined, IsLastJoined, IsLastStopped, IsRoomFor};

use crate::copies::join_copies;
use crate::runs::{join_key, place_for};
use chunked_pairs::{Chunks, MOST};
use join_law::{Join, Rest};
use plain_values::Key;
use std::alloc::AllocError;
use std::mem;

// Joins the last pair of a run, and returns whether it was joined. What is left of it otherwise is its last pair again.
fn join_popped<K: Key, V: Join>(chunks: &mut Chunks<K, V>, run: &mut Vec<(K, V)>) -> bool
    requires map { AreMapped K.cmp V.below V.is_valid chunks.old }
    requires some { 0 < length run.old.items }
    ensures map { AreMapped K.cmp V.below V.is_valid chunks.new }
    ensures joined { OnTrue result (IsLastJoined K.cmp V.below (all_pairs chunks.old) run.old.items
        (all_pairs chunks.new) run.new.items) }
    ensures stopped { OnFalse result
        (IsLastStopped K.cmp V.below V.is_valid V.is_single (all_pairs chunks.old) run.old.items
        (all_pairs chunks.new) run.new.items) }
{
    let Some((key, value)) = run.pop() else {
        return true;
    };
    let Err(Rest { rest }) = join_key(chunks, key, value) else {
        return true;
    };
    // Infallible: `pop` has just freed the room.
    match run.push(rest) {
        Ok(()) => false,
        Err(_) => unreachable!(),
    }
}

// Joins the last pair of `other`, which has pairs, and returns whether it was joined. What is left of it otherwise is
// the last pair of `other` again.
fn join_last<K: Key, V: Join>(chunks: &mut Chunks<K, V>, other: &mut Chunks<K, V>) -> bool
    requires map { AreMapped K.cmp V.below V.is_valid chunks.old }
    requires other { AreChunks K.cmp other.old }
    requires some { 0 < length (all_pairs other.old) }
    ensures map { AreMapped K.cmp V.below V.is_valid chunks.new }
    ensures other { AreChunks K.cmp other.new }
    ensures joined { OnTrue result
        (IsLastJoined K.cmp V.below (all_pairs chunks.old) (all_pairs other.old)
        (all_pairs chunks.new) (all_pairs other.new)) }
    ensures stopped { OnFalse result
        (IsLastStopped K.cmp V.below V.is_valid V.is_single (all_pairs chunks.old)
        (all_pairs other.old) (all_pairs chunks.new) (all_pairs other.new)) }
{
    let last = other.last_run();
    let mut run = other.take(last);
    let is_joined = join_popped(chunks, &mut run);
    other.give_back(run);
    is_joined
}

// Joins all pairs of `other`, beginning with the last, and returns whether all were joined. Costs a search for each, and
// for each new key a shift of at most one run. Empty `chunks` take over `other`.
pub fn join_chunks<K: Key, V: Join>(chunks: &mut Chunks<K, V>, other: &mut Chunks<K, V>) -> bool
    requires map { AreMapped K.cmp V.below V.is_valid chunks.old }
    requires other_map { AreMapped K.cmp V.below V.is_valid other.old }
    ensures chunks { AreChunks K.cmp chunks.new }
    ensures other_chunks { AreChunks K.cmp other.new }
    ensures joined { ArePairsJoined K.cmp V.below V.is_valid V.is_single result
        (all_pairs chunks.old) (all_pairs other.old) (all_pairs chunks.new) (all_pairs other.new) }
{
    if chunks.is_empty() {
        mem::swap(chunks, other);
        return true;
    }
    while !other.is_empty() {
        if !join_last(chunks, other) {
            return false;
        }
    }
    true
}

// Joins copies of pairs into the run to which their keys fall, which has room for them all, or has their keys.
fn join_in_run<K: Key, V: Join>(
    chunks: &mut Chunks<K, V>,
    at: usize,
    pairs: &[(K, V)],
) -> Result<(), AllocError>
    requires map { AreMapped K.cmp V.below V.is_valid chunks.old }
    requires within { at ≤ length chunks.old.1 }
    requires pairs_map { IsMap K.cmp V.below V.is_valid pairs.now }
    requires falls { AllKeys (λ q. FallsTo K.cmp q chunks.old.1 at) pairs.now }
    requires room { IsRoomFor K.cmp (run_at chunks.old.0 chunks.old.1 at) pairs.now }
    ensures chunks { AreChunks K.cmp chunks.new }
    ensures joined { AreCopiesJoined K.cmp V.below V.is_valid V.is_single result
        (all_pairs chunks.old) pairs.now (all_pairs chunks.new) }
    ensures known { MapBelow K.cmp V.below pairs.now (all_pairs chunks.old) → IsOk result }
{
    let mut run = chunks.take(at);
    let outcome = join_copies(&mut run, pairs);
    chunks.put(at, run);
    outcome
}

// Joins copies of the first of some sorted pairs, as many as one run takes, and returns how many. Where the first key is
// new and its run doesn't take one more, the run is cut in two.
fn join_some<K: Key, V: Join>(
    chunks: &mut Chunks<K, V>,
    pairs: &[(K, V)],
) -> Result<usize, AllocError>
    requires map { AreMapped K.cmp V.below V.is_valid chunks.old }
    requires pairs_map { IsMap K.cmp V.below V.is_valid pairs.now }
    requires some { 0 < length pairs.now }
    ensures map { AreMapped K.cmp V.below V.is_valid chunks.new }
    ensures some { IfOk result (λ count. 0 < count) }
    ensures within { IfOk result (λ count. count ≤ length pairs.now) }
    ensures joined { IfOk result (λ count. IsJoin (MapBelow K.cmp V.below) (all_pairs chunks.old)
        (take count pairs.now) (all_pairs chunks.new)) }
    ensures refused { OnErr result
        (IsBetween (MapBelow K.cmp V.below) (all_pairs chunks.old) pairs.now
        (all_pairs chunks.new)) }
    ensures single { OnErr result
        (IsSinglePair V.is_single pairs.now → all_pairs chunks.new ≡ all_pairs chunks.old) }
    ensures known { MapBelow K.cmp V.below pairs.now (all_pairs chunks.old) → IsOk result }
{
    let at = place_for(chunks, &pairs[0].0)?.run;
    let count = chunks.fitting(at, pairs).min(room_in(chunks.run(at)));
    join_in_run(chunks, at, &pairs[..count])?;
    Ok(count)
}

// Returns how many pairs a run has room for, but one for a full run, whose keys may be joined.
fn room_in<K, V>(run: &[(K, V)]) -> usize
    requires within { length run.now ≤ 128 }
    ensures some { 0 < result }
    ensures room { length run.now < 128 → length run.now + result ≤ 128 }
    ensures full { 128 ≤ length run.now → result ≤ 1 }
{
    if run.len() < MOST {
        MOST - run.len()
    } else {
        1
    }
}

// Joins copies of sorted pairs, one run at a time.
pub fn join_slice<K: Key, V: Join>(
    chunks: &mut Chunks<K, V>,
    pairs: &[(K, V)],
) -> Result<(), AllocError>
    requires map { AreMapped K.cmp V.below V.is_valid chunks.old }
    requires pairs_map { IsMap K.cmp V.below V.is_valid pairs.now }
    ensures chunks { AreChunks K.cmp chunks.new }
    ensures joined { AreCopiesJoined K.cmp V.below V.is_valid V.is_single result
        (all_pairs chunks.old) pairs.now (all_pairs chunks.new) }
    ensures known { MapBelow K.cmp V.below pairs.now (all_pairs chunks.old) → IsOk result }
{
    let mut left = pairs;
    while !left.is_empty() {
        let count = join_some(chunks, left)?;
        left = &left[count..];
    }
    Ok(())
}
