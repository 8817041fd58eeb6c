//! Edits of a map in chunks: a run changes places with the first one, is edited there as one vector, and goes back.
ghost use Rattle.std.specs.{Prelude.{◌≡◌, ◌<◌, ◌≤◌, false, length, IsTrue, IsSome, IsOk, IfOk, OnErr}, FinMap.{find}};
ghost use Rattle.chunked_pairs.specs.Chunks.{all_pairs, FallsTo, run_at};
ghost use Rattle.join_maps.specs.{Held.{AreMapped}, Outcomes.{IsPairJoined, IsPosition}};

use chunked_pairs::{Chunks, HALF, MOST, Position, seek_by};
use join_law::{Join, Rest, join_pair};
use plain_values::Key;
use std::alloc::AllocError;

// Returns where a key stands, or would be inserted, in a run that has room for it. Takes no memory if the key is held. A
// refusal changes nothing.
#[inline(always)]
pub fn place_for<K: Key, V: Join>(
    chunks: &mut Chunks<K, V>,
    key: &K,
) -> Result<Position, AllocError>
    requires map { AreMapped K.cmp V.below V.is_valid chunks.old }
    ensures map { AreMapped K.cmp V.below V.is_valid chunks.new }
    ensures same { all_pairs chunks.new ≡ all_pairs chunks.old }
    ensures err { OnErr result (chunks.new ≡ chunks.old) }
    ensures known { IsSome (find K.cmp key.now (all_pairs chunks.old)) → IsOk result }
    ensures position { IfOk result (λ p. IsPosition K.cmp key.now chunks.new p.run p.index) }
{
    let position = chunks.seek(key);
    match position.index {
        Ok(_) => Ok(position),
        Err(at) => {
            if takes_one(chunks, position.run, at) {
                return Ok(position);
            }
            cut_for(chunks, key, position.run)
        }
    }
}

// Returns whether a run takes one more pair at an index as it is: half of a full run does, and one that isn't full where
// it grows at an end of all pairs. So pairs that come in order fill their runs, and others find short ones, of which few
// pairs move.
fn takes_one<K: Key, V: Join>(chunks: &Chunks<K, V>, run: usize, at: usize) -> bool
    requires within { run ≤ length chunks.now.1 }
    ensures room { IsTrue result → length (run_at chunks.now.0 chunks.now.1 run) < MOST }
    ensures long { result ≡ false → HALF ≤ length (run_at chunks.now.0 chunks.now.1 run) }
{
    let len = chunks.run(run).len();
    if len < HALF {
        return true;
    }
    let is_first = run == 0 && at == 0;
    let is_last = run == chunks.last_run() && at == len;
    len < MOST && (is_first || is_last)
}

// Cuts the run to which a new key falls in two. A refusal changes nothing.
fn cut_for<K: Key, V: Join>(
    chunks: &mut Chunks<K, V>,
    key: &K,
    at: usize,
) -> Result<Position, AllocError>
    requires map { AreMapped K.cmp V.below V.is_valid chunks.old }
    requires within { at ≤ length chunks.old.1 }
    requires falls { FallsTo K.cmp key.now chunks.old.1 at }
    requires long { 1 < length (run_at chunks.old.0 chunks.old.1 at) }
    ensures map { AreMapped K.cmp V.below V.is_valid chunks.new }
    ensures same { all_pairs chunks.new ≡ all_pairs chunks.old }
    ensures err { OnErr result (chunks.new ≡ chunks.old) }
    ensures position { IfOk result (λ p. IsPosition K.cmp key.now chunks.new p.run p.index) }
{
    let run = chunks.cut_for_key(key, at)?;
    Ok(Position {
        run,
        index: seek_by(chunks.run(run), key),
    })
}

// Joins one pair, and returns whether its key was added. A bottom value changes nothing.
pub fn join_key<K: Key, V: Join>(
    chunks: &mut Chunks<K, V>,
    key: K,
    value: V,
) -> Result<bool, Rest<(K, V)>>
    requires map { AreMapped K.cmp V.below V.is_valid chunks.old }
    ensures map { AreMapped K.cmp V.below V.is_valid chunks.new }
    ensures joined { IsPairJoined K.cmp V.below V.is_valid V.is_single V.joins_in_place result key
        value (all_pairs chunks.old) (all_pairs chunks.new) }
{
    if value.is_bottom() {
        return Ok(false);
    }
    match place_for(chunks, &key) {
        Ok(position) => {
            chunks.swap(position.run);
            let outcome = join_pair(&mut chunks.first, position.index, key, value);
            chunks.swap(position.run);
            outcome
        }
        Err(_) => Err(Rest { rest: (key, value) }),
    }
}
