//! Joins into what a map holds.
ghost use Rattle.std.specs.Prelude.{◌≡◌, ◌<◌, length, IsOk, OnOk, IfErr};
ghost use Rattle.join_maps.specs.Held.{AreMapped, HasSeat, HaveSeats, held_pairs, IsHeldMap};
ghost use Rattle.join_law.specs.{Maps.{IsMap, IsSinglePair, MapBelow}, Order.{IsJoin, IsPartialJoin}};
ghost use Rattle.chunked_pairs.specs.Chunks.{all_pairs};
ghost use Rattle.join_maps.specs.Outcomes.{AreCopiesJoined, IsPairJoined};

use crate::copies::join_value_copy;
use crate::held::{Held, only};
use crate::maps::JoinMap;
use crate::merges::{join_chunks, join_slice};
use crate::runs::join_key;
use chunked_pairs::Chunks;
use join_law::{Join, Rest, join_value};
use plain_values::Key;
use std::alloc::AllocError;

// Joins one pair, and returns whether its key was added. A bottom value changes nothing.
pub fn join_held<K: Key, V: Join>(
    held: &mut Held<K, V>,
    key: K,
    value: V,
) -> Result<bool, Rest<(K, V)>>
    requires map { IsHeldMap K.cmp V.below V.is_valid held.old }
    ensures map { IsHeldMap K.cmp V.below V.is_valid held.new }
    ensures joined { IsPairJoined K.cmp V.below V.is_valid V.is_single V.joins_in_place result key
        value (held_pairs held.old) (held_pairs held.new) }
{
    if value.is_bottom() {
        return Ok(false);
    }
    match held.seat(&key) {
        Ok(()) => join_seated(held, key, value),
        Err(_) => Err(Rest { rest: (key, value) }),
    }
}

// The same, where the key has a seat.
#[inline(always)]
fn join_seated<K: Key, V: Join>(
    held: &mut Held<K, V>,
    key: K,
    value: V,
) -> Result<bool, Rest<(K, V)>>
    requires map { IsHeldMap K.cmp V.below V.is_valid held.old }
    requires seat { HasSeat K.cmp key held.old }
    ensures map { IsHeldMap K.cmp V.below V.is_valid held.new }
    ensures joined { IsPairJoined K.cmp V.below V.is_valid V.is_single V.joins_in_place result key
        value (held_pairs held.old) (held_pairs held.new) }
{
    match held {
        Held::Alone(_, alone) => join_value(&mut alone[..], 0, key, value),
        Held::Runs(chunks) => join_key(chunks, key, value),
    }
}

// Joins all that another map held. If memory runs out, joining what is left completes the join.
pub fn join_all<K: Key, V: Join>(
    held: &mut Held<K, V>,
    other: Held<K, V>,
) -> Result<(), Rest<Held<K, V>>>
    requires map { IsHeldMap K.cmp V.below V.is_valid held.old }
    requires other_map { IsHeldMap K.cmp V.below V.is_valid other }
    ensures map { IsHeldMap K.cmp V.below V.is_valid held.new }
    ensures ok { OnOk result
        (IsJoin (MapBelow K.cmp V.below) (held_pairs held.old) (held_pairs other)
        (held_pairs held.new)) }
    ensures refused { IfErr result
        (λ fault. IsPartialJoin (MapBelow K.cmp V.below) (held_pairs held.old) (held_pairs other)
        (held_pairs held.new) (held_pairs fault.rest)) }
    ensures single { IfErr result (λ _. IsSinglePair V.is_single (held_pairs other) →
        held_pairs held.new ≡ held_pairs held.old) }
    ensures rest_map { IfErr result (λ fault. IsHeldMap K.cmp V.below V.is_valid fault.rest) }
{
    match other {
        Held::Alone(alloc, alone) => {
            let (key, value) = only(alone);
            match join_held(held, key, value) {
                Ok(_) => Ok(()),
                Err(Rest { rest }) => Err(Rest {
                    rest: Held::Alone(alloc, [rest]),
                }),
            }
        }
        Held::Runs(chunks) => match join_runs(held, chunks) {
            Ok(()) => Ok(()),
            Err(Rest { rest }) => Err(Rest {
                rest: Held::Runs(rest),
            }),
        },
    }
}

// Joins all pairs of some runs.
fn join_runs<K: Key, V: Join>(
    held: &mut Held<K, V>,
    mut other: Chunks<K, V>,
) -> Result<(), Rest<Chunks<K, V>>>
    requires map { IsHeldMap K.cmp V.below V.is_valid held.old }
    requires other_map { AreMapped K.cmp V.below V.is_valid other }
    ensures map { IsHeldMap K.cmp V.below V.is_valid held.new }
    ensures ok { OnOk result
        (IsJoin (MapBelow K.cmp V.below) (held_pairs held.old) (all_pairs other)
        (held_pairs held.new)) }
    ensures refused { IfErr result
        (λ fault. IsPartialJoin (MapBelow K.cmp V.below) (held_pairs held.old) (all_pairs other)
        (held_pairs held.new) (all_pairs fault.rest)) }
    ensures single { IfErr result (λ _. IsSinglePair V.is_single (all_pairs other) →
        held_pairs held.new ≡ held_pairs held.old) }
    ensures rest_map { IfErr result (λ fault. AreMapped K.cmp V.below V.is_valid fault.rest) }
{
    if other.is_empty() {
        return Ok(());
    }
    if held.spread().is_err() {
        return Err(Rest { rest: other });
    }
    match held {
        Held::Alone(_, _) => unreachable!(),
        Held::Runs(chunks) => {
            if join_chunks(chunks, &mut other) {
                return Ok(());
            }
            Err(Rest { rest: other })
        }
    }
}

// Joins copies of what another map has more, one run of it after another.
pub fn join_all_copies<K: Key, V: Join>(
    held: &mut Held<K, V>,
    other: &JoinMap<K, V>,
) -> Result<(), AllocError>
    requires map { IsHeldMap K.cmp V.below V.is_valid held.old }
    ensures map { IsHeldMap K.cmp V.below V.is_valid held.new }
    ensures joined { AreCopiesJoined K.cmp V.below V.is_valid V.is_single result
        (held_pairs held.old) other.now (held_pairs held.new) }
    ensures known { MapBelow K.cmp V.below other.now (held_pairs held.old) → IsOk result }
{
    let mut left = other.pairs();
    while let Some(run) = left.next_run() {
        join_run_copies(held, run)?;
    }
    Ok(())
}

// Joins copies of sorted pairs.
fn join_run_copies<K: Key, V: Join>(
    held: &mut Held<K, V>,
    pairs: &[(K, V)],
) -> Result<(), AllocError>
    requires map { IsHeldMap K.cmp V.below V.is_valid held.old }
    requires pairs_map { IsMap K.cmp V.below V.is_valid pairs.now }
    requires some { 0 < length pairs.now }
    ensures map { IsHeldMap K.cmp V.below V.is_valid held.new }
    ensures joined { AreCopiesJoined K.cmp V.below V.is_valid V.is_single result
        (held_pairs held.old) pairs.now (held_pairs held.new) }
    ensures known { MapBelow K.cmp V.below pairs.now (held_pairs held.old) → IsOk result }
{
    held.seat_all(pairs)?;
    join_seated_copies(held, pairs)
}

// The same, where the keys have seats.
fn join_seated_copies<K: Key, V: Join>(
    held: &mut Held<K, V>,
    pairs: &[(K, V)],
) -> Result<(), AllocError>
    requires map { IsHeldMap K.cmp V.below V.is_valid held.old }
    requires pairs_map { IsMap K.cmp V.below V.is_valid pairs.now }
    requires some { 0 < length pairs.now }
    requires seats { HaveSeats K.cmp pairs.now held.old }
    ensures map { IsHeldMap K.cmp V.below V.is_valid held.new }
    ensures joined { AreCopiesJoined K.cmp V.below V.is_valid V.is_single result
        (held_pairs held.old) pairs.now (held_pairs held.new) }
    ensures known { MapBelow K.cmp V.below pairs.now (held_pairs held.old) → IsOk result }
{
    match held {
        Held::Alone(_, alone) => {
            let pair = &pairs[0];
            join_value_copy(&mut alone[..], 0, &pair.0, &pair.1)
        }
        Held::Runs(chunks) => join_slice(chunks, pairs),
    }
}
