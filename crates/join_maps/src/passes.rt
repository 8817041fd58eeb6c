//! One pass over sorted pairs that joins copies of many other pairs into them.
ghost use Rattle.std.specs.Prelude.{◌≡◌, ◌+◌, ◌<◌, ◌≤◌, ◌++◌, [], ◌∷◌, length, vec_len, vec_capacity, IsOk, OnOk, OnErr, IfErr};
ghost use Rattle.std.specs.{VecDeque.{deque_len}, declared.cmp.Ordering.TheVariants.{Less}, Bool.{OnTrue, OnFalse}};
ghost use Rattle.sorted_pairs.specs.Places.{IsAt, IsGap, AreBelow, IsNotBelow};
ghost use Rattle.join_law.specs.{Maps.{IsHeld, IsMap, MapBelow}, Order.{IsBetween, IsJoin, IsLeast, IsPartialJoin}};
ghost use Rattle.join_maps.specs.Outcomes.{AreCopiesJoined, ArePairsJoined};

use join_law::Join;
use plain_values::Key;
use sorted_pairs::{pass_all, pass_below};
use std::alloc::AllocError;
use std::collections::VecDeque;
use std::mem;

// Returns whether a search for each of `pairs` is cheaper than one pass over both lists, where `held` pairs are held.
pub fn are_few(pairs: usize, held: usize) -> bool
    ensures many { OnFalse result (1 < pairs) }
{
    pairs <= 1 || pairs < held / 64
}

// Returns whether the first pair ahead has this key.
fn is_first<K: Key, V>(ahead: &VecDeque<(K, V)>, key: &K) -> bool
    requires next { IsNotBelow K.cmp key.now ahead.now.items }
    ensures at { OnTrue result (IsAt K.cmp key.now ahead.now.items 0) }
    ensures gap { OnFalse result (IsGap K.cmp key.now ahead.now.items 0) }
{
    match ahead.front() {
        Some(next) => key.cmp(&next.0).is_eq(),
        None => false,
    }
}

// Joins a copy of one pair, whose key is above all passed keys and not above those ahead.
fn place_copy<K: Key, V: Join>(
    passed: &mut Vec<(K, V)>,
    ahead: &mut VecDeque<(K, V)>,
    key: &K,
    value: &V,
) -> Result<(), AllocError>
    requires room { vec_len passed.old + deque_len ahead.old + 1 ≤ vec_capacity passed.old }
    requires map { IsMap K.cmp V.below V.is_valid (passed.old.items ++ ahead.old.items) }
    requires held { IsHeld V.below V.is_valid value.now }
    requires below { AreBelow K.cmp key.now passed.old.items }
    requires next { IsNotBelow K.cmp key.now ahead.old.items }
    ensures map { IsMap K.cmp V.below V.is_valid (passed.new.items ++ ahead.new.items) }
    ensures ok { OnOk result (IsJoin (MapBelow K.cmp V.below) (passed.old.items ++ ahead.old.items)
        ((key.now, value.now) ∷ []) (passed.new.items ++ ahead.new.items)) }
    ensures refused { OnErr result
        (IsBetween (MapBelow K.cmp V.below) (passed.old.items ++ ahead.old.items)
        ((key.now, value.now) ∷ []) (passed.new.items ++ ahead.new.items)) }
    ensures single { OnErr result (V.is_single value.now → passed.new.items ++ ahead.new.items ≡
        passed.old.items ++ ahead.old.items) }
    ensures below { (next : K) → K.cmp key.now next ≡ Less → AreBelow K.cmp next passed.new.items }
    ensures len { vec_len passed.new + deque_len ahead.new
        ≤ vec_len passed.old + deque_len ahead.old + 1 }
    ensures capacity { vec_capacity passed.old ≤ vec_capacity passed.new }
{
    if is_first(ahead, key) {
        let place = &mut ahead[0];
        place.1.join_copy(value)?;
        return Ok(());
    }
    let copy = key.try_clone()?;
    match passed.push((copy, value.try_clone()?)) {
        Ok(()) => Ok(()),
        Err(_) => unreachable!(),
    }
}

// Joins copies of what `other` has more.
fn pass_copies<K: Key, V: Join>(
    passed: &mut Vec<(K, V)>,
    ahead: &mut VecDeque<(K, V)>,
    other: &[(K, V)],
) -> Result<(), AllocError>
    requires room { deque_len ahead.old + length other.now ≤ vec_capacity passed.old }
    requires none { passed.old.items ≡ [] }
    requires map { IsMap K.cmp V.below V.is_valid ahead.old.items }
    requires other_map { IsMap K.cmp V.below V.is_valid other.now }
    ensures joined { AreCopiesJoined K.cmp V.below V.is_valid V.is_single result ahead.old.items
        other.now (passed.new.items ++ ahead.new.items) }
    ensures room { vec_len passed.new + deque_len ahead.new ≤ vec_capacity passed.new }
{
    for pair in other {
        pass_below(passed, ahead, &pair.0);
        place_copy(passed, ahead, &pair.0, &pair.1)?;
    }
    Ok(())
}

// Joins copies of what `other` has more, with one allocation and one pass over both lists. Linear.
pub fn join_copies_in_one<K: Key, V: Join>(
    pairs: &mut Vec<(K, V)>,
    other: &[(K, V)],
) -> Result<(), AllocError>
    requires maps { IsMap K.cmp V.below V.is_valid pairs.old.items
        × IsMap K.cmp V.below V.is_valid other.now }
    ensures joined { AreCopiesJoined K.cmp V.below V.is_valid V.is_single result pairs.old.items
        other.now pairs.new.items }
{
    let alloc = *pairs.allocator();
    let room = pairs.len().checked_add(other.len()).ok_or(AllocError)?;
    let mut passed = Vec::with_capacity(alloc, room)?;
    let mut ahead = VecDeque::from_vec(mem::replace(pairs, Vec::new(alloc)));
    let outcome = pass_copies(&mut passed, &mut ahead, other);
    pass_all(&mut passed, &mut ahead);
    *pairs = passed;
    outcome
}
