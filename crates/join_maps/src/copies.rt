//! Joining copies of pairs into sorted pairs.
ghost use Rattle.std.specs.{Prelude.{◌≡◌, ◌↔◌, ◌<◌, ◌≤◌, None, [], ◌∷◌, length, map, vec_len, IsTrue, IsOk, IfOk, OnOk, OnErr}, Bool.{OnTrue, OnFalse}};
ghost use Rattle.std.specs.{FinMap.{find}, List.{insert}};
ghost use Rattle.sorted_pairs.specs.Places.{IsAt};
ghost use Rattle.join_law.specs.{Maps.{IsHeld, IsMap, MapBelow}, Order.{IsBetween, IsJoin}};
ghost use Rattle.join_maps.specs.Outcomes.{AreCopiesJoined};

use crate::passes::{are_few, join_copies_in_one};
use join_law::{Join, insert_pair};
use plain_values::Key;
use sorted_pairs::seek;
use std::alloc::AllocError;

// Joins a copy of one pair, where `left` counts this pair and those after it, and returns whether it did. If the key is
// new and many pairs are left, it does nothing: one pass over both lists is then cheaper.
fn join_pair_copy<K: Key, V: Join>(
    pairs: &mut Vec<(K, V)>,
    key: &K,
    value: &V,
    left: usize,
) -> Result<bool, AllocError>
    requires map { IsMap K.cmp V.below V.is_valid pairs.old.items }
    requires held { IsHeld V.below V.is_valid value.now }
    ensures map { IsMap K.cmp V.below V.is_valid pairs.new.items }
    ensures ok { IfOk result
        (λ joined. OnTrue joined
        (IsJoin (MapBelow K.cmp V.below) pairs.old.items
        ((key.now, value.now) ∷ []) pairs.new.items)) }
    ensures absent { IfOk result
        (λ joined. OnFalse joined (find K.cmp key.now pairs.old.items ≡ None)) }
    ensures unchanged { IfOk result (λ joined. OnFalse joined (pairs.new.items ≡ pairs.old.items)) }
    ensures refused { OnErr result (IsBetween (MapBelow K.cmp V.below) pairs.old.items
        ((key.now, value.now) ∷ []) pairs.new.items) }
    ensures single { OnErr result (V.is_single value.now → pairs.new.items ≡ pairs.old.items) }
    ensures known { MapBelow K.cmp V.below ((key.now, value.now) ∷ []) pairs.old.items
        → IsOk result }
{
    match seek(pairs, key) {
        Ok(at) => {
            join_value_copy(pairs, at, key, value)?;
            Ok(true)
        }
        Err(at) => {
            if !are_few(left, pairs.len()) {
                return Ok(false);
            }
            insert_copy(pairs, at, key, value)?;
            Ok(true)
        }
    }
}

// Joins a copy of a value into the one at an index, which has its key.
pub fn join_value_copy<K: Key, V: Join>(
    pairs: &mut [(K, V)],
    at: usize,
    key: &K,
    value: &V,
) -> Result<(), AllocError>
    requires map { IsMap K.cmp V.below V.is_valid pairs.old }
    requires found { IsAt K.cmp key.now pairs.old at }
    requires within { at < length pairs.old }
    ensures map { IsMap K.cmp V.below V.is_valid pairs.new }
    ensures ok { OnOk result
        (IsJoin (MapBelow K.cmp V.below) pairs.old ((key.now, value.now) ∷ []) pairs.new) }
    ensures refused { OnErr result
        (IsBetween (MapBelow K.cmp V.below) pairs.old ((key.now, value.now) ∷ []) pairs.new) }
    ensures single { OnErr result (V.is_single value.now → pairs.new ≡ pairs.old) }
    ensures known { MapBelow K.cmp V.below ((key.now, value.now) ∷ []) pairs.old → IsOk result }
{
    let _key = key;
    let place = &mut pairs[at];
    place.1.join_copy(value)
}

// Inserts a copy of one pair. If memory runs out, nothing is inserted.
fn insert_copy<K: Key, V: Join>(
    pairs: &mut Vec<(K, V)>,
    at: usize,
    key: &K,
    value: &V,
) -> Result<(), AllocError>
    requires at { at ≤ vec_len pairs.old }
    ensures ok { OnOk result (pairs.new.items ≡ insert pairs.old.items at (key.now, value.now)) }
    ensures err { OnErr result (pairs.new.items ≡ pairs.old.items) }
{
    let copy = key.try_clone()?;
    insert_pair(pairs, at, (copy, value.try_clone()?))?;
    Ok(())
}

// Joins copies of what `other` has more. Searches for each key until one is new and many pairs are left; then it
// allocates once and makes one pass over both lists. Until the first new key it moves no pair.
pub fn join_copies<K: Key, V: Join>(
    pairs: &mut Vec<(K, V)>,
    other: &[(K, V)],
) -> Result<(), AllocError>
    requires map { IsMap K.cmp V.below V.is_valid pairs.old.items }
    requires other_map { IsMap K.cmp V.below V.is_valid other.now }
    ensures joined { AreCopiesJoined K.cmp V.below V.is_valid V.is_single result pairs.old.items
        other.now pairs.new.items }
    ensures known { MapBelow K.cmp V.below other.now pairs.old.items → IsOk result }
{
    for i in 0..other.len() {
        let pair = &other[i];
        if !join_pair_copy(pairs, &pair.0, &pair.1, other.len() - i)? {
            return join_copies_in_one(pairs, &other[i..]);
        }
    }
    Ok(())
}
