//! Joining an owned pair into sorted pairs.
ghost use Rattle.std.specs.{Prelude.{◌≡◌, ◌↔◌, ◌<◌, ◌≤◌, [], ◌∷◌, false, None, length, IsTrue, IsSome, IsOk, IfOk, OnOk, IfErr}, FinMap.{find}};
ghost use Rattle.sorted_pairs.specs.Places.{IsAt, IsGap};
ghost use Rattle.join_law.specs.{Maps.{IsMap, MapBelow}, Order.{IsJoin, IsLeast, IsPartialJoin}};

use crate::inserts::insert_pair;
use crate::joins::{Join, Rest};
use plain_values::Key;

/// Joins one pair at the index of its key, or at which it would be inserted, and returns whether it was added. A bottom
/// value changes nothing. A new key costs a shift of the pairs after it.
///
/// Fails only if memory runs out: the pairs then lie between what they were and the join, and joining the `rest`, which
/// has the same key, completes the join.
pub fn join_pair<K: Key, V: Join>(
    pairs: &mut Vec<(K, V)>,
    index: Result<usize, usize>,
    key: K,
    value: V,
) -> Result<bool, Rest<(K, V)>>
    requires map { IsMap K.cmp V.below V.is_valid pairs.old.items }
    requires found { IfOk index (IsAt K.cmp key pairs.old.items) }
    requires absent { IfErr index (IsGap K.cmp key pairs.old.items) }
    requires at_within { IfOk index (λ at. at < length pairs.old.items) }
    requires gap_within { IfErr index (λ at. at ≤ length pairs.old.items) }
    ensures map { IsMap K.cmp V.below V.is_valid pairs.new.items }
    ensures ok { OnOk result (IsJoin (MapBelow K.cmp V.below) pairs.old.items
        ((key, value) ∷ []) pairs.new.items) }
    ensures added { IfOk result (λ added. IsTrue added ↔
        ((find K.cmp key pairs.old.items ≡ None) × ¬ IsLeast V.below value)) }
    ensures key { IfErr result (λ fault. fault.rest.0 ≡ key) }
    ensures refused { IfErr result (λ fault. IsPartialJoin (MapBelow K.cmp V.below) pairs.old.items
        ((key, value) ∷ []) pairs.new.items (fault.rest ∷ [])) }
    ensures left { IfErr result (λ fault. ¬ IsLeast V.below fault.rest.1) }
    ensures rest_valid { IfErr result (λ fault. V.is_valid fault.rest.1) }
    ensures single { IfErr result (λ _. V.is_single value → pairs.new.items ≡ pairs.old.items) }
    ensures in_place { V.joins_in_place → IsSome (find K.cmp key pairs.old.items) → IsOk result }
{
    if value.is_bottom() {
        return Ok(false);
    }
    match index {
        Ok(at) => join_value(pairs, at, key, value),
        Err(at) => match insert_pair(pairs, at, (key, value)) {
            Ok(()) => Ok(true),
            Err(fault) => Err(Rest { rest: fault.value }),
        },
    }
}

/// Joins a value into the one at an index, which has its key. No key is added, and no pair moves.
///
/// Fails only if memory runs out, as `join_pair` does.
pub fn join_value<K: Key, V: Join>(
    pairs: &mut [(K, V)],
    at: usize,
    key: K,
    value: V,
) -> Result<bool, Rest<(K, V)>>
    requires map { IsMap K.cmp V.below V.is_valid pairs.old }
    requires found { IsAt K.cmp key pairs.old at }
    requires within { at < length pairs.old }
    ensures map { IsMap K.cmp V.below V.is_valid pairs.new }
    ensures ok { OnOk result
        (IsJoin (MapBelow K.cmp V.below) pairs.old ((key, value) ∷ []) pairs.new) }
    ensures added { IfOk result (λ added. added ≡ false) }
    ensures key { IfErr result (λ fault. fault.rest.0 ≡ key) }
    ensures refused { IfErr result (λ fault. IsPartialJoin (MapBelow K.cmp V.below) pairs.old
        ((key, value) ∷ []) pairs.new (fault.rest ∷ [])) }
    ensures left { IfErr result (λ fault. ¬ IsLeast V.below fault.rest.1) }
    ensures rest_valid { IfErr result (λ fault. V.is_valid fault.rest.1) }
    ensures single { IfErr result (λ _. V.is_single value → pairs.new ≡ pairs.old) }
    ensures in_place { V.joins_in_place → IsOk result }
{
    let place = &mut pairs[at];
    match place.1.join_from(value) {
        Ok(()) => Ok(false),
        Err(Rest { rest }) => Err(Rest { rest: (key, rest) }),
    }
}
