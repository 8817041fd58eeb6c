//! Joins of one value into maps of maps, at any depth.
ghost use Rattle.std.specs.{Prelude.{◌≡◌, ◌↔◌, ◌<◌, ◌≤◌, [], ◌∷◌, Bool, false, None, length, IsTrue, IsOk, IfOk, IfErr, OnOk, OnErr}, Option.{IfNone, IfSome}};
ghost use Rattle.std.specs.FinMap.{find};
ghost use Rattle.chunked_pairs.specs.Chunks.{all_pairs};
ghost use Rattle.sorted_pairs.specs.Places.{IsAt, IsGap};
ghost use Rattle.join_maps.specs.Held.{AreMapped, held_pairs, IsHeldMap};
ghost use Rattle.join_law.specs.{Maps.{is_none_or, IsHeld, IsMap, MapBelow}, Order.{IsBetween, IsJoin, IsLeast}};

use crate::held::Held;
use crate::maps::JoinMap;
use crate::runs::place_for;
use chunked_pairs::Chunks;
use join_law::{Join, insert_pair};
use plain_values::Key;
use std::alloc::{AllocError, Global};

/// Something that can be joined into a value.
pub trait Addition: Drop {
    /// The type of values that it is joined into.
    type Value: Join;

    // The value that it joins.
    ghost added: { Self → Self.Value };

    // Whether it adds a key that the value doesn't hold.
    ghost is_new: { Self → Self.Value → Bool };

    // Holds if joining it at a key that is held allocates nothing.
    ghost joins_in_place: { Type 0 };

    /// Joins it into `value`, and returns whether a key was added. A bottom value never adds a key.
    ///
    /// Fails only if memory runs out. The value then lies between its old state and the join; if the addition is
    /// single, it is unchanged.
    fn join_to(self, value: &mut Self::Value) -> Result<bool, AllocError>
        ensures ok { OnOk result (IsJoin Self.Value.below value.old (added self) value.new) }
        ensures added { IfOk result (λ is_added. IsTrue is_added ↔
            (IsTrue (is_new self value.old) × ¬ IsLeast Self.Value.below (added self))) }
        ensures refused { OnErr result
            (IsBetween Self.Value.below value.old (added self) value.new) }
        ensures single { OnErr result (Self.Value.is_single (added self) → value.new ≡ value.old) }
        ensures in_place { joins_in_place → is_new self value.old ≡ false → IsOk result }
        ensures valid { Self.Value.is_valid value.new };

    /// Returns the added value on its own, or `None` if it is a bottom value. Fails only if memory runs out.
    fn into_value(self, alloc: Global) -> Result<Option<Self::Value>, AllocError>
        ensures value { IfOk result (λ made. IfSome made (λ value. value ≡ added self)) }
        ensures held { IfOk result
            (λ made. IfSome made (IsHeld Self.Value.below Self.Value.is_valid)) }
        ensures none { IfOk result (λ made. IfNone made (IsLeast Self.Value.below (added self))) };
}

/// Adds a value by joining it into another value of its type.
#[derive(Drop)]
pub struct AddValue<V> {
    /// The value to join.
    pub value: V,
}

impl<V: Join> Addition for AddValue<V> {
    type Value = V;

    ghost added = { λ a. a.value };

    ghost is_new = { λ _ _. false };

    ghost joins_in_place = { V.joins_in_place };

    fn join_to(self, value: &mut V) -> Result<bool, AllocError> {
        match value.join_from(self.value) {
            Ok(()) => Ok(false),
            Err(_) => Err(AllocError),
        }
    }

    fn into_value(self, _alloc: Global) -> Result<Option<V>, AllocError> {
        if self.value.is_bottom() {
            return Ok(None);
        }
        Ok(Some(self.value))
    }
}

/// Adds something to the value at a key of a map. For maps of maps, nest it: an `AddAt` of an `AddAt`.
#[derive(Drop)]
pub struct AddAt<K, A> {
    /// The key.
    pub key: K,
    /// What to add there.
    pub addition: A,
}

impl<K: Key, A: Addition> Addition for AddAt<K, A> {
    type Value = JoinMap<K, A::Value>;

    ghost use Rattle.join_law.specs.Maps.{is_none_or};

    ghost added = { λ a. (a.key, A.added a.addition) ∷ [] };

    ghost is_new = { λ a map. is_none_or (A.is_new a.addition) (find K.cmp a.key map) };

    ghost joins_in_place = { A.joins_in_place };

    /// Costs a search and at most one shift of the pairs in each map. Creates a map only to hold the value.
    #[inline(always)]
    fn join_to(self, map: &mut JoinMap<K, A::Value>) -> Result<bool, AllocError> {
        if map.is_bottom() {
            let Some(made) = self.into_value(map.allocator())? else {
                return Ok(false);
            };
            *map = made;
            return Ok(true);
        }
        add_to_held(&mut map.held, self.key, self.addition)
    }

    fn into_value(self, alloc: Global) -> Result<Option<JoinMap<K, A::Value>>, AllocError> {
        match self.addition.into_value(alloc)? {
            Some(value) => Ok(Some(JoinMap::of_pair(alloc, self.key, value))),
            None => Ok(None),
        }
    }
}

// Joins at a key of what a map holds, and returns whether a key was added, here or in the value at the key.
#[inline(always)]
fn add_to_held<K: Key, A: Addition>(
    held: &mut Held<K, A::Value>,
    key: K,
    addition: A,
) -> Result<bool, AllocError>
    requires map { IsHeldMap K.cmp A.Value.below A.Value.is_valid held.old }
    ensures ok { OnOk result (IsJoin (MapBelow K.cmp A.Value.below) (held_pairs held.old)
        ((key, A.added addition) ∷ []) (held_pairs held.new)) }
    ensures added { IfOk result (λ is_added. IsTrue is_added ↔
        (IsTrue (is_none_or (A.is_new addition) (find K.cmp key (held_pairs held.old)))
        × ¬ IsLeast (MapBelow K.cmp A.Value.below) ((key, A.added addition) ∷ []))) }
    ensures refused { OnErr result (IsBetween (MapBelow K.cmp A.Value.below) (held_pairs held.old)
        ((key, A.added addition) ∷ []) (held_pairs held.new)) }
    ensures single { OnErr result
        (A.Value.is_single (A.added addition) → held_pairs held.new ≡ held_pairs held.old) }
    ensures in_place { A.joins_in_place
        → is_none_or (A.is_new addition) (find K.cmp key (held_pairs held.old)) ≡ false
        → IsOk result }
    ensures map { IsHeldMap K.cmp A.Value.below A.Value.is_valid held.new }
{
    held.seat(&key)?;
    match held {
        Held::Alone(_, alone) => add_to_value(&mut alone[..], key, addition),
        Held::Runs(chunks) => add_at_key(chunks, key, addition),
    }
}

// Joins at a key, and returns whether a key was added, here or in the value at the key.
#[inline(always)]
fn add_at_key<K: Key, A: Addition>(
    chunks: &mut Chunks<K, A::Value>,
    key: K,
    addition: A,
) -> Result<bool, AllocError>
    requires map { AreMapped K.cmp A.Value.below A.Value.is_valid chunks.old }
    ensures ok { OnOk result (IsJoin (MapBelow K.cmp A.Value.below) (all_pairs chunks.old)
        ((key, A.added addition) ∷ []) (all_pairs chunks.new)) }
    ensures added { IfOk result (λ is_added. IsTrue is_added ↔
        (IsTrue (is_none_or (A.is_new addition) (find K.cmp key (all_pairs chunks.old)))
        × ¬ IsLeast (MapBelow K.cmp A.Value.below) ((key, A.added addition) ∷ []))) }
    ensures refused { OnErr result (IsBetween (MapBelow K.cmp A.Value.below) (all_pairs chunks.old)
        ((key, A.added addition) ∷ []) (all_pairs chunks.new)) }
    ensures single { OnErr result
        (A.Value.is_single (A.added addition) → all_pairs chunks.new ≡ all_pairs chunks.old) }
    ensures in_place { A.joins_in_place
        → is_none_or (A.is_new addition) (find K.cmp key (all_pairs chunks.old)) ≡ false
        → IsOk result }
    ensures map { AreMapped K.cmp A.Value.below A.Value.is_valid chunks.new }
{
    let position = place_for(chunks, &key)?;
    chunks.swap(position.run);
    let outcome = join_at_key(&mut chunks.first, position.index, key, addition);
    chunks.swap(position.run);
    outcome
}

// Joins at the index of a key, or at which it would be inserted, and returns whether a key was added, here or in the
// value at the key.
fn join_at_key<K: Key, A: Addition>(
    pairs: &mut Vec<(K, A::Value)>,
    index: Result<usize, usize>,
    key: K,
    addition: A,
) -> Result<bool, AllocError>
    requires map { IsMap K.cmp A.Value.below A.Value.is_valid pairs.old.items }
    requires found { IfOk index (IsAt K.cmp key pairs.old.items) }
    requires absent { IfErr index (IsGap K.cmp key pairs.old.items) }
    requires at_within { IfOk index (λ at. at < length pairs.old.items) }
    requires gap_within { IfErr index (λ at. at ≤ length pairs.old.items) }
    ensures ok { OnOk result (IsJoin (MapBelow K.cmp A.Value.below) pairs.old.items
        ((key, A.added addition) ∷ []) pairs.new.items) }
    ensures added { IfOk result (λ is_added. IsTrue is_added ↔
        (IsTrue (is_none_or (A.is_new addition) (find K.cmp key pairs.old.items))
        × ¬ IsLeast (MapBelow K.cmp A.Value.below) ((key, A.added addition) ∷ []))) }
    ensures refused { OnErr result (IsBetween (MapBelow K.cmp A.Value.below) pairs.old.items
        ((key, A.added addition) ∷ []) pairs.new.items) }
    ensures single { OnErr result
        (A.Value.is_single (A.added addition) → pairs.new.items ≡ pairs.old.items) }
    ensures in_place { A.joins_in_place →
        is_none_or (A.is_new addition) (find K.cmp key pairs.old.items) ≡ false → IsOk result }
    ensures map { IsMap K.cmp A.Value.below A.Value.is_valid pairs.new.items }
{
    match index {
        Ok(at) => {
            let place = &mut pairs[at];
            addition.join_to(&mut place.1)
        }
        Err(at) => match addition.into_value(*pairs.allocator())? {
            Some(value) => {
                insert_pair(pairs, at, (key, value))?;
                Ok(true)
            }
            None => Ok(false),
        },
    }
}

// Joins into the value of a pair that stands alone, which has the key, and returns whether a key was added in it.
fn add_to_value<K: Key, A: Addition>(
    pairs: &mut [(K, A::Value)],
    key: K,
    addition: A,
) -> Result<bool, AllocError>
    requires map { IsMap K.cmp A.Value.below A.Value.is_valid pairs.old }
    requires found { IsAt K.cmp key pairs.old 0 }
    requires within { 0 < length pairs.old }
    ensures ok { OnOk result
        (IsJoin (MapBelow K.cmp A.Value.below) pairs.old ((key, A.added addition) ∷ []) pairs.new) }
    ensures added { IfOk result (λ is_added. IsTrue is_added ↔
        (IsTrue (is_none_or (A.is_new addition) (find K.cmp key pairs.old))
        × ¬ IsLeast (MapBelow K.cmp A.Value.below) ((key, A.added addition) ∷ []))) }
    ensures refused { OnErr result (IsBetween (MapBelow K.cmp A.Value.below) pairs.old
        ((key, A.added addition) ∷ []) pairs.new) }
    ensures single { OnErr result (A.Value.is_single (A.added addition) → pairs.new ≡ pairs.old) }
    ensures in_place { A.joins_in_place →
        is_none_or (A.is_new addition) (find K.cmp key pairs.old) ≡ false → IsOk result }
    ensures map { IsMap K.cmp A.Value.below A.Value.is_valid pairs.new }
{
    let _key = key;
    let place = &mut pairs[0];
    addition.join_to(&mut place.1)
}
