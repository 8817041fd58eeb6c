//! Maps whose values are joined key by key.
ghost use Rattle.std.specs.Prelude.{◌≡◌, ◌↔◌, [], ◌∷◌, ◌++◌, None, Some, length, map, IsTrue, IsSome, IsOk, IfOk, OnOk, IfErr, MatchOption};
ghost use Rattle.std.specs.{Option.{option_copied, option_to_list, IfNone, IfSome}, FinMap.{find}};
ghost use Rattle.join_law.specs.{Maps.{IsHeld, IsMap, MapBelow}, Order.{IsJoin, IsLeast, IsPartialJoin}};

use crate::held::Held;
use crate::meetings::{join_all, join_all_copies, join_held};
use crate::walks::{copy_chunks, copy_pair, keys_of, same_maps};
use chunked_pairs::{Chunks, Pairs, Sought, find_by};
use join_law::{Join, Rest};
use plain_values::Key;
use std::alloc::{AllocError, Global};
use std::marker::Model;

/// A map from keys to values with a join; two maps are joined key by key.
///
/// An absent key means the bottom value, and a bottom value is never held: in a map of maps, an empty inner map is
/// absent. A map that was made with one pair holds it in itself, and takes no memory besides.
#[derive(Debug, Drop)]
pub struct JoinMap<K: Key, V: Join> {
    pub(crate) held: Held<K, V>,
}

impl<K: Key, V: Join> Model for JoinMap<K, V> {
    ghost use Rattle.std.specs.{Prelude.{List}, Coded.{coded_list, coded×}};
    ghost use Rattle.join_maps.specs.Held.{held_pairs, IsHeldMap};

    ghost Value = { List (K × V) };

    ghost coded = { coded_list (coded× K.code V.code) };

    ghost view = { λ m. held_pairs m.held };

    ghost invariant = { λ m. IsHeldMap K.cmp V.below V.is_valid m.held };
}

impl<K: Key, V: Join> JoinMap<K, V> {
    /// Returns an empty map. Allocates nothing.
    pub fn new(alloc: Global) -> Self
        ensures empty { result ≡ [] }
    {
        JoinMap {
            held: Held::Runs(Chunks::new(alloc)),
        }
    }

    /// Returns a map of one pair. Allocates nothing.
    pub fn of_pair(alloc: Global, key: K, value: V) -> Self
        requires held { IsHeld V.below V.is_valid value }
        ensures pair { result ≡ (key, value) ∷ [] }
    {
        JoinMap {
            held: Held::Alone(alloc, [(key, value)]),
        }
    }

    /// A cursor over the pairs, sorted by key. O(1). Allocates nothing.
    #[inline(always)]
    pub fn pairs(&self) -> Pairs<'_, K, V>
        ensures pairs { result ≡ self.now }
        ensures map { IsMap K.cmp V.below V.is_valid self.now }
    {
        match &self.held {
            Held::Alone(_, alone) => Pairs::of_one(alone),
            Held::Runs(chunks) => chunks.pairs(),
        }
    }

    /// Returns the allocator that the map takes its memory from.
    pub fn allocator(&self) -> Global {
        self.held.allocator()
    }

    /// Returns the number of keys. O(n / 128). Allocates nothing.
    pub fn len(&self) -> usize
        ensures len { result ≡ length self.now }
    {
        match &self.held {
            Held::Alone(_, _) => 1,
            Held::Runs(chunks) => chunks.len(),
        }
    }

    /// Returns the value at a key, if any. O(log n). Allocates nothing.
    pub fn get(&self, key: &K) -> Option<&V>
        ensures value { option_copied result ≡ find K.cmp key.now self.now }
    {
        let pair = self.find(key)?;
        Some(&pair.1)
    }

    /// Returns the pair with a key that is looked for in any form, if there is one. O(log n). Allocates nothing.
    pub fn find<S: Sought<K>>(&self, sought: &S) -> Option<&(K, V)>
        ensures found { MatchOption result (find K.cmp (S.key sought.now) self.now ≡ None)
            (λ pair. (pair.now.0 ≡ S.key sought.now)
            × (find K.cmp (S.key sought.now) self.now ≡ Some pair.now.1)) }
    {
        match &self.held {
            Held::Alone(_, alone) => find_by(&alone[..], sought),
            Held::Runs(chunks) => chunks.find(sought),
        }
    }

    /// Borrows the keys, in order. Fails only if memory runs out.
    pub fn keys(&self) -> Result<Vec<&K>, AllocError>
        ensures keys { IfOk result
            (λ keys. map (λ k. k.now) keys.items ≡ map (λ pair. pair.0) self.now) }
    {
        keys_of(self)
    }

    /// Removes and returns the pair with the greatest key, if any. O(1). Allocates nothing.
    pub fn pop_last(&mut self) -> Option<(K, V)>
        ensures pairs { self.old ≡ self.new ++ option_to_list result }
        ensures none { IfNone result (self.old ≡ []) }
        ensures held { IfSome result (λ pair. IsHeld V.below V.is_valid pair.1) }
    {
        self.held.pop_last()
    }

    /// Joins a value into the one at a key, and returns whether the key was added. Costs a search, and for a new key a
    /// shift of at most 127 pairs.
    ///
    /// Fails only if memory runs out. The map then lies between its old state and the join, and joining the `rest`,
    /// which has the same key, completes the join; if the value is single, the map is unchanged. If the key is held,
    /// only the join of the value allocates.
    pub fn join_at(&mut self, key: K, value: V) -> Result<bool, Rest<(K, V)>>
        ensures ok { OnOk result
            (IsJoin (MapBelow K.cmp V.below) self.old ((key, value) ∷ []) self.new) }
        ensures added { IfOk result (λ added. IsTrue added ↔
            ((find K.cmp key self.old ≡ None) × ¬ IsLeast V.below value)) }
        ensures key { IfErr result (λ fault. fault.rest.0 ≡ key) }
        ensures refused { IfErr result (λ fault. IsPartialJoin (MapBelow K.cmp V.below) self.old
            ((key, value) ∷ []) self.new (fault.rest ∷ [])) }
        ensures left { IfErr result (λ fault. ¬ IsLeast V.below fault.rest.1) }
        ensures rest_valid { IfErr result (λ fault. V.is_valid fault.rest.1) }
        ensures single { IfErr result (λ _. V.is_single value → self.new ≡ self.old) }
        ensures in_place { V.joins_in_place → IsSome (find K.cmp key self.old) → IsOk result }
        ensures map { IsMap K.cmp V.below V.is_valid self.new }
    {
        join_held(&mut self.held, key, value)
    }
}

impl<K: Key, V: Join> Join for JoinMap<K, V> {
    ghost use Rattle.join_law.specs.{Maps.{IsSinglePair, map_union}, MapLaws.{map_itself, map_chain}, UnionLaws.{union_joins, union_keeps}};
    ghost use Rattle.join_law.specs.MapOneLaws.{maps_one};

    ghost below = { MapBelow K.cmp V.below };

    ghost join = { map_union K.cmp V.join };

    ghost is_single = { IsSinglePair V.is_single };

    ghost is_valid = { IsMap K.cmp V.below V.is_valid };

    ghost joins_in_place = { ⊥ };

    ghost reflexive = { map_itself V.below V.reflexive V.transitive K.cmp };

    ghost transitive = { map_chain V.below V.reflexive V.transitive K.cmp };

    ghost joins = { union_joins K.cmp K.total V.below V.join V.joins };

    ghost keeps = { λ x y a b. union_keeps K.cmp K.total V.below V.is_valid V.join V.joins
        V.transitive V.reflexive V.keeps x y a b.held };

    ghost one = { maps_one K.cmp V.below K.total V.is_valid K.exact V.one };

    fn is_bottom(&self) -> bool {
        match &self.held {
            Held::Alone(_, _) => false,
            Held::Runs(chunks) => chunks.is_empty(),
        }
    }

    /// Joins key by key: a search for each pair, and for each new key a shift of at most 127 pairs. An empty map takes
    /// over the other one unchanged.
    ///
    /// A pair whose join fails is put back into the room that it came from.
    fn join_from(&mut self, other: Self) -> Result<(), Rest<Self>> {
        if self.is_bottom() {
            *self = other;
            return Ok(());
        }
        let JoinMap { held } = other;
        let Err(Rest { rest: held }) = join_all(&mut self.held, held) else {
            return Ok(());
        };
        Err(Rest {
            rest: JoinMap { held },
        })
    }

    /// Joins copies key by key. Keys that are held move nothing; new ones that fall to one run cost one pass over that
    /// run. An empty map becomes a copy.
    fn join_copy(&mut self, other: &Self) -> Result<(), AllocError> {
        if self.is_bottom() {
            if other.is_bottom() {
                return Ok(());
            }
            *self = other.try_clone()?;
            return Ok(());
        }
        join_all_copies(&mut self.held, other)
    }

    /// Returns an equal map, with one allocation for each run and a copy of each pair. Fails only if memory runs out.
    fn try_clone(&self) -> Result<Self, AllocError> {
        let held = match &self.held {
            Held::Alone(alloc, alone) => Held::Alone(*alloc, [copy_pair(&alone[0])?]),
            Held::Runs(chunks) => Held::Runs(copy_chunks(chunks)?),
        };
        Ok(JoinMap { held })
    }

    fn same(&self, other: &Self) -> bool {
        same_maps(self, other)
    }
}
