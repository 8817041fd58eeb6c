//! In-place changes of a value that a map of maps holds.
ghost use Rattle.std.specs.{Prelude.{◌≡◌, [], ◌∷◌}, Bool.{OnTrue, OnFalse}, FinMap.{find}};
ghost use Rattle.chunked_pairs.specs.Chunks.{all_pairs};
ghost use Rattle.join_law.specs.{Maps.{is_some_and, IsMap, MapBelow}, Order.{IsJoin}};
ghost use Rattle.join_maps.specs.Held.{AreMapped};

use crate::held::Held;
use crate::maps::JoinMap;
use chunked_pairs::Chunks;
use join_law::{Change, Join};
use plain_values::Key;
use sorted_pairs::seek;

/// Changes the value at a key of a map; does nothing if the key is absent. For maps of maps, nest it: a `ChangeAt` of a
/// `ChangeAt`.
#[derive(Drop)]
pub struct ChangeAt<'a, K, C> {
    /// The key.
    pub key: &'a K,
    /// The change to make there.
    pub change: C,
}

impl<'a, K: Key, C: Change> Change for ChangeAt<'a, K, C> {
    type Value = JoinMap<K, C::Value>;

    ghost use Rattle.join_law.specs.Maps.{is_some_and};

    ghost is_made = { λ a map. is_some_and (C.is_made a.change) (find K.cmp a.key.now map) };

    ghost added = { λ a. (a.key.now, C.added a.change) ∷ [] };

    /// Costs a search, and the change of the value found.
    fn make(self, map: &mut JoinMap<K, C::Value>) -> bool {
        let ChangeAt { key, change } = self;
        match &mut map.held {
            Held::Alone(_, alone) => change_value(&mut alone[..], key, change),
            Held::Runs(chunks) => change_at_key(chunks, key, change),
        }
    }
}

// Changes the value at a key, and returns whether the change applied.
#[inline(always)]
fn change_at_key<K: Key, C: Change>(chunks: &mut Chunks<K, C::Value>, key: &K, change: C) -> bool
    requires map { AreMapped K.cmp C.Value.below C.Value.is_valid chunks.old }
    ensures made { result ≡ is_some_and (C.is_made change)
        (find K.cmp key.now (all_pairs chunks.old)) }
    ensures joined { OnTrue result (IsJoin (MapBelow K.cmp C.Value.below) (all_pairs chunks.old)
        ((key.now, C.added change) ∷ []) (all_pairs chunks.new)) }
    ensures same { OnFalse result (all_pairs chunks.new ≡ all_pairs chunks.old) }
    ensures map { AreMapped K.cmp C.Value.below C.Value.is_valid chunks.new }
{
    let at = chunks.run_of(key);
    let mut run = chunks.take(at);
    let is_made = change_pair(&mut run, key, change);
    chunks.put(at, run);
    is_made
}

// Changes the value at a key of a run, and returns whether the change applied.
#[inline(always)]
fn change_pair<K: Key, C: Change>(pairs: &mut Vec<(K, C::Value)>, key: &K, change: C) -> bool
    requires { IsMap K.cmp C.Value.below C.Value.is_valid pairs.old.items }
    ensures made { result ≡ is_some_and (C.is_made change) (find K.cmp key.now pairs.old.items) }
    ensures joined { OnTrue result (IsJoin (MapBelow K.cmp C.Value.below) pairs.old.items
        ((key.now, C.added change) ∷ []) pairs.new.items) }
    ensures same { OnFalse result (pairs.new.items ≡ pairs.old.items) }
    ensures map { IsMap K.cmp C.Value.below C.Value.is_valid pairs.new.items }
{
    change_value(pairs, key, change)
}

// Changes the value at a key of sorted pairs, and returns whether the change applied.
fn change_value<K: Key, C: Change>(pairs: &mut [(K, C::Value)], key: &K, change: C) -> bool
    requires { IsMap K.cmp C.Value.below C.Value.is_valid pairs.old }
    ensures made { result ≡ is_some_and (C.is_made change) (find K.cmp key.now pairs.old) }
    ensures joined { OnTrue result (IsJoin (MapBelow K.cmp C.Value.below) pairs.old
        ((key.now, C.added change) ∷ []) pairs.new) }
    ensures same { OnFalse result (pairs.new ≡ pairs.old) }
    ensures map { IsMap K.cmp C.Value.below C.Value.is_valid pairs.new }
{
    match seek(pairs, key) {
        Ok(at) => {
            let place = &mut pairs[at];
            change.make(&mut place.1)
        }
        Err(_) => false,
    }
}
