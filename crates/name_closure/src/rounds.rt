//! What a round of a closure does: it adds what was loaded to what is found. The nodes that are named there and not
//! found yet are the next round's.
ghost use Rattle.std.specs.{Prelude.{◌≡◌, IfOk, OnOk}, BTreeMap.{keys}, List.Sorted.{IsStrictlySortedBy}, Map.{keys_of}};
ghost use Rattle.name_closure.specs.{Growth.{AreJoined, AreNew}, Loading.{AreLoaded}};

use crate::loads::Loads;
use crate::names::each_once;
use plain_values::Key;
use std::alloc::{AllocError, Global};
use std::collections::BTreeMap;

// Returns the nodes that aren't found yet, each once, in ascending order. In place, allocating nothing. Costs a search
// for each node, and O(m log m) for the m nodes that aren't found.
pub(crate) fn new_of<K: Key, U>(found: &BTreeMap<K, U>, nodes: Vec<K>) -> Vec<K>
    ensures fresh { AreNew K.cmp (keys found.now) nodes.items result.items }
{
    let mut fresh = nodes;
    fresh.retain(|node| !found.contains_key(node));
    each_once(fresh)
}

// Adds what was loaded for some nodes to what is found. For m nodes in ascending order and n found ones it costs
// O(m + n) where m is more than a quarter of n, and O(m log n) otherwise.
pub(crate) fn add_loaded<K: Key, L: Loads<K>>(
    alloc: Global,
    loader: &L,
    found: &mut BTreeMap<K, L::Loaded>,
    pairs: Vec<(K, L::Loaded)>,
) -> Result<(), AllocError>
    requires ascending { IsStrictlySortedBy K.cmp (keys found.old) }
    requires found { AreLoaded (L.is_loaded loader.now) found.old.entries }
    requires pairs { AreLoaded (L.is_loaded loader.now) pairs.items }
    ensures ascending { IsStrictlySortedBy K.cmp (keys found.new) }
    ensures entries { OnOk result (AreLoaded (L.is_loaded loader.now) found.new.entries) }
    ensures joined { OnOk result
        (AreJoined (keys found.old) (keys_of pairs.items) (keys found.new)) }
{
    let mut more: BTreeMap<K, L::Loaded> = pairs.into_iter().collect(alloc)?;
    found.append(&mut more)
}
