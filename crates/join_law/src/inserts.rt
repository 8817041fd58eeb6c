//! Inserting a pair into a run.
ghost use Rattle.std.specs.{Prelude.{◌≡◌, ◌≤◌, vec_len, OnOk, OnErr, IfErr}, List.{insert}};

use chunked_pairs::{HALF, MOST};
use std::alloc::AllocFailed;

/// Inserts a pair at an index. A long run of `chunked_pairs` grows once, to the room of a full one. Fails only if memory
/// runs out: nothing is inserted, and the pair comes back.
pub fn insert_pair<K, V>(
    pairs: &mut Vec<(K, V)>,
    at: usize,
    pair: (K, V),
) -> Result<(), AllocFailed<(K, V)>>
    requires at { at ≤ vec_len pairs.old }
    ensures ok { OnOk result (pairs.new.items ≡ insert pairs.old.items at pair) }
    ensures err { OnErr result (pairs.new.items ≡ pairs.old.items) }
    ensures back { IfErr result (λ fault. fault.value ≡ pair) }
{
    if is_long_and_full(pairs) {
        if let Err(_) = pairs.reserve_exact(MOST.saturating_sub(pairs.len())) {
            return Err(AllocFailed { value: pair });
        }
    }
    pairs.insert(at, pair)
}

// Returns whether a run has more than half of its pairs, and no room for another one.
fn is_long_and_full<K, V>(pairs: &Vec<(K, V)>) -> bool {
    pairs.len() >= HALF && pairs.len() == pairs.capacity()
}
