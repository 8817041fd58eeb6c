//! Positions of keys among sorted pairs.
ghost use Rattle.std.specs.{Prelude.{◌≡◌, ◌≤◌, ◌<◌, length, IsTrue, IfOk, IfErr}, FinMap.{is_sorted}};
ghost use Rattle.sorted_pairs.specs.Places.{IsAt, IsGap};

use std::cmp::Ordering;

/// Returns the index of a key among sorted pairs, or as an error the index at which it would be inserted. O(log n); for
/// a key at or after the last pair, a single comparison.
pub fn seek<K: Ord, V>(pairs: &[(K, V)], key: &K) -> Result<usize, usize>
    requires sorted { IsTrue (is_sorted K.cmp pairs.now) }
    ensures found { IfOk result (IsAt K.cmp key.now pairs.now) }
    ensures absent { IfErr result (IsGap K.cmp key.now pairs.now) }
    ensures at_within { IfOk result (λ at. at < length pairs.now) }
    ensures gap_within { IfErr result (λ at. at ≤ length pairs.now) }
{
    let Some((last, before)) = pairs.split_last() else {
        return Err(0);
    };
    match last.0.cmp(key) {
        Ordering::Less => Err(pairs.len()),
        Ordering::Equal => Ok(before.len()),
        Ordering::Greater => pairs.binary_search_by(|pair| pair.0.cmp(key)),
    }
}
