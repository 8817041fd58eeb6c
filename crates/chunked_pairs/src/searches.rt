//! Searches among sorted pairs for a key in any form.
ghost use Rattle.std.specs.{Prelude.{◌≡◌, ◌≤◌, ◌<◌, length, None, Some, IsTrue, IfOk, IfErr, MatchOption}, FinMap.{find, is_sorted}};
ghost use Rattle.sorted_pairs.specs.Places.{IsAt, IsGap};

use plain_values::Key;
use std::cmp::Ordering;

/// A key that is looked for, maybe in another form than the keys that are held.
pub trait Sought<K: Ord> {
    // The key.
    ghost key: { Self → K };

    /// Compares a key that is held with the one that is looked for. Allocates nothing.
    fn order(&self, held: &K) -> Ordering
        ensures order { result ≡ K.cmp held.now (key self.now) };
}

impl<K: Ord> Sought<K> for K {
    ghost key = { λ k. k };

    #[inline(always)]
    fn order(&self, held: &K) -> Ordering {
        held.cmp(self)
    }
}

/// Returns the index of a key among sorted pairs, or as an error the index at which it would be inserted. O(log n); for
/// a key at or after the last pair, a single comparison.
pub fn seek_by<K: Ord, V, S: Sought<K>>(pairs: &[(K, V)], sought: &S) -> Result<usize, usize>
    requires sorted { IsTrue (is_sorted K.cmp pairs.now) }
    ensures found { IfOk result (IsAt K.cmp (S.key sought.now) pairs.now) }
    ensures absent { IfErr result (IsGap K.cmp (S.key sought.now) pairs.now) }
    ensures at_within { IfOk result (λ at. at < length pairs.now) }
    ensures gap_within { IfErr result (λ at. at ≤ length pairs.now) }
{
    let Some((last, before)) = pairs.split_last() else {
        return Err(0);
    };
    match sought.order(&last.0) {
        Ordering::Less => Err(pairs.len()),
        Ordering::Equal => Ok(before.len()),
        Ordering::Greater => search_by(pairs, sought),
    }
}

// The same, by a binary search.
pub(crate) fn search_by<K: Ord, V, S: Sought<K>>(
    pairs: &[(K, V)],
    sought: &S,
) -> Result<usize, usize>
    requires sorted { IsTrue (is_sorted K.cmp pairs.now) }
    ensures found { IfOk result (IsAt K.cmp (S.key sought.now) pairs.now) }
    ensures absent { IfErr result (IsGap K.cmp (S.key sought.now) pairs.now) }
    ensures at_within { IfOk result (λ at. at < length pairs.now) }
    ensures gap_within { IfErr result (λ at. at ≤ length pairs.now) }
{
    pairs.binary_search_by(|pair| sought.order(&pair.0))
}

/// Returns the pair with a key among sorted pairs, if there is one. O(log n). Allocates nothing.
pub fn find_by<'a, K: Key, V, S: Sought<K>>(pairs: &'a [(K, V)], sought: &S) -> Option<&'a (K, V)>
    requires sorted { IsTrue (is_sorted K.cmp pairs.now) }
    ensures found { MatchOption result (find K.cmp (S.key sought.now) pairs.now ≡ None)
        (λ pair. (pair.now.0 ≡ S.key sought.now)
        × (find K.cmp (S.key sought.now) pairs.now ≡ Some pair.now.1)) }
{
    match seek_by(pairs, sought) {
        Ok(at) => {
            let pair = &pairs[at];
            Some(pair)
        }
        Err(_) => None,
    }
}
