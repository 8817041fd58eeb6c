//! A cursor over pairs in chunks.
ghost use Rattle.std.specs.{Prelude.{◌≡◌, ◌≢◌, ◌<◌, ◌∷◌, ◌++◌, [], length, IsTrue, MatchOption}, Option.{option_copied}, FinMap.{find, is_sorted}};
ghost use Rattle.std.specs.declared.cmp.Ordering.TheVariants.{Less};
ghost use Rattle.chunked_pairs.specs.{Chunks.{AreChained, FallsTo, later, viewed}, Cursors.{IsAfter, StandsFirst}};

use crate::chunks::run_among;
use crate::searches::seek_by;
use std::cmp::Ordering;
use std::marker::Model;

// How many pairs are passed one by one before the rest is searched.
const NEAR: usize = 8;

/// A cursor over sorted pairs, which contracts see as the pairs that are left.
#[derive(Drop)]
pub struct Pairs<'a, K: Ord, V> {
    left: &'a [(K, V)],
    more: &'a [(K, Vec<(K, V)>)],
}

impl<'a, K: Ord, V> Model for Pairs<'a, K, V> {
    ghost use Rattle.std.specs.Prelude.{List, ◌++◌};
    ghost use Rattle.chunked_pairs.specs.Chunks.{AreChained, later, viewed};

    ghost Value = { List (K × V) };

    ghost view = { λ p. p.left.now ++ later (viewed p.more.now) };

    ghost invariant = { λ p. AreChained K.cmp p.left.now (viewed p.more.now) };
}

impl<'a, K: Ord, V> Pairs<'a, K, V> {
    // The pairs of a run, and of the runs behind it.
    #[inline(always)]
    pub(crate) fn of(left: &'a [(K, V)], more: &'a [(K, Vec<(K, V)>)]) -> Self
        requires chained { AreChained K.cmp left.now (viewed more.now) }
        ensures pairs { result ≡ left.now ++ later (viewed more.now) }
    {
        Pairs { left, more }
    }

    /// No pairs.
    pub fn none() -> Self
        ensures none { result ≡ [] }
    {
        Pairs::of(&[], &[])
    }

    /// One pair, which stands alone.
    #[inline(always)]
    pub fn of_one(pair: &'a [(K, V); 1]) -> Self
        ensures one { result ≡ pair.now }
    {
        Pairs::of(&pair[..], &[])
    }

    /// Takes the next pair, if one is left. O(1). Allocates nothing.
    #[inline(always)]
    pub fn next(&mut self) -> Option<&'a (K, V)>
        ensures first { MatchOption result ((self.old ≡ []) × (self.new ≡ []))
            (λ pair. self.old ≡ pair.now ∷ self.new) }
    {
        if let Some((pair, left)) = self.left.split_first() {
            self.left = left;
            return Some(pair);
        }
        if self.more.is_empty() {
            return None;
        }
        self.next_of_any()
    }

    // Returns the same as `next`, which calls this only where a run is passed.
    #[inline(never)]
    fn next_of_any(&mut self) -> Option<&'a (K, V)>
        ensures first { MatchOption result ((self.old ≡ []) × (self.new ≡ []))
            (λ pair. self.old ≡ pair.now ∷ self.new) }
    {
        if let Some((pair, left)) = self.left.split_first() {
            self.left = left;
            return Some(pair);
        }
        let (behind, more) = self.more.split_first()?;
        let (pair, left) = behind.1.split_first()?;
        self.left = left;
        self.more = more;
        Some(pair)
    }

    /// Takes the next pairs, as many as stand side by side; `None` if none are left. O(1). Allocates nothing.
    pub fn next_run(&mut self) -> Option<&'a [(K, V)]>
        ensures first { MatchOption result ((self.old ≡ []) × (self.new ≡ []))
            (λ run. (self.old ≡ run.now ++ self.new) × (0 < length run.now)) }
    {
        if !self.left.is_empty() {
            let run = self.left;
            self.left = &[];
            return Some(run);
        }
        let (behind, more) = self.more.split_first()?;
        self.more = more;
        Some(&behind.1)
    }

    /// Returns the value at a key, and passes the pairs up to the key: what is left serves greater keys. A comparison for
    /// each of the first pairs that are passed, and of the next run's where this one is passed; where the key lies further
    /// on, also a search among the runs, and one in a run. Allocates nothing.
    #[inline(always)]
    pub fn meet(&mut self, key: &K) -> Option<&'a V>
        ensures found { option_copied result ≡ find K.cmp key.now self.old }
        ensures after { (k : K) → K.cmp key.now k ≡ Less
            → find K.cmp k self.new ≡ find K.cmp k self.old }
    {
        let Some((pair, left)) = self.left.split_first() else {
            return self.meet_further(key);
        };
        match pair.0.cmp(key) {
            Ordering::Less => {
                self.left = left;
                self.meet_further(key)
            }
            Ordering::Equal => {
                self.left = left;
                Some(&pair.1)
            }
            Ordering::Greater => None,
        }
    }

    // Returns the same as `meet`: looks at some more pairs, those of the next run if none is left of this one, and searches
    // then.
    #[inline(never)]
    fn meet_further(&mut self, key: &K) -> Option<&'a V>
        ensures found { option_copied result ≡ find K.cmp key.now self.old }
        ensures after { (k : K) → K.cmp key.now k ≡ Less
            → find K.cmp k self.new ≡ find K.cmp k self.old }
    {
        self.step();
        let (order, left) = pass_near(self.left, key);
        self.left = left;
        match order {
            Ordering::Less => self.search(key),
            Ordering::Equal => {
                let pair = self.next()?;
                Some(&pair.1)
            }
            Ordering::Greater => None,
        }
    }

    // Goes on to the next run, if none is left of this one.
    fn step(&mut self)
        ensures same { self.new ≡ self.old }
    {
        if !self.left.is_empty() {
            return;
        }
        if let Some((behind, more)) = self.more.split_first() {
            self.left = &behind.1;
            self.more = more;
        }
    }

    // Returns the same as `meet`, by searches.
    fn search(&mut self, key: &K) -> Option<&'a V>
        ensures found { option_copied result ≡ find K.cmp key.now self.old }
        ensures after { (k : K) → K.cmp key.now k ≡ Less
            → find K.cmp k self.new ≡ find K.cmp k self.old }
    {
        let (left, more) = pass_runs(self.left, self.more, key);
        self.more = more;
        match seek_by(left, key) {
            Ok(at) => {
                self.left = &left[at + 1..];
                Some(&left[at].1)
            }
            Err(at) => {
                self.left = &left[at..];
                None
            }
        }
    }
}

// Passes pairs below a key one by one, but not many, and returns how the next pair stands to the key, and what is left.
// `Less` says nothing.
#[inline(always)]
fn pass_near<'a, K: Ord, V>(pairs: &'a [(K, V)], key: &K) -> (Ordering, &'a [(K, V)])
    ensures after { IsAfter K.cmp key.now pairs.now result.1.now }
    ensures order { StandsFirst K.cmp key.now result.1.now result.0 }
{
    let mut left = pairs;
    for _ in 0..NEAR {
        let Some((pair, rest)) = left.split_first() else {
            return (Ordering::Less, left);
        };
        let order = pair.0.cmp(key);
        if !order.is_lt() {
            return (order, left);
        }
        left = rest;
    }
    (Ordering::Less, left)
}

// The run that a key falls to, and those behind it.
fn pass_runs<'a, K: Ord, V>(
    left: &'a [(K, V)],
    more: &'a [(K, Vec<(K, V)>)],
    key: &K,
) -> (&'a [(K, V)], &'a [(K, Vec<(K, V)>)])
    requires chained { AreChained K.cmp left.now (viewed more.now) }
    ensures chained { AreChained K.cmp result.0.now (viewed result.1.now) }
    ensures sorted { IsTrue (is_sorted K.cmp result.0.now) }
    ensures falls { FallsTo K.cmp key.now (viewed result.1.now) 0 }
    ensures same { (k : K) → K.cmp k key.now ≢ Less
        → find K.cmp k (result.0.now ++ later (viewed result.1.now))
        ≡ find K.cmp k (left.now ++ later (viewed more.now)) }
{
    let at = run_among(more, key);
    if at == 0 {
        return (left, more);
    }
    let behind = &more[at - 1];
    (&behind.1, &more[at..])
}
