//! Runs of sorted pairs.
ghost use Rattle.std.specs.{Prelude.{◌≡◌, ◌*◌, ◌<◌, ◌≤◌, ◌++◌, ◌∷◌, ◌==◌, [], List, length, None, Some, IsTrue, MatchOption, IfOk, IfErr, OnOk, OnErr, slice_index_or, take}, Option.{option_to_list, IfNone}, FinMap.{find, is_sorted}};
ghost use Rattle.sorted_pairs.specs.Places.{IsAt, IsGap};
ghost use Rattle.chunked_pairs.specs.Chunks.{all_pairs, AllKeys, AreChunks, AreShort, FallsTo, given_back, later, most_runs, run_at, swapped, viewed, with_run, without_last};

use crate::cursors::Pairs;
use crate::searches::{Sought, find_by, search_by, seek_by};
use plain_values::Key;
use std::alloc::{AllocError, Global};
use std::cmp::Ordering;
use std::marker::Model;
use std::mem;

/// How many pairs a run may have.
pub const MOST: usize = 128;

/// Half of that.
pub const HALF: usize = 64;

// How many runs there may be behind the first.
pub(crate) const MOST_RUNS: usize = 281_474_976_710_656;

/// Sorted pairs in a first run and, past it, runs behind separators. Few pairs are one run, without a separator.
///
/// A separator is above all keys before it, and at most the least key of its run.
#[derive(Debug, Drop)]
pub struct Chunks<K, V> {
    /// The run before all others, which may be edited in its place.
    pub first: Vec<(K, V)>,
    pub(crate) more: Vec<(K, Vec<(K, V)>)>,
}

/// Where a key stands among pairs in runs, or where it would be inserted.
#[derive(Clone, Copy, Debug)]
pub struct Position {
    /// The number of the run that the key falls to.
    pub run: usize,
    /// The index of the key in that run, or as an error the index at which it would be inserted.
    pub index: Result<usize, usize>,
}

impl<K, V> Model for Chunks<K, V> {
    ghost use Rattle.std.specs.{Prelude.{List, length, map, ◌≤◌}, Coded.{coded_list, coded×}};
    ghost use Rattle.chunked_pairs.specs.Chunks.{most_runs};

    ghost Value = { List (K × V) × List (K × List (K × V)) };

    ghost coded = { coded× (coded_list (coded× K.code V.code))
        (coded_list (coded× K.code (coded_list (coded× K.code V.code)))) };

    ghost view = { λ c. (c.first.items, map (λ m. (m.0, m.1.items)) c.more.items) };

    ghost invariant = { λ c. length c.more.items ≤ most_runs };
}

impl<K: Key, V: Drop> Chunks<K, V> {
    /// No pairs. Allocates nothing.
    pub fn new(alloc: Global) -> Self
        ensures empty { result ≡ ([], []) }
    {
        Chunks::of_run(Vec::new(alloc))
    }

    /// The pairs of one run. Allocates nothing.
    pub fn of_run(run: Vec<(K, V)>) -> Self
        ensures run { result ≡ (run.items, []) }
    {
        let more = Vec::new(*run.allocator());
        Chunks { first: run, more }
    }

    /// The allocator that the runs take their memory from.
    pub fn allocator(&self) -> Global {
        *self.first.allocator()
    }

    /// Whether there are no pairs. O(1).
    pub fn is_empty(&self) -> bool
        requires chunks { AreChunks K.cmp self.now }
        ensures empty { result ≡ (length (all_pairs self.now) == 0) }
    {
        self.first.is_empty()
    }

    /// The number of the last run; the first run has the number 0. O(1).
    pub fn last_run(&self) -> usize
        ensures last { result ≡ length self.now.1 }
        ensures few { result < usize.MAX }
    {
        self.more.len()
    }

    /// Borrows a run by its number. O(1).
    #[inline(always)]
    pub fn run(&self, at: usize) -> &[(K, V)]
        requires within { at ≤ length self.now.1 }
        ensures run { result.now ≡ run_at self.now.0 self.now.1 at }
    {
        if at == 0 {
            return &self.first;
        }
        &self.more[at - 1].1
    }

    /// Takes a run out, and leaves an empty one in its place. O(1). Allocates nothing.
    #[inline(always)]
    pub fn take(&mut self, at: usize) -> Vec<(K, V)>
        requires within { at ≤ length self.old.1 }
        ensures run { result.items ≡ run_at self.old.0 self.old.1 at }
        ensures left { self.new ≡ with_run self.old.0 self.old.1 at [] }
    {
        self.replace(at, Vec::new(self.allocator()))
    }

    /// Puts a run into the place of another one. O(1). Allocates nothing.
    #[inline(always)]
    pub fn put(&mut self, at: usize, run: Vec<(K, V)>)
        requires within { at ≤ length self.old.1 }
        ensures put { self.new ≡ with_run self.old.0 self.old.1 at run.items }
    {
        let _old = self.replace(at, run);
    }

    /// Swaps a run with the first one, so that it can be edited there; the same call swaps them back. O(1). Allocates
    /// nothing.
    #[inline(always)]
    pub fn swap(&mut self, at: usize)
        requires within { at ≤ length self.old.1 }
        ensures swapped { self.new ≡ swapped self.old.0 self.old.1 at }
    {
        if at == 0 {
            return;
        }
        let place = &mut self.more[at - 1];
        mem::swap(&mut self.first, &mut place.1);
    }

    // Puts a run into the place of another one, and returns that one.
    #[inline(always)]
    fn replace(&mut self, at: usize, run: Vec<(K, V)>) -> Vec<(K, V)>
        requires within { at ≤ length self.old.1 }
        ensures run { result.items ≡ run_at self.old.0 self.old.1 at }
        ensures put { self.new ≡ with_run self.old.0 self.old.1 at run.items }
    {
        if at == 0 {
            return mem::replace(&mut self.first, run);
        }
        let place = &mut self.more[at - 1];
        mem::replace(&mut place.1, run)
    }

    /// Borrows the separator behind the run with this number. O(1).
    pub fn separator(&self, at: usize) -> &K
        requires within { at < length self.now.1 }
        ensures separator { (d : K × List (K × V))
            → result.now ≡ (slice_index_or self.now.1 at d).0 }
    {
        &self.more[at].0
    }

    /// The number of the run that a key falls to. O(log n).
    #[inline(always)]
    pub fn run_of<S: Sought<K>>(&self, sought: &S) -> usize
        requires chunks { AreChunks K.cmp self.now }
        ensures falls { FallsTo K.cmp (S.key sought.now) self.now.1 result }
        ensures within { result ≤ length self.now.1 }
    {
        if self.more.is_empty() {
            return 0;
        }
        run_among(&self.more, sought)
    }

    /// Where a key stands, or would be inserted. O(log n), but only one comparison for a key at or after the last pair,
    /// and among several runs two for one at or before the first pair. Allocates nothing.
    #[inline(always)]
    pub fn seek<S: Sought<K>>(&self, sought: &S) -> Position
        requires chunks { AreChunks K.cmp self.now }
        ensures within { result.run ≤ length self.now.1 }
        ensures falls { FallsTo K.cmp (S.key sought.now) self.now.1 result.run }
        ensures found { IfOk result.index
            (IsAt K.cmp (S.key sought.now) (run_at self.now.0 self.now.1 result.run)) }
        ensures absent { IfErr result.index
            (IsGap K.cmp (S.key sought.now) (run_at self.now.0 self.now.1 result.run)) }
        ensures at_within { IfOk result.index
            (λ at. at < length (run_at self.now.0 self.now.1 result.run)) }
        ensures gap_within { IfErr result.index
            (λ at. at ≤ length (run_at self.now.0 self.now.1 result.run)) }
    {
        if self.more.is_empty() {
            return Position {
                run: 0,
                index: seek_by(&self.first, sought),
            };
        }
        self.seek_among(sought)
    }

    // The same, beginning with the last pair.
    fn seek_among<S: Sought<K>>(&self, sought: &S) -> Position
        requires chunks { AreChunks K.cmp self.now }
        ensures within { result.run ≤ length self.now.1 }
        ensures falls { FallsTo K.cmp (S.key sought.now) self.now.1 result.run }
        ensures found { IfOk result.index
            (IsAt K.cmp (S.key sought.now) (run_at self.now.0 self.now.1 result.run)) }
        ensures absent { IfErr result.index
            (IsGap K.cmp (S.key sought.now) (run_at self.now.0 self.now.1 result.run)) }
        ensures at_within { IfOk result.index
            (λ at. at < length (run_at self.now.0 self.now.1 result.run)) }
        ensures gap_within { IfErr result.index
            (λ at. at ≤ length (run_at self.now.0 self.now.1 result.run)) }
    {
        let last = self.last_run();
        let run = self.run(last);
        let Some((pair, before)) = run.split_last() else {
            return self.seek_inside(sought);
        };
        match sought.order(&pair.0) {
            Ordering::Less => Position {
                run: last,
                index: Err(run.len()),
            },
            Ordering::Equal => Position {
                run: last,
                index: Ok(before.len()),
            },
            Ordering::Greater => self.seek_inside(sought),
        }
    }

    // The same, beginning with the first pair.
    fn seek_inside<S: Sought<K>>(&self, sought: &S) -> Position
        requires chunks { AreChunks K.cmp self.now }
        ensures within { result.run ≤ length self.now.1 }
        ensures falls { FallsTo K.cmp (S.key sought.now) self.now.1 result.run }
        ensures found { IfOk result.index
            (IsAt K.cmp (S.key sought.now) (run_at self.now.0 self.now.1 result.run)) }
        ensures absent { IfErr result.index
            (IsGap K.cmp (S.key sought.now) (run_at self.now.0 self.now.1 result.run)) }
        ensures at_within { IfOk result.index
            (λ at. at < length (run_at self.now.0 self.now.1 result.run)) }
        ensures gap_within { IfErr result.index
            (λ at. at ≤ length (run_at self.now.0 self.now.1 result.run)) }
    {
        let Some((pair, _)) = self.first.split_first() else {
            return self.seek_between(sought);
        };
        match sought.order(&pair.0) {
            Ordering::Less => self.seek_between(sought),
            Ordering::Equal => Position {
                run: 0,
                index: Ok(0),
            },
            Ordering::Greater => Position {
                run: 0,
                index: Err(0),
            },
        }
    }

    // The same, by a search among the separators, and one in a run.
    fn seek_between<S: Sought<K>>(&self, sought: &S) -> Position
        requires chunks { AreChunks K.cmp self.now }
        ensures within { result.run ≤ length self.now.1 }
        ensures falls { FallsTo K.cmp (S.key sought.now) self.now.1 result.run }
        ensures found { IfOk result.index
            (IsAt K.cmp (S.key sought.now) (run_at self.now.0 self.now.1 result.run)) }
        ensures absent { IfErr result.index
            (IsGap K.cmp (S.key sought.now) (run_at self.now.0 self.now.1 result.run)) }
        ensures at_within { IfOk result.index
            (λ at. at < length (run_at self.now.0 self.now.1 result.run)) }
        ensures gap_within { IfErr result.index
            (λ at. at ≤ length (run_at self.now.0 self.now.1 result.run)) }
    {
        let run = self.run_of(sought);
        Position {
            run,
            index: search_by(self.run(run), sought),
        }
    }

    /// The pair with a key, if any. O(log n). Allocates nothing.
    pub fn find<S: Sought<K>>(&self, sought: &S) -> Option<&(K, V)>
        requires chunks { AreChunks K.cmp self.now }
        ensures found { MatchOption result
            (find K.cmp (S.key sought.now) (all_pairs self.now) ≡ None)
            (λ pair. (pair.now.0 ≡ S.key sought.now)
            × (find K.cmp (S.key sought.now) (all_pairs self.now) ≡ Some pair.now.1)) }
    {
        find_by(self.run(self.run_of(sought)), sought)
    }

    /// The pairs, in order.
    #[inline(always)]
    pub fn pairs(&self) -> Pairs<'_, K, V>
        requires chunks { AreChunks K.cmp self.now }
        ensures pairs { result ≡ all_pairs self.now }
    {
        Pairs::of(&self.first, &self.more)
    }

    /// How many pairs there are. Linear in the number of runs. Allocates nothing.
    pub fn len(&self) -> usize
        requires chunks { AreChunks K.cmp self.now }
        ensures len { result ≡ length (all_pairs self.now) }
    {
        self.first.len() + len_behind(&self.more)
    }

    /// How many of the first of some sorted pairs fall to a run to which the first of them falls. O(log n). Allocates
    /// nothing.
    pub fn fitting(&self, at: usize, pairs: &[(K, V)]) -> usize
        requires chunks { AreChunks K.cmp self.now }
        requires sorted { IsTrue (is_sorted K.cmp pairs.now) }
        requires some { 0 < length pairs.now }
        requires falls { AllKeys (λ q. FallsTo K.cmp q self.now.1 at) (take 1 pairs.now) }
        ensures some { 0 < result }
        ensures within { result ≤ length pairs.now }
        ensures falls { AllKeys (λ q. FallsTo K.cmp q self.now.1 at) (take result pairs.now) }
        ensures most { result < length pairs.now →
            (d : K × V) → ¬ FallsTo K.cmp (slice_index_or pairs.now result d).0 self.now.1 at }
    {
        if at >= self.more.len() {
            return pairs.len();
        }
        let separator = &self.more[at].0;
        match seek_by(pairs, separator) {
            Ok(fitting) => fitting,
            Err(fitting) => fitting,
        }
    }

    /// Takes the last pair, if there is one. An emptied run goes. O(1). Allocates nothing.
    pub fn pop_last(&mut self) -> Option<(K, V)>
        requires chunks { AreChunks K.cmp self.old }
        ensures pairs { all_pairs self.old ≡ all_pairs self.new ++ option_to_list result }
        ensures none { IfNone result (all_pairs self.old ≡ []) }
        ensures chunks { AreChunks K.cmp self.new }
    {
        let last = self.last_run();
        let mut run = self.take(last);
        let pair = run.pop();
        self.give_back(run);
        pair
    }

    /// Puts back what is left of the last run, which was taken out. Where nothing is left, the run goes, if it is not the
    /// first. O(1). Allocates nothing.
    pub fn give_back(&mut self, run: Vec<(K, V)>)
        ensures back { self.new ≡ given_back self.old.0 self.old.1 run.items }
    {
        if run.is_empty() {
            return self.drop_last();
        }
        let last = self.last_run();
        self.put(last, run);
    }

    /// Adds a run behind a separator, after all others. O(1) amortized.
    ///
    /// Fails only if memory runs out; nothing is added then.
    pub fn add_run(&mut self, separator: K, run: Vec<(K, V)>) -> Result<(), AllocError>
        ensures ok { OnOk result
            (self.new ≡ (self.old.0, self.old.1 ++ (separator, run.items) ∷ [])) }
        ensures err { OnErr result (self.new ≡ self.old) }
    {
        if self.more.len() >= MOST_RUNS {
            return Err(AllocError);
        }
        self.more.push((separator, run))?;
        Ok(())
    }

    // Takes away the last run, if it is not the first. O(1).
    fn drop_last(&mut self)
        ensures left { self.new ≡ without_last self.old.0 self.old.1 }
    {
        let _gone = self.more.pop();
    }
}

/// The number of the run that a key falls to, where the first run stands before these. O(log n).
#[inline(always)]
pub(crate) fn run_among<K: Ord, V, S: Sought<K>>(more: &[(K, Vec<(K, V)>)], sought: &S) -> usize
    requires sorted { IsTrue (is_sorted K.cmp (viewed more.now)) }
    ensures falls { FallsTo K.cmp (S.key sought.now) (viewed more.now) result }
    ensures within { result ≤ length more.now }
{
    match search_by(more, sought) {
        Ok(at) => at + 1,
        Err(at) => at,
    }
}

// How many pairs the runs behind separators have.
fn len_behind<K, V>(more: &[(K, Vec<(K, V)>)]) -> usize
    requires few { length more.now ≤ most_runs }
    requires short { AreShort (viewed more.now) }
    ensures len { result ≡ length (later (viewed more.now)) }
    ensures small { result ≤ most_runs * 128 }
{
    let mut len = 0;
    for behind in more {
        len += behind.1.len();
    }
    len
}
