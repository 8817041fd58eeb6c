//! Cutting a run in two.
ghost use Rattle.std.specs.Prelude.{◌≡◌, ◌≢◌, ◌+◌, ◌-◌, ◌<◌, ◌≤◌, length, take, drop, slice_index_or, IfOk, OnOk, OnErr, vec_len, vec_capacity};
ghost use Rattle.std.specs.declared.cmp.Ordering.TheVariants.{Less};
ghost use Rattle.chunked_pairs.specs.Chunks.{all_pairs, AreChunks, cut_run, FallsTo, in_runs, run_at, viewed, with_run};

use crate::chunks::{Chunks, HALF, MOST, MOST_RUNS};
use plain_values::Key;
use std::alloc::AllocError;

impl<K: Key, V: Drop> Chunks<K, V> {
    /// Cuts the run to which a key falls in two, and returns the number of the part to which it falls, which has at most
    /// half as many pairs as a run may have. The cut is in the middle; a run that grows at an end of all pairs only loses
    /// the pair there. Moves at most half of the run's pairs, and all separators behind it.
    ///
    /// Fails only if memory runs out, before anything is moved.
    pub fn cut_for_key(&mut self, key: &K, at: usize) -> Result<usize, AllocError>
        requires chunks { AreChunks K.cmp self.old }
        requires within { at ≤ length self.old.1 }
        requires falls { FallsTo K.cmp key.now self.old.1 at }
        requires long { 1 < length (run_at self.old.0 self.old.1 at) }
        ensures same { all_pairs self.new ≡ all_pairs self.old }
        ensures chunks { AreChunks K.cmp self.new }
        ensures err { OnErr result (self.new ≡ self.old) }
        ensures within { IfOk result (λ at. at ≤ length self.new.1) }
        ensures falls { IfOk result (λ at. FallsTo K.cmp key.now self.new.1 at) }
        ensures half { IfOk result (λ at. length (run_at self.new.0 self.new.1 at) ≤ HALF) }
    {
        let last = self.last_run();
        let cut = cut_for(self.run(at), key, at == 0, at == last);
        self.cut(at, cut)?;
        if key.cmp(self.separator(at)).is_lt() {
            return Ok(at);
        }
        Ok(at + 1)
    }

    // Cuts a run in two. Both rooms are there before a pair moves; if memory runs out, nothing has changed.
    fn cut(&mut self, at: usize, cut: usize) -> Result<(), AllocError>
        requires within { at ≤ length self.old.1 }
        requires cut { cut < length (run_at self.old.0 self.old.1 at) }
        ensures ok { OnOk result ((d : K × V) → self.new ≡ cut_run self.old.0 self.old.1 at cut
            (slice_index_or (run_at self.old.0 self.old.1 at) cut d).0) }
        ensures err { OnErr result (self.new ≡ self.old) }
    {
        if self.more.len() >= MOST_RUNS {
            return Err(AllocError);
        }
        self.more.reserve(1)?;
        let behind = cut_among(&mut self.first, &mut self.more, at, cut)?;
        match self.more.insert(at, behind) {
            Ok(()) => Ok(()),
            Err(_) => unreachable!(),
        }
    }
}

// Cuts off the pairs of a run from an index on, and returns them behind the least of their keys.
fn cut_among<K: Key, V: Drop>(
    first: &mut Vec<(K, V)>,
    more: &mut Vec<(K, Vec<(K, V)>)>,
    at: usize,
    cut: usize,
) -> Result<(K, Vec<(K, V)>), AllocError>
    requires within { at ≤ length more.old.items }
    requires cut { cut < length (run_at first.old.items (viewed more.old.items) at) }
    ensures front { OnOk result
        (in_runs first.new.items (viewed more.new.items) ≡ with_run first.old.items
        (viewed more.old.items) at (take cut (run_at first.old.items (viewed more.old.items) at))) }
    ensures back { IfOk result
        (λ behind. behind.1.items ≡ drop cut (run_at first.old.items (viewed more.old.items) at)) }
    ensures least { IfOk result (λ behind. (d : K × V) →
        behind.0 ≡ (slice_index_or (run_at first.old.items (viewed more.old.items) at) cut d).0) }
    ensures err { OnErr result
        (in_runs first.new.items (viewed more.new.items)
        ≡ in_runs first.old.items (viewed more.old.items)) }
    ensures len { vec_len more.new ≡ vec_len more.old }
    ensures capacity { vec_capacity more.new ≡ vec_capacity more.old }
{
    if at == 0 {
        return cut_off(first, cut);
    }
    let place = &mut more[at - 1];
    cut_off(&mut place.1, cut)
}

// Cuts off the pairs from an index on, and returns them behind the least of their keys.
fn cut_off<K: Key, V: Drop>(
    run: &mut Vec<(K, V)>,
    cut: usize,
) -> Result<(K, Vec<(K, V)>), AllocError>
    requires cut { cut < length run.old.items }
    ensures front { OnOk result (run.new.items ≡ take cut run.old.items) }
    ensures back { IfOk result (λ behind. behind.1.items ≡ drop cut run.old.items) }
    ensures least { IfOk result
        (λ behind. (d : K × V) → behind.0 ≡ (slice_index_or run.old.items cut d).0) }
    ensures err { OnErr result (run.new ≡ run.old) }
{
    let pair = &run[cut];
    let least = pair.0.try_clone()?;
    let behind = run.split_off(cut)?;
    Ok((least, behind))
}

// Where to cut a run so that the part to which a key falls has at most half: in the middle, or at the end of all pairs
// where the key belongs there.
fn cut_for<K: Key, V>(run: &[(K, V)], key: &K, is_first: bool, is_last: bool) -> usize
    requires long { 1 < length run.now }
    requires within { length run.now ≤ MOST }
    ensures some { 0 < result }
    ensures within { result < length run.now }
    ensures front { (d : K × V) → K.cmp key.now (slice_index_or run.now result d).0 ≡ Less
        → result ≤ HALF }
    ensures back { (d : K × V) → K.cmp key.now (slice_index_or run.now result d).0 ≢ Less
        → length run.now - result ≤ HALF }
{
    let last = run.len() - 1;
    if is_last && !key.cmp(&run[last].0).is_lt() {
        return last;
    }
    if is_first && key.cmp(&run[1].0).is_lt() {
        return 1;
    }
    run.len() / 2
}
