//! Where what a script's first node holds is kept.
ghost use Rattle.std.specs.Prelude.{◌≡◌, OnOk, false};
ghost use Rattle.edit_sums.specs.Sums.{EntryMap, IsStoreBelow};
ghost use Rattle.script_homes.specs.Homes.{IsHeldNext, StaysKept};

use replica_store::Store;
use thiserror::Error;

/// A home did not keep what it was given.
#[derive(Clone, Copy, Debug, PartialEq, Eq, Error)]
#[error("not kept")]
pub struct Unkept;

/// Where what the first node of a script holds is kept while the script runs, over crashes too.
pub trait Home {
    /// It holds just this store.
    ghost holds: { Self → EntryMap → Type 0 };

    /// Whatever crashes now, what is found of it later is at least this store.
    ghost keeps: { Self → EntryMap → Type 0 };

    /// Keeps what a store holds, which is at least what it holds already. What it kept stays, also where it refuses.
    fn keep(&mut self, store: &Store) -> Result<(), Unkept>
        ensures held { OnOk result (IsHeldNext store.now (holds self.old) (holds self.new)) }
        ensures kept { StaysKept (keeps self.old) (keeps self.new) };

    /// Whether it keeps anything: then no answer is written before what its line did is kept.
    fn is_bound(&self) -> bool
        ensures unbound { result ≡ false → (s : EntryMap) → keeps self.now s };

    /// What it holds is found again.
    ghost lasts: { (home : Self) (s : EntryMap) → holds home s → keeps home s };
}

/// No home: nothing is kept, and nothing is claimed of it.
#[derive(Clone, Copy, Debug)]
pub struct Nowhere;

impl Home for Nowhere {
    ghost holds = { λ home s. Unit {0} };

    ghost keeps = { λ home s. Unit {0} };

    ghost lasts = { λ home s held. held };

    fn keep(&mut self, _store: &Store) -> Result<(), Unkept> {
        Ok(())
    }

    fn is_bound(&self) -> bool {
        false
    }
}
