//! Versions, entries with a version, and entries that may not exist yet.
ghost use Rattle.std.specs.Prelude.{◌≡◌, ◌↔◌, IsTrue, IsOk, OnOk, IfOk, OnErr, IfErr};

use crate::joins::{Join, Rest};
use plain_values::{Key, TryClone};
use std::alloc::AllocError;
use std::cmp::Ordering;

/// The version of an edit, ordered by counter, then by writer.
///
/// A node numbers its own edits above every counter that it has seen. So if one edit's writer knew of another edit, the
/// later edit has the greater version. No two nodes share a writer number.
#[derive(Clone, Copy, Debug, PartialEq, Eq, PartialOrd, Ord)]
pub struct Version {
    /// The counter, a Lamport timestamp: above every counter that the writer had seen.
    pub counter: u64,
    /// The number of the node that made the edit.
    pub writer: u32,
}

impl TryClone for Version {
    fn try_clone(&self) -> Result<Version, AllocError> {
        Ok(*self)
    }
}

/// A content with the version of the edit that wrote it, ordered by version, then by content. Of two entries at one
/// place the greater one wins.
#[derive(Debug, PartialEq, Eq, PartialOrd, Ord, Drop)]
pub struct Entry<C: Key> {
    /// The version of the edit.
    pub version: Version,
    /// What it wrote.
    pub content: C,
}

impl<C: Key> Entry<C> {
    /// Returns an equal entry. Fails only if memory runs out.
    pub fn try_clone(&self) -> Result<Entry<C>, AllocError>
        ensures copy { IfOk result (λ copy. copy ≡ self.now) }
    {
        Ok(Entry {
            version: self.version,
            content: self.content.try_clone()?,
        })
    }
}

/// An entry, or nothing yet: a last-writer-wins register.
#[derive(Debug, Drop)]
pub enum Versioned<C: Key> {
    /// Nothing was written yet.
    Never,
    /// The greatest entry written so far.
    At(Entry<C>),
}

impl<C: Key> Versioned<C> {
    ghost use Rattle.std.specs.Option.{option_copied};
    ghost use Rattle.join_law.specs.VersionOrder.{versioned_cmp, written};

    /// Compares: `Never` first, then by version, then by content.
    pub fn rank(&self, other: &Self) -> Ordering
        ensures order { result ≡ versioned_cmp C.cmp self.now other.now }
    {
        match self {
            Versioned::Never => match other {
                Versioned::Never => Ordering::Equal,
                Versioned::At(_) => Ordering::Less,
            },
            Versioned::At(entry) => match other {
                Versioned::Never => Ordering::Greater,
                Versioned::At(other_entry) => entry.cmp(other_entry),
            },
        }
    }

    /// Returns the entry, if one was written.
    pub fn entry(&self) -> Option<&Entry<C>>
        ensures entry { option_copied result ≡ written self.now }
    {
        match self {
            Versioned::Never => None,
            Versioned::At(entry) => Some(entry),
        }
    }
}

impl<C: Key> Join for Versioned<C> {
    ghost use Rattle.join_law.specs.{Order.{IsJoin, IsPartialJoin, IsBetween}, VersionOrder.{IsUpTo, versioned_max}};
    ghost use Rattle.join_law.specs.VersionedLaws.{up_to_itself, up_to_chain, max_joins, both_up};

    ghost below = { IsUpTo C.cmp };

    ghost join = { versioned_max C.cmp };

    ghost is_single = { λ _. Unit {0} };

    ghost is_valid = { λ _. Unit {0} };

    ghost joins_in_place = { Unit {0} };

    ghost reflexive = { up_to_itself C.cmp C.total };

    ghost transitive = { up_to_chain C.cmp C.total };

    ghost joins = { max_joins C.cmp C.total };

    ghost keeps = { λ _ _ _ _. tt };

    ghost one = { λ x y _ _ both. both_up C.cmp C.total C.exact x y both.0 both.1 };

    fn is_bottom(&self) -> bool {
        match self {
            Versioned::Never => true,
            Versioned::At(_) => false,
        }
    }

    /// Keeps the greater of the two. Allocates nothing and never fails.
    fn join_from(&mut self, other: Self) -> Result<(), Rest<Self>>
        ensures never_refused { IsOk result }
        ensures greater { self.new ≡ versioned_max C.cmp self.old other }
        ensures ok { OnOk result (IsJoin (IsUpTo C.cmp) self.old other self.new) }
        ensures refused { IfErr result
            (λ fault. IsPartialJoin (IsUpTo C.cmp) self.old other self.new fault.rest) }
        ensures single { IfErr result (λ _. Unit {0} → self.new ≡ self.old) }
        ensures in_place { Unit {0} → IsOk result }
        ensures valid { Unit {0} }
        ensures rest_valid { IfErr result (λ fault. Unit {0}) }
    {
        if self.rank(&other).is_lt() {
            *self = other;
        }
        Ok(())
    }

    /// Keeps the greater of the two; copies `other` only if it is greater. If the copy fails, this value is unchanged.
    fn join_copy(&mut self, other: &Self) -> Result<(), AllocError>
        ensures greater { OnOk result (self.new ≡ versioned_max C.cmp self.old other.now) }
        ensures unchanged { OnErr result (self.new ≡ self.old) }
        ensures ok { OnOk result (IsJoin (IsUpTo C.cmp) self.old other.now self.new) }
        ensures refused { OnErr result (IsBetween (IsUpTo C.cmp) self.old other.now self.new) }
        ensures single { OnErr result (Unit {0} → self.new ≡ self.old) }
        ensures known { IsUpTo C.cmp other.now self.old → IsOk result }
        ensures valid { Unit {0} }
    {
        if self.rank(other).is_lt() {
            let copy = other.try_clone()?;
            *self = copy;
        }
        Ok(())
    }

    fn try_clone(&self) -> Result<Self, AllocError> {
        match self {
            Versioned::Never => Ok(Versioned::Never),
            Versioned::At(entry) => Ok(Versioned::At(entry.try_clone()?)),
        }
    }

    fn same(&self, other: &Self) -> bool {
        self.rank(other).is_eq()
    }
}
