//! The trait of values that have a join.
ghost use Rattle.std.specs.Prelude.{◌≡◌, ◌↔◌, IsTrue, IsOk, OnOk, IfOk, OnErr, IfErr};
ghost use Rattle.join_law.specs.Order.{IsLeast, IsJoin, IsPartialJoin, IsBetween, IsBelowBoth};

use std::alloc::AllocError;

/// What was not joined because memory ran out.
#[derive(Debug, Drop)]
pub struct Rest<T> {
    /// Joining this later completes the join.
    pub rest: T,
}

/// A type whose values form a join semilattice: they have an order, and any two have a least upper bound (Shapiro et
/// al. 2011, section 2.3).
///
/// The laws are the last items of the trait, so generic code may rest on them alone.
pub trait Join: Drop {
    // The order: `below x y` means that y has everything that x has.
    ghost below: { Self → Self → Type 0 };

    // The least upper bound of two values.
    ghost join: { Self → Self → Self };

    // Holds for values that are joined as a whole or not at all.
    ghost is_single: { Self → Type 0 };

    // Holds for every value that the type can have.
    ghost is_valid: { Self → Type 0 };

    // Holds if joining an owned value allocates nothing.
    ghost joins_in_place: { Type 0 };

    /// Returns whether this is the bottom value, which is below every value. Allocates nothing.
    fn is_bottom(&self) -> bool
        ensures least { IsTrue result ↔ IsLeast below self.now }
        ensures valid { is_valid self.now };

    /// Joins an owned value into this one.
    ///
    /// Fails only if memory runs out. This value then lies between its old state and the join, and joining the `rest`
    /// later completes the join; if `other` is single, this value is unchanged.
    fn join_from(&mut self, other: Self) -> Result<(), Rest<Self>>
        ensures ok { OnOk result (IsJoin below self.old other self.new) }
        ensures refused { IfErr result
            (λ fault. IsPartialJoin below self.old other self.new fault.rest) }
        ensures single { IfErr result (λ _. is_single other → self.new ≡ self.old) }
        ensures in_place { joins_in_place → IsOk result }
        ensures valid { is_valid self.new }
        ensures rest_valid { IfErr result (λ fault. is_valid fault.rest) };

    /// Joins copies of what another value has more than this one.
    ///
    /// Fails only if memory runs out, and never if this value already has everything in `other`. After a failure this
    /// value has part of what the join adds, and a second call with the same `other` adds the rest; if `other` is
    /// single, this value is unchanged.
    fn join_copy(&mut self, other: &Self) -> Result<(), AllocError>
        ensures ok { OnOk result (IsJoin below self.old other.now self.new) }
        ensures refused { OnErr result (IsBetween below self.old other.now self.new) }
        ensures single { OnErr result (is_single other.now → self.new ≡ self.old) }
        ensures known { below other.now self.old → IsOk result }
        ensures valid { is_valid self.new };

    /// Returns an equal value. Fails only if memory runs out.
    fn try_clone(&self) -> Result<Self, AllocError>
        ensures copy { IfOk result (λ copy. copy ≡ self.now) };

    /// Returns whether the two values are equal. Allocates nothing.
    fn same(&self, other: &Self) -> bool
        ensures equal { IsTrue result ↔ (self.now ≡ other.now) };

    // Reflexivity: each value is below itself.
    ghost reflexive: { (x : Self) → below x x };

    // Transitivity.
    ghost transitive: { (x y z : Self) → below x y → below y z → below x z };

    // `join` is the least upper bound of any two values.
    ghost joins: { (x y : Self) → IsJoin below x y (join x y) };

    // The join of two valid values is valid.
    ghost keeps: { (x y : Self) → is_valid x → is_valid y → is_valid (join x y) };

    // Antisymmetry: valid values that are below each other are equal.
    ghost one: { (x y : Self) → is_valid x → is_valid y → IsBelowBoth below x y → x ≡ y };
}
