//! Traits of values that can be copied if memory allows, and of keys.
ghost use Rattle.std.specs.{Prelude.{◌≡◌, IfOk}, declared.cmp.Ordering.TheVariants.{Equal}};

use std::alloc::AllocError;

/// Values that can be copied, unless memory runs out.
pub trait TryClone: Drop {
    /// Returns an equal value. Fails only if memory runs out.
    fn try_clone(&self) -> Result<Self, AllocError>
        ensures copy { IfOk result (λ copy. copy ≡ self.now) };
}

/// Keys of maps: values with a total order in which `Equal` means that the two are equal.
pub trait Key: Ord + TryClone {
    // Values that compare as `Equal` are equal.
    ghost exact: { (x y : Self) → Self.cmp x y ≡ Equal → x ≡ y };
}

impl<A: TryClone, B: TryClone> TryClone for (A, B) {
    fn try_clone(&self) -> Result<(A, B), AllocError> {
        Ok((self.0.try_clone()?, self.1.try_clone()?))
    }
}

impl TryClone for u8 {
    fn try_clone(&self) -> Result<u8, AllocError> {
        Ok(*self)
    }
}

impl Key for u8 {
    ghost use Rattle.std.specs.FinMap.{nat_cmp-IsAntisymmetric};

    ghost exact = { nat_cmp-IsAntisymmetric };
}
