//! Values shared by their copies.
ghost use Rattle.std.specs.Prelude.{◌≡◌, IfOk};

use crate::keys::TryClone;
use std::alloc::{AllocError, Global};
use std::marker::Model;
use std::sync::Arc;

/// A value that all its copies share, so that a copy takes constant time and no memory. Contracts see the value itself.
#[derive(Debug, Drop)]
pub struct Shared<T: Drop> {
    value: Arc<T, Global>,
}

impl<T: Drop> Model for Shared<T> {
    ghost use Rattle.std.specs.Arc.{arc_value};

    ghost Value = { T };

    ghost view = { λ s. arc_value s.value };
}

impl<T: Drop> Shared<T> {
    /// Makes a shared value. Fails only if memory runs out; the value is then dropped.
    pub fn new(alloc: Global, value: T) -> Result<Self, AllocError>
        ensures value { IfOk result (λ shared. shared ≡ value) }
    {
        Ok(Shared {
            value: Arc::new(alloc, value)?,
        })
    }

    /// Borrows the value. Allocates nothing.
    pub fn get(&self) -> &T
        ensures value { result.now ≡ self.now }
    {
        &self.value
    }
}

impl<T: Drop> TryClone for Shared<T> {
    /// Returns an equal value that shares this one. Fails only if there are too many copies already.
    fn try_clone(&self) -> Result<Shared<T>, AllocError> {
        Ok(Shared {
            value: Arc::try_clone(&self.value)?,
        })
    }
}

impl<T: PartialEq + Drop> PartialEq for Shared<T> {
    ghost eq = { T.eq };

    ghost laws = { T.laws };

    fn eq(&self, other: &Self) -> bool {
        *self.value == *other.value
    }
}

impl<T: Eq + Drop> Eq for Shared<T> {
    ghost laws = { T.Eq.laws };
}
