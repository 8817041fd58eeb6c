//! The contents of a unit file.
ghost use Rattle.std.specs.Prelude.{◌≡◌, IfOk};

use crate::assignments::{Assignment, Note};
use plain_values::{Items, TryClone};
use std::alloc::AllocError;

/// The contents of a unit file: its assignments, and notes on lines that assign nothing, each in file order.
#[derive(Debug, PartialEq, Eq, Drop)]
pub struct Sections {
    /// The assignments in sections with a good header.
    pub items: Items<Assignment>,
    /// What is wrong with other lines.
    pub notes: Items<Note>,
}

impl Sections {
    /// Returns an equal value. Fails only if memory runs out.
    pub fn try_clone(&self) -> Result<Sections, AllocError>
        ensures copy { IfOk result (λ copy. copy ≡ self.now) }
    {
        Ok(Sections {
            items: self.items.try_clone()?,
            notes: self.notes.try_clone()?,
        })
    }
}
