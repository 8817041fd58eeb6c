//! Conditional changes of a value that is already held, in place.
ghost use Rattle.std.specs.{Prelude.{◌≡◌, Bool}, Bool.{OnTrue, OnFalse}};
ghost use Rattle.join_law.specs.{Order.{IsJoin}, VersionOrder.{has_other}};

use crate::joins::Join;
use crate::versions::{Entry, Versioned};
use plain_values::Key;

/// A conditional change of a value: either it joins something into the value, or it does nothing. Allocates nothing.
pub trait Change: Drop {
    /// The type of values that it may change.
    type Value: Join;

    // Whether it applies to a value.
    ghost is_made: { Self → Self.Value → Bool };

    // What it joins if it applies.
    ghost added: { Self → Self.Value };

    /// Applies the change, and returns whether it applied.
    fn make(self, value: &mut Self::Value) -> bool
        ensures made { result ≡ is_made self value.old }
        ensures joined { OnTrue result (IsJoin Self.Value.below value.old (added self) value.new) }
        ensures same { OnFalse result (value.new ≡ value.old) }
        ensures valid { Self.Value.is_valid value.new };
}

/// Writes an entry, if an entry with another content is held.
#[derive(Drop)]
pub struct Overwrite<C: Key> {
    /// The entry to write.
    pub entry: Entry<C>,
}

impl<C: Key> Change for Overwrite<C> {
    type Value = Versioned<C>;

    ghost use Rattle.join_law.specs.{declared.versions.Versioned.TheVariants.{At}, VersionOrder.{has_other}};

    ghost is_made = { λ o value. has_other C.cmp o.entry.content value };

    ghost added = { λ o. At o.entry };

    /// Keeps the greater of the two entries.
    fn make(self, value: &mut Versioned<C>) -> bool {
        let Overwrite { entry } = self;
        is_other(value, &entry.content) && value.join_from(Versioned::At(entry)).is_ok()
    }
}

// Returns whether an entry with another content is held.
fn is_other<C: Key>(value: &Versioned<C>, content: &C) -> bool
    ensures other { result ≡ has_other C.cmp content.now value.now }
{
    match value {
        Versioned::Never => false,
        Versioned::At(entry) => !entry.content.cmp(content).is_eq(),
    }
}
