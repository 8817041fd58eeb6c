//! The secondary names of a load's units, by which units are found too.
ghost use Rattle.std.specs.Prelude.{◌≡◌, IfOk, OnOk};
ghost use Rattle.parallel_load.specs.{SearchPrefixes.{IsNonDecreasing}, SecondaryNames.{AddsNames, AreSecondaryNames}};

use crate::loaded::NameLoad;
use plain_values::TryClone;
use std::alloc::{AllocError, Global};
use std::marker::Model;
use unit_name::UnitName;

/// The names of units other than their main names, in byte order, each with the index of its unit. Names that only
/// links of templates give may be outside the universe.
#[derive(Debug)]
pub struct SecondaryNames {
    pairs: Vec<(UnitName, usize)>,
}

impl Drop for SecondaryNames {
    fn drop(self) {
        let SecondaryNames { pairs: _ } = self;
    }
}

impl Model for SecondaryNames {
    ghost use Rattle.std.specs.Prelude.{List, ℕ};
    ghost use Rattle.unit_name.specs.Names.{Name};
    ghost use Rattle.parallel_load.specs.SearchPrefixes.{IsNonDecreasing};

    ghost Value = { List (Name × ℕ) };

    ghost view = { λ n. n.pairs.items };

    ghost invariant = { λ n. IsNonDecreasing n.pairs.items };
}

impl SecondaryNames {
    /// The secondary names of the units among these. Fails only if memory runs out.
    pub(crate) fn of(
        alloc: Global,
        names: &[(UnitName, NameLoad)],
    ) -> Result<SecondaryNames, AllocError>
        ensures second { IfOk result (AreSecondaryNames names.now) }
    {
        let mut pairs = pairs_of(alloc, names)?;
        pairs.sort_unstable();
        Ok(SecondaryNames { pairs })
    }

    /// The names, each with the index of its unit. Allocates nothing.
    pub(crate) fn as_slice(&self) -> &[(UnitName, usize)]
        ensures pairs { result.now ≡ self.now }
        ensures ascending { IsNonDecreasing result.now }
    {
        self.pairs.as_slice()
    }
}

// The same pairs in the order of the units.
fn pairs_of(
    alloc: Global,
    names: &[(UnitName, NameLoad)],
) -> Result<Vec<(UnitName, usize)>, AllocError>
    ensures second { IfOk result (λ pairs. AreSecondaryNames names.now pairs.items) }
{
    let mut pairs = Vec::new(alloc);
    for (index, (name, load)) in names.iter().enumerate() {
        if let NameLoad::Unit(unit) = load {
            add_others(&mut pairs, name, index, unit.get().names.as_slice())?;
        }
    }
    Ok(pairs)
}

// Appends the names of the unit with an index, without its main name.
fn add_others(
    pairs: &mut Vec<(UnitName, usize)>,
    name: &UnitName,
    index: usize,
    names: &[UnitName],
) -> Result<(), AllocError>
    ensures added { OnOk result
        (AddsNames index name.now names.now pairs.old.items pairs.new.items) }
{
    let own = name.bytes();
    for other in names {
        if other.bytes() != own {
            pairs.push((other.try_clone()?, index))?;
        }
    }
    Ok(())
}
