//! What is loaded for one name while the closure runs.
ghost use Rattle.std.specs.{Prelude.{◌≡◌, [], IfOk}, Option.{option_copied}};

use crate::loaded::NameLoad;
use plain_values::{Items, Shared, TryClone};
use setting_rules::DependencyList;
use std::alloc::{AllocError, Global};
use std::marker::Model;
use unit_loads::Unit;
use unit_name::UnitName;

/// Where the lists of what a unit names are held, before names are replaced by main names.
#[derive(Debug, Drop)]
pub(crate) enum ListsHeld {
    /// In this unit.
    Unit(Shared<Unit>),
    /// In these lists.
    Alone(Shared<Items<DependencyList>>),
    /// There are none, as for an alias.
    Nowhere,
}

/// The dependency lists of a name's unit, before names are replaced by main names. A copy shares them.
#[derive(Debug)]
pub struct NamedLists {
    held: ListsHeld,
}

impl Drop for NamedLists {
    fn drop(self) {
        let NamedLists { held: _ } = self;
    }
}

impl Model for NamedLists {
    ghost use Rattle.std.specs.Prelude.{List};
    ghost use Rattle.setting_rules.specs.declared.dependency_lists.DependencyList.{DependencyList};
    ghost use Rattle.parallel_load.specs.ListsHeld.{coded_lists, lists_held};

    ghost Value = { List DependencyList };

    ghost coded = { coded_lists };

    ghost view = { λ l. lists_held l.held };
}

impl NamedLists {
    /// No lists. Allocates nothing.
    pub(crate) fn nowhere() -> NamedLists
        ensures none { result ≡ [] }
    {
        NamedLists {
            held: ListsHeld::Nowhere,
        }
    }

    /// The lists of a unit. Allocates nothing.
    pub(crate) fn of_unit(unit: Shared<Unit>) -> NamedLists
        ensures lists { result ≡ unit.deps }
    {
        NamedLists {
            held: ListsHeld::Unit(unit),
        }
    }

    /// These lists. Fails only if memory runs out.
    pub(crate) fn alone(
        alloc: Global,
        lists: Items<DependencyList>,
    ) -> Result<NamedLists, AllocError>
        ensures lists { IfOk result (λ made. made ≡ lists) }
    {
        Ok(NamedLists {
            held: ListsHeld::Alone(Shared::new(alloc, lists)?),
        })
    }

    /// The lists. Allocates nothing.
    pub(crate) fn as_slice(&self) -> &[DependencyList]
        ensures lists { result.now ≡ self.now }
    {
        match &self.held {
            ListsHeld::Unit(unit) => unit.get().deps.as_slice(),
            ListsHeld::Alone(lists) => lists.get().as_slice(),
            ListsHeld::Nowhere => &[],
        }
    }
}

/// A copy shares the lists.
impl TryClone for NamedLists {
    fn try_clone(&self) -> Result<NamedLists, AllocError> {
        let held = match &self.held {
            ListsHeld::Unit(unit) => ListsHeld::Unit(unit.try_clone()?),
            ListsHeld::Alone(lists) => ListsHeld::Alone(lists.try_clone()?),
            ListsHeld::Nowhere => ListsHeld::Nowhere,
        };
        Ok(NamedLists { held })
    }
}

/// What a name resolves to before names are replaced by main names, and where that is held.
#[derive(Debug, Drop)]
pub(crate) enum LoadHeld {
    /// A unit that was read for the name. It is boxed, so moving it costs one word.
    Fresh(Box<Unit>),
    /// The main name of which the name is an alias.
    Alias(UnitName),
    /// A unit of another load, with what it named there before names were replaced by main names.
    Unit(Shared<Unit>, NamedLists),
}

/// What a name resolves to before names are replaced by main names. Contracts see that value, not where it is held.
#[derive(Debug, Drop)]
pub(crate) struct RawLoad {
    pub held: LoadHeld,
}

impl Model for RawLoad {
    ghost use Rattle.parallel_load.specs.{Loads.{coded_name_load}, LoadHeld.{load_held}, declared.loaded.NameLoad.{NameLoad}};

    ghost Value = { NameLoad };

    ghost coded = { coded_name_load };

    ghost view = { λ k. load_held k.held };
}

impl RawLoad {
    ghost use Rattle.parallel_load.specs.declared.loaded.NameLoad.TheVariants.{Unit as OfUnit, Alias as OfAlias};
    ghost use Rattle.parallel_load.specs.{Loads.{lists_in, with_lists}, LoadHeld.{alias_in}};

    /// A unit that was read. Fails only if memory runs out.
    pub fn fresh(alloc: Global, unit: Unit) -> Result<RawLoad, AllocError>
        ensures kept { IfOk result (λ kept. kept ≡ OfUnit unit) }
    {
        Ok(RawLoad {
            held: LoadHeld::Fresh(Box::new(alloc, unit)?),
        })
    }

    /// A main name. Allocates nothing.
    pub fn alias(main: UnitName) -> RawLoad
        ensures kept { result ≡ OfAlias main }
    {
        RawLoad {
            held: LoadHeld::Alias(main),
        }
    }

    /// What a name resolves to in a load, with the lists that it had before names were replaced by main names. Both are
    /// shared.
    pub fn again(load: &NameLoad, lists: &NamedLists) -> Result<RawLoad, AllocError>
        ensures kept { IfOk result (λ kept. kept ≡ with_lists load.now lists.now) }
    {
        let held = match load {
            NameLoad::Unit(unit) => LoadHeld::Unit(unit.try_clone()?, lists.try_clone()?),
            NameLoad::Alias(main) => LoadHeld::Alias(main.try_clone()?),
        };
        Ok(RawLoad { held })
    }

    /// The main name, for an alias.
    pub fn main(&self) -> Option<&UnitName>
        ensures alias { option_copied result ≡ alias_in self.now }
    {
        match &self.held {
            LoadHeld::Alias(main) => Some(main),
            LoadHeld::Fresh(_) | LoadHeld::Unit(_, _) => None,
        }
    }

    /// The lists of what it names. An alias has none.
    pub fn lists(&self) -> &[DependencyList]
        ensures lists { result.now ≡ lists_in self.now }
    {
        match &self.held {
            LoadHeld::Fresh(unit) => unit.deps.as_slice(),
            LoadHeld::Alias(_) => &[],
            LoadHeld::Unit(_, lists) => lists.as_slice(),
        }
    }

    /// Whether it is a unit that was read. Only the count of units that were read uses this.
    pub fn is_fresh(&self) -> bool {
        matches!(&self.held, LoadHeld::Fresh(_))
    }
}

/// A unit that was read is copied; what another load holds is shared.
impl TryClone for RawLoad {
    fn try_clone(&self) -> Result<RawLoad, AllocError> {
        let held = match &self.held {
            LoadHeld::Fresh(unit) => {
                let alloc = *Box::allocator(unit);
                LoadHeld::Fresh(Box::new(alloc, unit.try_clone()?)?)
            }
            LoadHeld::Alias(main) => LoadHeld::Alias(main.try_clone()?),
            LoadHeld::Unit(unit, lists) => LoadHeld::Unit(unit.try_clone()?, lists.try_clone()?),
        };
        Ok(RawLoad { held })
    }
}
