//! Loads one name.
ghost use Rattle.std.specs.Prelude.{◌≡◌, ◌++◌, ◌∷◌, [], IfOk, OnOk};
ghost use Rattle.parallel_load.specs.Alone.{named_in, names_in_lists};

use crate::kept::RawLoad;
use fragment_choice::AliasIndex;
use name_closure::Loads;
use plain_values::append_copies;
use setting_rules::DependencyList;
use std::alloc::{AllocError, Global};
use unit_loads::load_resolved;
use unit_name::UnitName;

/// Loads the names of one store.
#[derive(Drop)]
pub(crate) struct UnitLoader<'a> {
    index: AliasIndex<'a>,
}

impl<'a> UnitLoader<'a> {
    /// The loader for the store of an index. Allocates nothing.
    pub fn new(index: AliasIndex<'a>) -> UnitLoader<'a>
        ensures index { result.index ≡ index.entry }
    {
        UnitLoader { index }
    }
}

impl<'a> Loads<UnitName> for UnitLoader<'a> {
    ghost use Rattle.parallel_load.specs.{Alone.{IsLoadAlone, named_in}, AloneLaws.{one_alone}};

    type Loaded = RawLoad;

    ghost is_node = { λ _ _. Unit {0} };

    ghost is_loaded = { λ loader name one. IsLoadAlone loader.index name one };

    ghost named = { λ _ one. named_in one };

    fn load(&self, alloc: Global, node: &UnitName) -> Result<RawLoad, AllocError> {
        let resolved = self.index.resolve(alloc, node)?;
        if resolved.main == *node {
            let unit = load_resolved(alloc, &self.index, resolved)?;
            RawLoad::fresh(alloc, unit)
        } else {
            Ok(RawLoad::alias(resolved.main))
        }
    }

    fn names(&self, alloc: Global, one: &RawLoad) -> Result<Vec<UnitName>, AllocError> {
        kept_names(alloc, one)
    }

    ghost one = { one_alone };
}

/// The names that the closure has to load because of this one. Fails only if memory runs out.
pub(crate) fn kept_names(alloc: Global, one: &RawLoad) -> Result<Vec<UnitName>, AllocError>
    ensures names { IfOk result (λ names. names.items ≡ named_in one.now) }
{
    let mut names = Vec::new(alloc);
    add_lists(&mut names, one.lists())?;
    if let Some(main) = one.main() {
        names.push(main.try_clone()?)?;
    }
    Ok(names)
}

// Appends all names in dependency lists.
fn add_lists(names: &mut Vec<UnitName>, lists: &[DependencyList]) -> Result<(), AllocError>
    ensures added { OnOk result (names.new.items ≡ names.old.items ++ names_in_lists lists.now) }
{
    for list in lists {
        append_copies(names, list.names.as_slice())?;
    }
    Ok(())
}
