//! Loads names, and reuses from another load what is unchanged.
ghost use Rattle.std.specs.{Prelude.{◌≡◌, IfOk, IfSome, IsTrue}, Ordering.{nat_cmp}, FinMap.{is_sorted}, List.{All}, List.Sorted.{IsStrictlySortedBy}};
ghost use Rattle.list_laws.specs.Members.{IsAmong};
ghost use Rattle.unit_name.specs.Names.{name_cmp};
ghost use Rattle.parallel_load.specs.{Alone.{IsLoadAlone}, Loads.{with_lists}, Refreshes.{AreStill, IsHeldOn}};

use crate::kept::{NamedLists, RawLoad};
use crate::loaded::{Loaded, NameLoad};
use crate::loader::{UnitLoader, kept_names};
use name_closure::Loads;
use plain_values::TryClone;
use sorted_pairs::seek;
use std::alloc::{AllocError, Global};
use std::marker::Model;
use unit_name::UnitName;

/// The names of a load, each with what was loaded for it before names were replaced by main names. The affected names,
/// whose indices are in ascending order, have nothing. Fails only if memory runs out.
pub(crate) fn still_of(
    alloc: Global,
    loaded: &Loaded,
    affected: &[usize],
) -> Result<Vec<(UnitName, Option<RawLoad>)>, AllocError>
    requires ascending { IsStrictlySortedBy nat_cmp affected.now }
    ensures still { IfOk result
        (λ still. AreStill affected.now loaded.now.names loaded.now.named still.items) }
{
    let names = loaded.names();
    let named = loaded.named();
    let mut still = Vec::with_capacity(alloc, names.len())?;
    for (index, (name, load)) in names.iter().enumerate() {
        let kept = kept_unless(affected, index, load, &named[index])?;
        still.push((name.try_clone()?, kept))?;
    }
    Ok(still)
}

// What was loaded for the name with an index, unless that name is affected.
fn kept_unless(
    affected: &[usize],
    index: usize,
    load: &NameLoad,
    lists: &NamedLists,
) -> Result<Option<RawLoad>, AllocError>
    requires ascending { IsStrictlySortedBy nat_cmp affected.now }
    ensures same { IfOk result (λ kept. IfSome kept (λ one. one ≡ with_lists load.now lists.now)) }
    ensures left { IfOk result (λ kept. IfSome kept (λ _. ¬ IsAmong index affected.now)) }
{
    match affected.binary_search(&index) {
        Ok(_) => Ok(None),
        Err(_) => Ok(Some(RawLoad::again(load, lists)?)),
    }
}

/// Loads the names of one store, and takes what is known to be unchanged from another load.
#[derive(Drop)]
pub(crate) struct HeldLoader<'a> {
    reader: UnitLoader<'a>,
    held: Vec<(UnitName, Option<RawLoad>)>,
}

impl<'a> Model for HeldLoader<'a> {
    ghost use Rattle.path_maps.specs.HostViews.{HostViewMap, coded_host_view};
    ghost use Rattle.parallel_load.specs.Refreshes.{AreHeldOn};

    ghost Value = { HostViewMap };

    ghost coded = { coded_host_view };

    ghost view = { λ l. l.reader.index };

    ghost invariant = { λ l. AreHeldOn l.reader.index l.held.items };
}

impl<'a> HeldLoader<'a> {
    /// The loader that reads what isn't held. Allocates nothing.
    pub fn of(reader: UnitLoader<'a>, held: Vec<(UnitName, Option<RawLoad>)>) -> HeldLoader<'a>
        requires sorted { IsTrue (is_sorted name_cmp held.items) }
        requires loaded { All (IsHeldOn reader.index) held.items }
        ensures view { result ≡ reader.entry.index }
    {
        HeldLoader { reader, held }
    }

    // What is held for a name.
    fn held(&self, name: &UnitName) -> Option<&RawLoad>
        ensures loaded { IfSome result (λ one. IsLoadAlone self.now name.now one.now) }
    {
        match seek(&self.held, name) {
            Ok(at) => self.held[at].1.as_ref(),
            Err(_) => None,
        }
    }
}

impl<'a> Loads<UnitName> for HeldLoader<'a> {
    ghost use Rattle.parallel_load.specs.{Alone.{named_in}, AloneLaws.{one_of_name}};

    type Loaded = RawLoad;

    ghost is_node = { λ _ _. Unit {0} };

    ghost is_loaded = { λ loader name one. IsLoadAlone loader name one };

    ghost named = { λ _ one. named_in one };

    fn load(&self, alloc: Global, node: &UnitName) -> Result<RawLoad, AllocError> {
        match self.held(node) {
            Some(kept) => kept.try_clone(),
            None => self.reader.load(alloc, node),
        }
    }

    fn names(&self, alloc: Global, one: &RawLoad) -> Result<Vec<UnitName>, AllocError> {
        kept_names(alloc, one)
    }

    ghost one = { one_of_name };
}
