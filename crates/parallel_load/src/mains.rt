//! Dependencies by main names and by indices.
ghost use Rattle.std.specs.{Prelude.{◌≡◌, ◌<◌, ◌++◌, IfOk, IfSome, IsTrue, OnOk, length, map}, FinMap.{is_sorted}, List.{flat_map}};
ghost use Rattle.unit_name.specs.Names.{name_cmp};
ghost use Rattle.parallel_load.specs.{Indexes.{index_at, key_at}, Indices.{name_of}, Loads.{with_lists}, Indexing.{AreIndexed, IsMainIndex}};
ghost use Rattle.parallel_load.specs.Normalized.{list_indices, list_normalized, other_index, normalized_name};
ghost use Rattle.parallel_load.specs.declared.loaded.NameLoad.TheVariants.{Unit as OfUnit};

use crate::kept::{LoadHeld, NamedLists, RawLoad};
use crate::loaded::{Dependency, NameLoad};
use plain_values::{Items, Shared, TryClone};
use setting_rules::{DependencyList, in_byte_order};
use sorted_pairs::seek;
use std::alloc::{AllocError, Global};
use std::marker::Model;
use std::mem;
use unit_loads::Unit;
use unit_name::UnitName;

/// The names of a load in byte order, each with the index of its main name: the position of that name among them.
#[derive(Debug)]
pub struct Mains {
    names: Vec<(UnitName, usize)>,
}

impl Drop for Mains {
    fn drop(self) {
        let Mains { names: _ } = self;
    }
}

impl Model for Mains {
    ghost use Rattle.std.specs.Prelude.{List, ℕ};
    ghost use Rattle.unit_name.specs.Names.{Name};
    ghost use Rattle.parallel_load.specs.Indexes.{IsIndex};

    ghost Value = { List (Name × ℕ) };

    ghost view = { λ m. m.names.items };

    ghost invariant = { λ m. IsIndex m.names.items };
}

/// A name with what it resolves to, its dependencies by main names, the lists that it had before, and its dependencies
/// by indices.
#[derive(Drop)]
pub(crate) struct Normalized {
    pub name: UnitName,
    pub load: NameLoad,
    pub lists: NamedLists,
    pub deps: Shared<Items<Dependency>>,
}

impl Mains {
    /// The indices of these names, which are in byte order. One search for each alias. Fails only if memory runs out.
    pub(crate) fn of(alloc: Global, names: &[(UnitName, RawLoad)]) -> Result<Mains, AllocError>
        requires sorted { IsTrue (is_sorted name_cmp names.now) }
        ensures mains { IfOk result (AreIndexed names.now names.now) }
    {
        let names = main_indices(alloc, names)?;
        Ok(Mains { names })
    }

    // The index of a name's main name. None if that is the unit itself, and for a name outside the load.
    fn other(&self, unit: &UnitName, name: &UnitName) -> Option<usize>
        ensures index { result ≡ other_index self.now unit.now name.now }
        ensures within { IfSome result (λ i. i < length self.now) }
    {
        match seek(&self.names, name) {
            Ok(at) => {
                let index = self.names[at].1;
                if self.names[index].0 == *unit {
                    None
                } else {
                    Some(index)
                }
            }
            Err(_) => None,
        }
    }

    // The name with an index.
    fn name(&self, index: usize) -> &UnitName
        requires within { index < length self.now }
        ensures name { result.now ≡ key_at self.now index }
    {
        &self.names[index].0
    }

    /// The index of the main name of the name at this position. Allocates nothing.
    pub(crate) fn main_of(&self, at: usize) -> usize
        requires within { at < length self.now }
        ensures index { result ≡ index_at self.now at }
    {
        self.names[at].1
    }

    /// Replaces names by main names and by indices, for all of these names. Fails only if memory runs out.
    pub(crate) fn normalize_all(
        &self,
        alloc: Global,
        names: Vec<(UnitName, RawLoad)>,
    ) -> Result<Vec<Normalized>, AllocError>
        ensures names { IfOk result
            (λ all. all.items ≡ map (normalized_name self.now) names.items) }
    {
        let mut all = Vec::with_capacity(alloc, names.len())?;
        for (name, kept) in names {
            all.push(self.normalize(alloc, name, kept)?)?;
        }
        Ok(all)
    }

    // Replaces names by main names and by indices, for one name.
    pub(crate) fn normalize(
        &self,
        alloc: Global,
        name: UnitName,
        kept: RawLoad,
    ) -> Result<Normalized, AllocError>
        ensures one { IfOk result (λ one. one ≡ normalized_name self.now (name, kept)) }
    {
        let RawLoad { held } = kept;
        match held {
            LoadHeld::Fresh(unit) => self.normalize_unit(alloc, name, Box::into_inner(unit)),
            LoadHeld::Alias(main) => Ok(Normalized {
                name,
                load: NameLoad::Alias(main),
                lists: NamedLists::nowhere(),
                deps: Shared::new(alloc, Items::new(alloc))?,
            }),
            LoadHeld::Unit(unit, lists) => self.normalize_again(alloc, name, unit, lists),
        }
    }

    // The same for a unit that was read.
    fn normalize_unit(
        &self,
        alloc: Global,
        name: UnitName,
        unit: Unit,
    ) -> Result<Normalized, AllocError>
        ensures one { IfOk result (λ one. one ≡ normalized_name self.now (name, OfUnit unit)) }
    {
        let (normalized, deps) = self.normalize_deps(alloc, &unit.name, unit.deps.as_slice())?;
        let (unit, lists) = with_lists_apart(alloc, unit, normalized)?;
        Ok(Normalized {
            name,
            load: NameLoad::Unit(unit),
            lists,
            deps,
        })
    }

    // The same for a unit of another load, with what it named there. The unit is shared if it stays as it is.
    fn normalize_again(
        &self,
        alloc: Global,
        name: UnitName,
        unit: Shared<Unit>,
        lists: NamedLists,
    ) -> Result<Normalized, AllocError>
        ensures one { IfOk result
            (λ one. one ≡ normalized_name self.now (name, with_lists (OfUnit unit) lists)) }
    {
        let (normalized, deps) = self.normalize_deps(alloc, &unit.get().name, lists.as_slice())?;
        let unit = with_dependencies(alloc, unit, normalized)?;
        Ok(Normalized {
            name,
            load: NameLoad::Unit(unit),
            lists,
            deps,
        })
    }

    // Dependency lists by main names, and the dependencies by indices.
    fn normalize_deps(
        &self,
        alloc: Global,
        unit: &UnitName,
        lists: &[DependencyList],
    ) -> Result<(Items<DependencyList>, Shared<Items<Dependency>>), AllocError>
        ensures lists { IfOk result
            (λ made. made.0 ≡ map (list_normalized self.now unit.now) lists.now) }
        ensures deps { IfOk result
            (λ made. made.1 ≡ flat_map (list_indices self.now unit.now) lists.now) }
    {
        let mut deps = Items::new(alloc);
        let normalized = self.normalize_lists(alloc, unit, lists, &mut deps)?;
        Ok((normalized, Shared::new(alloc, deps)?))
    }

    // Dependency lists by main names. Appends the dependencies by indices.
    fn normalize_lists(
        &self,
        alloc: Global,
        unit: &UnitName,
        lists: &[DependencyList],
        deps: &mut Items<Dependency>,
    ) -> Result<Items<DependencyList>, AllocError>
        ensures lists { IfOk result
            (λ normalized. normalized ≡ map (list_normalized self.now unit.now) lists.now) }
        ensures deps { OnOk result
            (deps.new ≡ deps.old ++ flat_map (list_indices self.now unit.now) lists.now) }
    {
        let mut normalized = Vec::with_capacity(alloc, lists.len())?;
        for list in lists {
            normalized.push(self.normalize_list(alloc, unit, list, deps)?)?;
        }
        Ok(Items::from_vec(normalized))
    }

    // One dependency list by main names. Appends the dependencies by indices.
    fn normalize_list(
        &self,
        alloc: Global,
        unit: &UnitName,
        list: &DependencyList,
        deps: &mut Items<Dependency>,
    ) -> Result<DependencyList, AllocError>
        ensures list { IfOk result
            (λ normalized. normalized ≡ list_normalized self.now unit.now list.now) }
        ensures deps { OnOk result
            (deps.new ≡ deps.old ++ list_indices self.now unit.now list.now) }
    {
        let kind = list.kind;
        let mut mains = Vec::with_capacity(alloc, list.names.as_slice().len())?;
        for name in list.names.as_slice() {
            if let Some(index) = self.other(unit, name) {
                mains.push(self.name(index).try_clone()?)?;
                deps.push(Dependency { kind, index })?;
            }
        }
        Ok(DependencyList {
            kind,
            names: in_byte_order(mains),
        })
    }
}

// The unit with these dependencies, and the lists that it had before. It has them itself if they are the same.
fn with_lists_apart(
    alloc: Global,
    unit: Unit,
    deps: Items<DependencyList>,
) -> Result<(Shared<Unit>, NamedLists), AllocError>
    ensures unit { IfOk result (λ made. made.0 ≡ record unit { deps = deps }) }
    ensures lists { IfOk result (λ made. made.1 ≡ unit.deps) }
{
    if unit.deps == deps {
        let unit = Shared::new(alloc, unit)?;
        let lists = NamedLists::of_unit(unit.try_clone()?);
        return Ok((unit, lists));
    }
    let mut unit = unit;
    let lists = NamedLists::alone(alloc, mem::replace(&mut unit.deps, deps))?;
    Ok((Shared::new(alloc, unit)?, lists))
}

// The unit with these dependencies. It is the same shared unit if it has them already.
fn with_dependencies(
    alloc: Global,
    unit: Shared<Unit>,
    deps: Items<DependencyList>,
) -> Result<Shared<Unit>, AllocError>
    ensures unit { IfOk result (λ made. made ≡ record unit { deps = deps }) }
{
    if unit.get().deps == deps {
        return Ok(unit);
    }
    let mut copy = unit.get().try_clone()?;
    copy.deps = deps;
    Shared::new(alloc, copy)
}

// Names in byte order, each with the index of its main name.
fn main_indices(
    alloc: Global,
    names: &[(UnitName, RawLoad)],
) -> Result<Vec<(UnitName, usize)>, AllocError>
    requires sorted { IsTrue (is_sorted name_cmp names.now) }
    ensures indexed { IfOk result (λ indices. AreIndexed names.now names.now indices.items) }
{
    let mut indices = Vec::with_capacity(alloc, names.len())?;
    for (index, (name, kept)) in names.iter().enumerate() {
        let main = main_index(names, index, kept);
        indices.push((name.try_clone()?, main))?;
    }
    Ok(indices)
}

// The index of the main name of the name with an index, from what that name resolves to.
fn main_index(names: &[(UnitName, RawLoad)], index: usize, kept: &RawLoad) -> usize
    requires sorted { IsTrue (is_sorted name_cmp names.now) }
    requires index { index < length names.now }
    ensures main { IsMainIndex names.now (name_of names.now index, kept.now) result }
{
    match kept.main() {
        None => index,
        Some(main) => match seek(names, main) {
            Ok(at) => at,
            Err(_) => index,
        },
    }
}
