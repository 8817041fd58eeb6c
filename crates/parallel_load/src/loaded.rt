//! A load: the unit or the main name of each name.
ghost use Rattle.std.specs.{Prelude.{◌≡◌, ◌<◌, IfOk, IsTrue, length, map}, FinMap.{is_sorted}, List.{All}, Option.{option_copied}};
ghost use Rattle.sorted_pairs.specs.Places.{IsAt};
ghost use Rattle.unit_name.specs.Names.{name_cmp};
ghost use Rattle.parallel_load.specs.{AskedLaws.{asked_for}, SearchPrefixes.{IsNonDecreasing}, Loads.{load_at, main_in, unit_in, units_in}, Indices.{AreDependencyAdjacency, IsIndexOfMain}};
ghost use Rattle.parallel_load.specs.{LoadRows.{IsKept}, SecondaryNames.{AreSecondaryNames}, Patched.{FitIn, patched_load, put_load, with_loads}};

use crate::kept::NamedLists;
use crate::mains::Mains;
use crate::secondary_names::SecondaryNames;
use crate::words::CachedLinkTargets;
use plain_values::{Items, Shared, TryClone};
use replica_store::Viewer;
use setting_rules::DepKind;
use sorted_pairs::seek;
use std::alloc::{AllocError, Global};
use std::marker::Model;
use unit_loads::Unit;
use unit_name::UnitName;

/// What a name of a load resolves to.
#[derive(Debug, PartialEq, Eq)]
pub enum NameLoad {
    /// The unit of which the name is the main name. Loads share units.
    Unit(Shared<Unit>),
    /// The main name of the unit of which the name is an alias.
    Alias(UnitName),
}

impl Drop for NameLoad {
    fn drop(self) {
        match self {
            NameLoad::Unit(_) => (),
            NameLoad::Alias(_) => (),
        }
    }
}

/// A copy shares the unit.
impl TryClone for NameLoad {
    fn try_clone(&self) -> Result<NameLoad, AllocError> {
        Ok(match self {
            NameLoad::Unit(unit) => NameLoad::Unit(unit.try_clone()?),
            NameLoad::Alias(main) => NameLoad::Alias(main.try_clone()?),
        })
    }
}

/// A dependency on a unit by its index: the position of the unit's name among all names of the load, from 0.
#[derive(Clone, Copy, Debug, PartialEq, Eq)]
pub struct Dependency {
    /// The kind of the dependency.
    pub kind: DepKind,
    /// The index of the unit's name.
    pub index: usize,
}

/// What is loaded from one store: who it is for, the names that were asked for, and what each name of the universe
/// resolves to.
#[derive(Debug)]
pub struct Loaded {
    viewer: Viewer,
    extra: Items<UnitName>,
    names: Vec<(UnitName, NameLoad)>,
    kept: Shared<CachedRows>,
    fresh: u64,
}

impl Drop for Loaded {
    fn drop(self) {
        let Loaded {
            viewer: _,
            extra: _,
            names: _,
            kept: _,
            fresh: _,
        } = self;
    }
}

/// Data that a load caches besides its names, so that another load can be made from it. Loads whose units name the same
/// share it.
#[derive(Debug)]
pub struct CachedRows {
    /// For each name the lists of its unit, before names are replaced by main names.
    pub named: Vec<NamedLists>,
    /// For each name the dependencies of its unit, by indices.
    pub deps: Vec<Shared<Items<Dependency>>>,
    /// The index of each name's main name.
    pub mains: Mains,
    /// The secondary names of the units.
    pub second: SecondaryNames,
    /// The link targets at paths of one component.
    pub words: Shared<CachedLinkTargets>,
}

impl Drop for CachedRows {
    fn drop(self) {
        let CachedRows {
            named: _,
            deps: _,
            mains: _,
            second: _,
            words: _,
        } = self;
    }
}

/// Units of a load that were read again, each with the index of its name, and the cached data of the load, which stays
/// valid.
#[derive(Drop)]
pub struct Patches {
    /// The cached data of the load.
    pub kept: Shared<CachedRows>,
    /// Its units that were read again, each with the index of its name.
    pub units: Vec<(usize, NameLoad)>,
}

impl Model for Loaded {
    ghost use Rattle.parallel_load.specs.{Loads.{LoadMap, coded_load}, LoadRows.{IsKept}, SecondaryNames.{AreSecondaryNames}};

    ghost Value = { LoadMap };

    ghost coded = { coded_load };

    ghost view = { λ l. record {
      viewer = l.viewer;
      extra = l.extra;
      names = l.names.items;
      named = l.kept.named.items;
      words = l.kept.words;
    } };

    ghost invariant = { λ l. IsKept l.names.items l.kept.named.items l.kept.deps.items l.kept.mains
        × AreSecondaryNames l.names.items l.kept.second };
}

impl Loaded {
    // The load of these names, which are in byte order. `fresh` counts the units that were read for it.
    pub(crate) fn new(
        viewer: Viewer,
        extra: Items<UnitName>,
        names: Vec<(UnitName, NameLoad)>,
        kept: Shared<CachedRows>,
        fresh: u64,
    ) -> Loaded
        requires kept { IsKept names.items kept.named.items kept.deps.items kept.mains }
        requires second { AreSecondaryNames names.items kept.second }
        ensures load { result ≡ record {
          viewer = viewer;
          extra = extra;
          names = names.items;
          named = kept.named.items;
          words = kept.words;
        } }
    {
        Loaded {
            viewer,
            extra,
            names,
            kept,
            fresh,
        }
    }

    /// How many units were read for the load: all of them for a new load, and only those that were read again for one
    /// that refreshes another. Allocates nothing.
    pub fn fresh(&self) -> u64 {
        self.fresh
    }

    /// The allocator of the load.
    pub fn allocator(&self) -> Global {
        *self.names.allocator()
    }

    /// Who the load is for: a host's manager or one without a host, and by which rules. Allocates nothing.
    pub fn viewer(&self) -> &Viewer
        ensures viewer { result.now ≡ self.now.viewer }
    {
        &self.viewer
    }

    /// The names that were asked for, in the order in which they were given. Allocates nothing.
    pub fn extra(&self) -> &[UnitName]
        ensures extra { result.now ≡ self.now.extra }
    {
        self.extra.as_slice()
    }

    /// The same load, with these as the names that were asked for. Allocates nothing.
    pub fn asked_for(self, extra: Items<UnitName>) -> Loaded
        ensures load { result ≡ asked_for extra self }
    {
        let Loaded {
            viewer,
            extra: _before,
            names,
            kept,
            fresh,
        } = self;
        Loaded {
            viewer,
            extra,
            names,
            kept,
            fresh,
        }
    }

    /// The load with these units in place of the old ones. Only these count as read. Allocates nothing.
    pub fn patched(self, patches: Patches) -> Loaded
        requires fit { FitIn self patches }
        ensures load { result ≡ patched_load self patches.units.items }
    {
        let Patches { kept, units } = patches;
        let Loaded {
            viewer,
            extra,
            names,
            kept: _,
            fresh: _,
        } = self;
        let fresh = units.len() as u64;
        let names = with_units(names, units);
        Loaded::new(viewer, extra, names, kept, fresh)
    }

    /// All names of the universe in byte order, each with what it resolves to. Allocates nothing.
    pub fn names(&self) -> &[(UnitName, NameLoad)]
        ensures names { result.now ≡ self.now.names }
        ensures sorted { IsTrue (is_sorted name_cmp result.now) }
    {
        self.names.as_slice()
    }

    /// For each name, in the same order, the dependencies of its unit by indices. An alias has none. Allocates nothing.
    pub fn dependencies(&self) -> &[Shared<Items<Dependency>>]
        ensures rows { AreDependencyAdjacency self.now.names result.now }
    {
        self.kept.get().deps.as_slice()
    }

    /// For each name, in the same order, the lists of its unit before names are replaced by main names.
    pub(crate) fn named(&self) -> &[NamedLists]
        ensures named { result.now ≡ self.now.named }
        ensures each { length result.now ≡ length self.now.names }
    {
        self.kept.get().named.as_slice()
    }

    /// The secondary names of the units, each with the index of its unit. Allocates nothing.
    pub(crate) fn secondary_names(&self) -> &[(UnitName, usize)]
        ensures second { AreSecondaryNames self.now.names result.now }
        ensures ascending { IsNonDecreasing result.now }
    {
        self.kept.get().second.as_slice()
    }

    /// The link targets at paths of one component, as they were when the load was made. Allocates nothing.
    pub(crate) fn words(&self) -> &Shared<CachedLinkTargets>
        ensures words { result.now ≡ self.now.words }
    {
        &self.kept.get().words
    }

    /// The cached data, shared. Fails only if memory runs out.
    pub(crate) fn kept(&self) -> Result<Shared<CachedRows>, AllocError>
        ensures kept { IfOk result
            (λ kept. IsKept self.now.names self.now.named kept.deps.items kept.mains) }
        ensures named { IfOk result (λ kept. kept.named.items ≡ self.now.named) }
        ensures second { IfOk result (λ kept. AreSecondaryNames self.now.names kept.second) }
        ensures words { IfOk result (λ kept. kept.words ≡ self.now.words) }
    {
        self.kept.try_clone()
    }

    /// The unit of a main name. None for an alias, and for a name outside the universe. O(log n). Allocates nothing.
    pub fn unit(&self, name: &UnitName) -> Option<&Unit>
        ensures unit { option_copied result ≡ unit_in self.now name.now }
    {
        match self.resolves_to(name)? {
            NameLoad::Unit(unit) => Some(unit.get()),
            NameLoad::Alias(_) => None,
        }
    }

    /// The main name of a name. None for a name outside the universe. O(log n). Allocates nothing.
    pub fn main(&self, name: &UnitName) -> Option<&UnitName>
        ensures main { option_copied result ≡ main_in self.now name.now }
    {
        match self.resolves_to(name)? {
            NameLoad::Unit(unit) => Some(&unit.get().name),
            NameLoad::Alias(main) => Some(main),
        }
    }

    /// The index of the main name of the name at this position: the position of the main name among all names. It is the
    /// name of a unit. Allocates nothing.
    pub fn main_index_at(&self, at: usize) -> usize
        requires within { at < length self.now.names }
        ensures index { (name : _) → IsAt name_cmp name self.now.names at
            → IsIndexOfMain self.now name result }
    {
        self.kept.get().mains.main_of(at)
    }

    /// All units, in byte order of their names. Fails only if memory runs out.
    pub fn units(&self) -> Result<Vec<&Unit>, AllocError>
        ensures units { IfOk result (λ units. map (λ u. u.now) units.items ≡ units_in self.now) }
    {
        let mut units = Vec::new(self.allocator());
        for (_, load) in &self.names {
            if let NameLoad::Unit(unit) = load {
                units.push(unit.get())?;
            }
        }
        Ok(units)
    }

    /// What a name resolves to. None for a name outside the universe. O(log n). Allocates nothing.
    pub fn resolves_to(&self, name: &UnitName) -> Option<&NameLoad>
        ensures load { option_copied result ≡ load_at self.now name.now }
    {
        match seek(&self.names, name) {
            Ok(at) => Some(&self.names[at].1),
            Err(_) => None,
        }
    }
}

// Names, in which these units replace those with the same indices.
fn with_units(
    names: Vec<(UnitName, NameLoad)>,
    units: Vec<(usize, NameLoad)>,
) -> Vec<(UnitName, NameLoad)>
    requires within { All (λ u. u.0 < length names.items) units.items }
    ensures names { result.items ≡ with_loads names.items units.items }
{
    let mut names = names;
    for (index, unit) in units {
        put_unit(&mut names, index, unit);
    }
    names
}

// Replaces what one name resolves to.
fn put_unit(names: &mut Vec<(UnitName, NameLoad)>, index: usize, unit: NameLoad)
    requires within { index < length names.old.items }
    ensures put { names.new.items ≡ put_load names.old.items index unit }
{
    names[index].1 = unit;
}
