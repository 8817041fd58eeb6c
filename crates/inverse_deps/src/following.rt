//! Targets after what they pull, for a manager: a target comes after each unit that it pulls where both have default
//! dependencies and no given order says that it comes before it (systemd.target(5), "Default Dependencies"). Of two
//! that would each come after the other neither does.
ghost use Rattle.std.specs.{List.{All}, Ordering.{nat_cmp}, Prelude.{[], ◌<◌, ◌↔◌, ◌≡◌, ◌⊎◌, IfOk, IsTrue, length, OnOk, slice_index_or, ℕ}};
ghost use Rattle.index_rows.specs.{Adjacency.{AreAdjacencyOf, neighbors}, Words.{IsAmong, IsStrictlySortedBy}};
ghost use Rattle.profiles.specs.declared.profiles.Profile.TheVariants.{Manager};
ghost use Rattle.inverse_deps.specs.{Dependencies.{IsDependent, IsGiven, orders_targets}, MakingLaws.{AreMade}, Rows.{AreRowsBy, AreWithin, HasAdded}};
ghost use Rattle.inverse_deps.specs.Following.{defaults_in, entry_at, HasPulled, IsAfterOne, IsBeforeList, IsFollowing, IsLeading, IsMayList, IsPulled, MayBeAfter};

use crate::edge_table::adjacency_by;
use crate::links::links_of;
use index_rows::{AdjacencyLists, put_in_order};
use parallel_load::{Dependency, Loaded, NameLoad};
use plain_values::{Items, Shared, TryClone};
use setting_rules::DepKind;
use std::alloc::{AllocError, Global};
use unit_name::{Kind, UnitName};

// The given rows, with what each target comes after. O(n + m log n), for n names with m dependencies.
pub(crate) fn with_following(
    alloc: Global,
    loaded: &Loaded,
    given: &[Shared<Items<Dependency>>],
) -> Result<Vec<Shared<Items<Dependency>>>, AllocError>
    requires given { AreRowsBy loaded.now (IsGiven Manager loaded.now.names) given.now }
    ensures rows { IfOk result
        (λ rows. AreRowsBy loaded.now (IsDependent Manager loaded.now.names) rows.items) }
{
    let before = before_of(alloc, given)?;
    let may = may_follow(alloc, loaded.names(), given, &before)?;
    followed_rows(alloc, given, &may)
}

// ---- what may follow

// For each unit those before which it comes.
fn before_of(
    alloc: Global,
    given: &[Shared<Items<Dependency>>],
) -> Result<AdjacencyLists, AllocError>
    requires within { AreWithin (length given.now) given.now }
    ensures before { IfOk result (AreMade (IsBeforeList given.now) (length given.now)) }
{
    let links = links_of(alloc, given)?;
    adjacency_by(alloc, &links, DepKind::Before)
}

// For each unit those that it may come after.
fn may_follow(
    alloc: Global,
    names: &[(UnitName, NameLoad)],
    given: &[Shared<Items<Dependency>>],
    before: &AdjacencyLists,
) -> Result<AdjacencyLists, AllocError>
    requires one_each { length given.now ≡ length names.now }
    requires within { AreWithin (length names.now) given.now }
    requires before { AreMade (IsBeforeList given.now) (length given.now) before.now }
    ensures may { IfOk result
        (AreMade (IsMayList names.now before.now given.now) (length given.now)) }
{
    let mut may = AdjacencyLists::with_capacity(alloc, given.len())?;
    let mut indices = Vec::new(alloc);
    for (index, deps) in given.iter().enumerate() {
        let deps = deps.get().as_slice();
        may_follow_of(&mut indices, names, index, deps, before.neighbors(index))?;
        put_in_order(&mut indices);
        may.push(&indices)?;
    }
    Ok(may)
}

// Puts the units that the unit with an index may come after in place of these.
fn may_follow_of(
    indices: &mut Vec<usize>,
    names: &[(UnitName, NameLoad)],
    index: usize,
    deps: &[Dependency],
    before: &[usize],
) -> Result<(), AllocError>
    requires index { index < length names.now }
    requires within { All (λ one. one.index < length names.now) deps.now }
    requires ascending { IsStrictlySortedBy nat_cmp before.now }
    ensures may { OnOk result ((j : ℕ) → IsAmong j indices.new.items
        ↔ MayBeAfter names.now (entry_at names.now index) before.now deps.now j) }
{
    indices.clear();
    if !is_leading(&names[index]) {
        return Ok(());
    }
    add_pulled(indices, names, deps, before)
}

// Adds those on which one of the dependencies lets a target follow.
fn add_pulled(
    indices: &mut Vec<usize>,
    names: &[(UnitName, NameLoad)],
    deps: &[Dependency],
    before: &[usize],
) -> Result<(), AllocError>
    requires within { All (λ one. one.index < length names.now) deps.now }
    requires ascending { IsStrictlySortedBy nat_cmp before.now }
    ensures added { OnOk result ((j : ℕ) → IsAmong j indices.new.items
        ↔ (IsAmong j indices.old.items ⊎ HasPulled names.now before.now deps.now j)) }
{
    for dep in deps {
        if is_pulled(names, *dep, before) {
            indices.push(dep.index)?;
        }
    }
    Ok(())
}

// Whether a dependency lets a target follow.
fn is_pulled(names: &[(UnitName, NameLoad)], dep: Dependency, before: &[usize]) -> bool
    requires within { dep.index < length names.now }
    requires ascending { IsStrictlySortedBy nat_cmp before.now }
    ensures pulled { IsTrue result ↔ IsPulled names.now before.now dep }
{
    orders_targets(dep.kind) && has_defaults(&names[dep.index].1) && !has(before, dep.index)
}

// Whether a name is a target with default dependencies.
fn is_leading(entry: &(UnitName, NameLoad)) -> bool
    ensures leading { IsTrue result ↔ IsLeading entry.now }
{
    entry.0.kind() == Kind::Target && has_defaults(&entry.1)
}

// Whether what a name resolves to has default dependencies.
fn has_defaults(load: &NameLoad) -> bool
    ensures defaults { result ≡ defaults_in load.now }
{
    match load {
        NameLoad::Unit(unit) => unit.get().has_defaults,
        NameLoad::Alias(_) => false,
    }
}

// Whether a target comes after what it pulls by this kind.
fn orders_targets(kind: DepKind) -> bool
    ensures orders { result ≡ orders_targets kind }
{
    match kind {
        DepKind::Requires => true,
        DepKind::Requisite => true,
        DepKind::Wants => true,
        DepKind::BindsTo => true,
        DepKind::Upholds => true,
        _ => false,
    }
}

// Whether an index is among these, which are in ascending order. O(log k) for k indices.
fn has(indices: &[usize], index: usize) -> bool
    requires ascending { IsStrictlySortedBy nat_cmp indices.now }
    ensures among { IsTrue result ↔ IsAmong index indices.now }
{
    indices.binary_search(&index).is_ok()
}

// ---- what follows

// Adds to each row what its unit comes after.
fn followed_rows(
    alloc: Global,
    given: &[Shared<Items<Dependency>>],
    may: &AdjacencyLists,
) -> Result<Vec<Shared<Items<Dependency>>>, AllocError>
    requires may { AreAdjacencyOf (length given.now) may.now }
    requires ascending { (u : ℕ) → IsStrictlySortedBy nat_cmp (neighbors may.now u) }
    ensures rows { IfOk result
        (λ rows. AreMade
        (λ index row. HasAdded (slice_index_or given.now index []) (IsFollowing may.now index) row)
        (length given.now) rows.items) }
{
    let mut rows = Vec::with_capacity(alloc, given.len())?;
    for (index, deps) in given.iter().enumerate() {
        rows.push(followed_row(alloc, deps, index, may)?)?;
    }
    Ok(rows)
}

// The same for one row, which is shared where its unit may follow none.
fn followed_row(
    alloc: Global,
    deps: &Shared<Items<Dependency>>,
    index: usize,
    may: &AdjacencyLists,
) -> Result<Shared<Items<Dependency>>, AllocError>
    requires index { index < length may.now }
    requires may { AreAdjacencyOf (length may.now) may.now }
    requires ascending { (u : ℕ) → IsStrictlySortedBy nat_cmp (neighbors may.now u) }
    ensures row { IfOk result (HasAdded deps.now (IsFollowing may.now index)) }
{
    let others = may.neighbors(index);
    if others.is_empty() {
        return deps.try_clone();
    }
    let mut row = Vec::from_slice(alloc, deps.get().as_slice())?;
    add_following(&mut row, index, others, may)?;
    Shared::new(alloc, Items::from_vec(row))
}

// Adds that the unit with an index comes after each of the others that may not come after it.
fn add_following(
    row: &mut Vec<Dependency>,
    index: usize,
    others: &[usize],
    may: &AdjacencyLists,
) -> Result<(), AllocError>
    requires others { All (λ other. other < length may.now) others.now }
    requires ascending { (u : ℕ) → IsStrictlySortedBy nat_cmp (neighbors may.now u) }
    ensures row { OnOk result
        (HasAdded row.old.items (IsAfterOne may.now index others.now) row.new.items) }
{
    for other in others {
        if !has(may.neighbors(*other), index) {
            row.push(Dependency {
                kind: DepKind::After,
                index: *other,
            })?;
        }
    }
    Ok(())
}
