//! Dependencies on mounts, for a manager: a unit comes after each mount on the way to its paths that is loaded, and
//! requires each that has a file (systemd.unit(5), "RequiresMountsFor=").
ghost use Rattle.std.specs.Prelude.{◌++◌, ◌<◌, ◌≡◌, IfOk, OnOk};
ghost use Rattle.profiles.specs.declared.profiles.Profile.TheVariants.{Manager};
ghost use Rattle.inverse_deps.specs.{Dependencies.{IsGiven}, Indices.{count_of}, Mounts.{deps_by, deps_on, IsByMount, IsByMounts, mounts_in}, Rows.{AreRowsBy, HasAdded}};

use crate::indices::index_of;
use parallel_load::{Dependency, Loaded, NameLoad, Status};
use plain_values::{Items, Shared, TryClone};
use setting_rules::DepKind;
use std::alloc::{AllocError, Global};
use unit_name::UnitName;

// For each name the dependencies that its unit names, and those on mounts. O(log n) for each mount.
pub(crate) fn given_rows(
    alloc: Global,
    loaded: &Loaded,
) -> Result<Vec<Shared<Items<Dependency>>>, AllocError>
    ensures rows { IfOk result
        (λ rows. AreRowsBy loaded.now (IsGiven Manager loaded.now.names) rows.items) }
{
    let names = loaded.names();
    let own = loaded.dependencies();
    let mut rows = Vec::with_capacity(alloc, names.len())?;
    for (index, (_, load)) in names.iter().enumerate() {
        rows.push(given_row(alloc, loaded, index, load, &own[index])?)?;
    }
    Ok(rows)
}

// The same for the name with an index, which resolves to this. Shared where there are no mounts.
fn given_row(
    alloc: Global,
    loaded: &Loaded,
    index: usize,
    load: &NameLoad,
    own: &Shared<Items<Dependency>>,
) -> Result<Shared<Items<Dependency>>, AllocError>
    requires index { index < count_of loaded.now }
    ensures row { IfOk result
        (HasAdded own.now (IsByMounts loaded.now index (mounts_in load.now))) }
{
    match load {
        NameLoad::Unit(unit) => with_mounts(
            alloc,
            loaded,
            index,
            unit.get().mounts.as_slice(),
            own,
        ),
        NameLoad::Alias(_) => own.try_clone(),
    }
}

// Dependencies, with those on these mounts.
fn with_mounts(
    alloc: Global,
    loaded: &Loaded,
    index: usize,
    mounts: &[UnitName],
    own: &Shared<Items<Dependency>>,
) -> Result<Shared<Items<Dependency>>, AllocError>
    requires index { index < count_of loaded.now }
    ensures row { IfOk result (HasAdded own.now (IsByMounts loaded.now index mounts.now)) }
{
    if mounts.is_empty() {
        return own.try_clone();
    }
    let mut row = Vec::from_slice(alloc, own.get().as_slice())?;
    for mount in mounts {
        add_mount(&mut row, loaded, index, mount)?;
    }
    Shared::new(alloc, Items::from_vec(row))
}

// Adds the dependencies on one mount, if it is another unit of the load.
fn add_mount(
    row: &mut Vec<Dependency>,
    loaded: &Loaded,
    index: usize,
    mount: &UnitName,
) -> Result<(), AllocError>
    requires index { index < count_of loaded.now }
    ensures row { OnOk result
        (HasAdded row.old.items (IsByMount loaded.now index mount.now) row.new.items) }
{
    let names = loaded.names();
    match index_of(loaded, mount) {
        Some(at) => {
            if at == index {
                return Ok(());
            }
            add_loaded(row, &names[at].1, at)
        }
        None => Ok(()),
    }
}

// Adds the dependencies on the mount with an index, whose name resolves to this.
fn add_loaded(row: &mut Vec<Dependency>, load: &NameLoad, at: usize) -> Result<(), AllocError>
    ensures row { OnOk result (row.new.items ≡ row.old.items ++ deps_on load.now at) }
{
    match load {
        NameLoad::Unit(unit) => add_by_status(row, &unit.get().status, at),
        NameLoad::Alias(_) => Ok(()),
    }
}

// The same by the mount's status.
fn add_by_status(row: &mut Vec<Dependency>, status: &Status, at: usize) -> Result<(), AllocError>
    ensures row { OnOk result (row.new.items ≡ row.old.items ++ deps_by status.now at) }
{
    if status.is_loaded() {
        row.push(Dependency {
            kind: DepKind::After,
            index: at,
        })?;
    }
    if status.fragment().is_some() {
        row.push(Dependency {
            kind: DepKind::Requires,
            index: at,
        })?;
    }
    Ok(())
}
