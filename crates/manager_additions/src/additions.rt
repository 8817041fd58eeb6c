//! What a manager adds of itself to a loaded unit.
ghost use Rattle.std.specs.Prelude.{◌≡◌, ◌++◌, IfOk, OnOk, map};
ghost use Rattle.manager_additions.specs.{Additions.{counted_for, has_defaults_by, mounts_by, name_for, names_for, unless_device, with_implied, with_names}, Prelude.{Before, Manager}};

use implied_names::Implied;
use plain_values::Items;
use profiles::Profile;
use setting_rules::{DepKind, DependencyList, Row, in_byte_order};
use std::alloc::{AllocError, Global};
use std::mem;
use unit_name::{Kind, UnitName};

/// What is added to a unit besides names: whether it has default dependencies, and its mounts.
#[derive(Drop)]
pub struct Additions {
    /// Whether it has default dependencies; by files none has.
    pub has_defaults: bool,
    /// The mounts of its paths, in byte order; by files none.
    pub mounts: Items<UnitName>,
}

impl Additions {
    /// Adds to the lists of a unit, which words and links give, what the unit implies by a profile with these effective
    /// values. By files it adds nothing. Fails only if memory runs out.
    pub fn make(
        alloc: Global,
        profile: Profile,
        unit: &UnitName,
        rows: &[Row],
        lists: &mut Items<DependencyList>,
    ) -> Result<Additions, AllocError>
        ensures lists { IfOk result
            (λ _. lists.new ≡ with_implied profile unit.now rows.now lists.old) }
        ensures defaults { IfOk result
            (λ it. it.has_defaults ≡ has_defaults_by profile unit.now rows.now) }
        ensures mounts { IfOk result (λ it. it.mounts ≡ mounts_by profile unit.now rows.now) }
    {
        match profile {
            Profile::Files => Ok(Additions {
                has_defaults: false,
                mounts: Items::new(alloc),
            }),
            Profile::Manager => Additions::implied(alloc, unit, rows, lists),
        }
    }

    // Adds what the unit implies.
    fn implied(
        alloc: Global,
        unit: &UnitName,
        rows: &[Row],
        lists: &mut Items<DependencyList>,
    ) -> Result<Additions, AllocError>
        ensures lists { IfOk result
            (λ _. lists.new ≡ with_implied Manager unit.now rows.now lists.old) }
        ensures defaults { IfOk result
            (λ it. it.has_defaults ≡ has_defaults_by Manager unit.now rows.now) }
        ensures mounts { IfOk result (λ it. it.mounts ≡ mounts_by Manager unit.now rows.now) }
    {
        let implied = Implied::of(alloc, unit, rows)?;
        let mut all = mem::replace(lists, Items::new(alloc)).into_vec();
        add_to_all(alloc, &mut all, implied.names.as_slice())?;
        *lists = Items::from_vec(all);
        Ok(Additions {
            has_defaults: implied.has_defaults,
            mounts: implied.mounts,
        })
    }
}

// Adds implied names to lists, to each those of its kind.
fn add_to_all(
    alloc: Global,
    lists: &mut [DependencyList],
    implied: &[(DepKind, UnitName)],
) -> Result<(), AllocError>
    ensures lists { OnOk result (lists.new ≡ map (with_names implied.now) lists.old) }
{
    for list in lists.iter_mut() {
        add_implied(alloc, list, implied)?;
    }
    Ok(())
}

// Adds to a list the implied names of its kind.
fn add_implied(
    alloc: Global,
    list: &mut DependencyList,
    implied: &[(DepKind, UnitName)],
) -> Result<(), AllocError>
    ensures list { OnOk result (list.new ≡ with_names implied.now list.old) }
{
    add_of_kind(list.kind, implied, &mut list.names)?;
    if list.names.as_slice().is_empty() {
        return Ok(());
    }
    let names = mem::replace(&mut list.names, Items::new(alloc));
    list.names = counted(alloc, list.kind, in_byte_order(names.into_vec()))?;
    Ok(())
}

// Adds the implied names of a kind.
fn add_of_kind(
    kind: DepKind,
    implied: &[(DepKind, UnitName)],
    names: &mut Items<UnitName>,
) -> Result<(), AllocError>
    ensures added { OnOk result (names.new ≡ names.old ++ names_for implied.now kind) }
{
    for entry in implied {
        add_if_of_kind(kind, entry, names)?;
    }
    Ok(())
}

// Adds an implied name if it is of this kind.
fn add_if_of_kind(
    kind: DepKind,
    entry: &(DepKind, UnitName),
    names: &mut Items<UnitName>,
) -> Result<(), AllocError>
    ensures added { OnOk result (names.new ≡ names.old ++ name_for kind entry.now) }
{
    if entry.0.place() == kind.place() {
        names.push(entry.1.try_clone()?)?;
    }
    Ok(())
}

// What of these names counts for a kind: no device before which a unit is to come.
fn counted(
    alloc: Global,
    kind: DepKind,
    names: Items<UnitName>,
) -> Result<Items<UnitName>, AllocError>
    ensures names { IfOk result (λ counted. counted ≡ counted_for kind names) }
{
    match kind {
        DepKind::Before => without_devices(alloc, names),
        _ => Ok(names),
    }
}

// The names but those of devices.
fn without_devices(alloc: Global, names: Items<UnitName>) -> Result<Items<UnitName>, AllocError>
    ensures names { IfOk result (λ counted. counted ≡ counted_for Before names) }
{
    let mut counted = Items::new(alloc);
    for name in names.into_vec() {
        add_unless_device(name, &mut counted)?;
    }
    Ok(counted)
}

// Adds a name but that of a device.
fn add_unless_device(name: UnitName, names: &mut Items<UnitName>) -> Result<(), AllocError>
    ensures added { OnOk result (names.new ≡ names.old ++ unless_device name) }
{
    match name.kind() {
        Kind::Device => Ok(()),
        _ => names.push(name),
    }
}
