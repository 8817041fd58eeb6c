//! The units that a unit depends on, by the words of its settings and by its links.
ghost use Rattle.std.specs.Prelude.{◌≡◌, ◌++◌, ◌∷◌, [], IfOk, OnOk};
ghost use Rattle.setting_rules.specs.{Dependencies.{key_for}, Settings.{note_on}, declared.notes.SettingNoteKind.TheVariants.{BadName}};
ghost use Rattle.unit_loads.specs.{Steps.{with_linked}, Units.{dependency_notes, linked_by, link_notes, lists_with}};

use crate::links::LinkNames;
use plain_values::{Bytes, Items};
use setting_rules::{
    DepKind, Dependencies, SettingNote, SettingNoteKind, Settings, dependencies, for_unit,
    in_byte_order,
};
use std::alloc::{AllocError, Global};
use std::mem;
use unit_name::UnitName;

/// Returns the units that a unit names by the words of its settings and by its links, and the notes on words and then
/// on links, those of `.wants` first. Fails only if memory runs out. Copies no link's name.
pub(crate) fn named_units(
    alloc: Global,
    settings: &Settings,
    unit: &UnitName,
    links: LinkNames,
) -> Result<Dependencies, AllocError>
    ensures lists { IfOk result
        (λ all. all.lists ≡ lists_with settings.now.profile settings.now.map unit.now links) }
    ensures notes { IfOk result
        (λ all. all.notes ≡ dependency_notes settings.now.profile settings.now.map unit.now links) }
{
    let Dependencies { lists, mut notes } = dependencies(alloc, settings, unit)?;
    let LinkNames { wanted, required } = links;
    let mut lists = lists.into_vec();
    let wants = &mut lists[DepKind::Wants.place()].names;
    add_links(alloc, unit, DepKind::Wants, wanted, wants, &mut notes)?;
    let needs = &mut lists[DepKind::Requires.place()].names;
    add_links(alloc, unit, DepKind::Requires, required, needs, &mut notes)?;
    Ok(Dependencies {
        lists: Items::from_vec(lists),
        notes,
    })
}

// Resolves the names of links that add to a kind: adds the units to `names`, in byte order, and a note for each link
// that gives none.
fn add_links(
    alloc: Global,
    unit: &UnitName,
    dep: DepKind,
    links: Items<UnitName>,
    names: &mut Items<UnitName>,
    notes: &mut Items<SettingNote>,
) -> Result<(), AllocError>
    ensures names { OnOk result (names.new ≡ with_linked names.old (linked_by unit.now links)) }
    ensures notes { OnOk result (notes.new ≡ notes.old ++ link_notes unit.now dep links) }
{
    let mut linked = Items::new(alloc);
    for link in links.into_vec() {
        add_link(alloc, unit, dep, link, &mut linked, notes)?;
    }
    add_names(alloc, names, linked)
}

// Resolves the name of a link that adds to a kind: appends a unit, or a note if it gives none.
fn add_link(
    alloc: Global,
    unit: &UnitName,
    dep: DepKind,
    link: UnitName,
    names: &mut Items<UnitName>,
    notes: &mut Items<SettingNote>,
) -> Result<(), AllocError>
    ensures names { OnOk result (names.new ≡ names.old ++ linked_by unit.now (link ∷ [])) }
    ensures notes { OnOk result (notes.new ≡ notes.old ++ link_notes unit.now dep (link ∷ [])) }
{
    match for_unit(unit, link)? {
        Some(name) => names.push(name),
        None => notes.push(bad_link(alloc, dep)?),
    }
}

// A note on a link that adds to a kind.
fn bad_link(alloc: Global, dep: DepKind) -> Result<SettingNote, AllocError>
    ensures note { IfOk result (λ note. note ≡ note_on (key_for dep) BadName) }
{
    Ok(SettingNote {
        section: Bytes::from_slice(alloc, b"Unit")?,
        key: Bytes::from_slice(alloc, dep.word().as_bytes())?,
        kind: SettingNoteKind::BadName,
    })
}

// Adds the names that links give to a list, all in byte order. Does nothing if there are none.
fn add_names(
    alloc: Global,
    names: &mut Items<UnitName>,
    linked: Items<UnitName>,
) -> Result<(), AllocError>
    ensures added { OnOk result (names.new ≡ with_linked names.old linked) }
{
    if linked.as_slice().is_empty() {
        return Ok(());
    }
    let mut all = mem::replace(names, Items::new(alloc));
    all.append(linked)?;
    *names = in_byte_order(all.into_vec());
    Ok(())
}
