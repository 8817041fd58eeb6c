//! The effective settings of a unit's files and links.
ghost use Rattle.std.specs.Prelude.{◌≡◌, ◌++◌, IfOk, OnOk, map};
ghost use Rattle.setting_rules.specs.{Rows.{escape_notes, rows_of}, Settings.{settings_of}, Switches.{refuses}};
ghost use Rattle.manager_additions.specs.Additions.{has_defaults_by, mounts_by, with_implied};
ghost use Rattle.unit_loads.specs.Units.{dependency_notes, lists_with, setting_notes};

use crate::dependencies::named_units;
use crate::files::UnitText;
use crate::links::LinkNames;
use crate::units::UnitNote;
use manager_additions::Additions;
use plain_values::Items;
use profiles::Profile;
use section_reader::Assignment;
use setting_rules::{
    DependencyList, Row, SettingNote, Settings, apply, refuses_manual_start, values,
};
use std::alloc::{AllocError, Global};
use std::mem;
use unit_name::UnitName;

/// The effective settings of a unit's files and links, with what a manager adds.
#[derive(Drop)]
pub(crate) struct EffectiveSettings {
    /// The values of keys that set no dependencies.
    pub values: Items<Row>,
    /// The names that words and links give, and those that a manager adds, for each kind by which a unit may name another.
    pub deps: Items<DependencyList>,
    /// What is wrong in files, with settings, and with links.
    pub notes: Items<UnitNote>,
    /// Whether the unit refuses to be started by hand.
    pub manual: bool,
    /// Whether it has default dependencies; by files none has.
    pub has_defaults: bool,
    /// The mounts of its paths; by files none.
    pub mounts: Items<UnitName>,
}

impl EffectiveSettings {
    /// Evaluates by a profile the text and the link names of the unit with a name. Fails only if memory runs out.
    pub fn of(
        alloc: Global,
        profile: Profile,
        unit: &UnitName,
        text: UnitText,
        links: LinkNames,
    ) -> Result<EffectiveSettings, AllocError>
        ensures values { IfOk result
            (λ it. it.values ≡ rows_of profile (settings_of profile text.items) unit.now) }
        ensures deps { IfOk result
            (λ it. it.deps ≡ with_implied profile unit.now it.values
            (lists_with profile (settings_of profile text.items) unit.now links)) }
        ensures notes { IfOk result
            (λ it. it.notes ≡ text.notes ++ map UnitNote.Setting
            (setting_notes profile text.items unit.now links)) }
        ensures manual { IfOk result (λ it. it.manual ≡ refuses (settings_of profile text.items)) }
        ensures defaults { IfOk result
            (λ it. it.has_defaults ≡ has_defaults_by profile unit.now it.values) }
        ensures mounts { IfOk result (λ it. it.mounts ≡ mounts_by profile unit.now it.values) }
    {
        let UnitText { items, mut notes } = text;
        let mut outcome = Outcome::of(alloc, profile, items.as_slice(), unit, links)?;
        add_setting_notes(
            &mut notes,
            mem::replace(&mut outcome.notes, Items::new(alloc)),
        )?;
        let rows = outcome.values.as_slice();
        let additions = Additions::make(alloc, profile, unit, rows, &mut outcome.deps)?;
        Ok(EffectiveSettings {
            values: outcome.values,
            deps: outcome.deps,
            notes,
            manual: outcome.manual,
            has_defaults: additions.has_defaults,
            mounts: additions.mounts,
        })
    }
}

// The effective settings of the assignments and the links of a unit, with the notes on settings alone.
#[derive(Drop)]
struct Outcome {
    values: Items<Row>,
    deps: Items<DependencyList>,
    notes: Items<SettingNote>,
    manual: bool,
}

impl Outcome {
    // Evaluates assignments and links for a unit by a profile.
    fn of(
        alloc: Global,
        profile: Profile,
        items: &[Assignment],
        unit: &UnitName,
        links: LinkNames,
    ) -> Result<Outcome, AllocError>
        ensures values { IfOk result
            (λ it. it.values ≡ rows_of profile (settings_of profile items.now) unit.now) }
        ensures deps { IfOk result
            (λ it. it.deps ≡ lists_with profile (settings_of profile items.now) unit.now links) }
        ensures notes { IfOk result
            (λ it. it.notes ≡ setting_notes profile items.now unit.now links) }
        ensures manual { IfOk result (λ it. it.manual ≡ refuses (settings_of profile items.now)) }
    {
        let mut settings = apply(alloc, profile, items)?;
        let notes = mem::replace(&mut settings.notes, Items::new(alloc));
        Outcome::of_settings(alloc, &settings, notes, unit, links)
    }

    // Evaluates settings and links for a unit; its notes follow those on the settings.
    fn of_settings(
        alloc: Global,
        settings: &Settings,
        noted: Items<SettingNote>,
        unit: &UnitName,
        links: LinkNames,
    ) -> Result<Outcome, AllocError>
        ensures values { IfOk result
            (λ it. it.values ≡ rows_of settings.now.profile settings.now.map unit.now) }
        ensures deps { IfOk result
            (λ it. it.deps ≡ lists_with settings.now.profile settings.now.map unit.now links) }
        ensures notes { IfOk result (λ it. it.notes
            ≡ noted ++ escape_notes settings.now.profile settings.now.map unit.now
            ++ dependency_notes settings.now.profile settings.now.map unit.now links) }
        ensures manual { IfOk result (λ it. it.manual ≡ refuses settings.now.map) }
    {
        let mut notes = noted;
        let values = values(alloc, settings, unit)?;
        notes.append(values.notes)?;
        let named = named_units(alloc, settings, unit, links)?;
        notes.append(named.notes)?;
        Ok(Outcome {
            values: values.rows,
            deps: named.lists,
            notes,
            manual: refuses_manual_start(settings),
        })
    }
}

// Adds notes on settings.
fn add_setting_notes(
    notes: &mut Items<UnitNote>,
    more: Items<SettingNote>,
) -> Result<(), AllocError>
    ensures added { OnOk result (notes.new ≡ notes.old ++ map UnitNote.Setting more) }
{
    for note in more.into_vec() {
        notes.push(UnitNote::Setting(note))?;
    }
    Ok(())
}
