//! The effective values, as rows.
ghost use Rattle.std.specs.Prelude.{◌≡◌, ◌++◌, ◌∷◌, [], OnOk, if◌then◌else◌};
ghost use Rattle.setting_rules.specs.Rows.{is_dependency, rows_at, escape_notes_at};

use crate::expansions::expanded;
use crate::keys::SettingKey;
use crate::notes::{SettingNote, SettingNoteKind};
use plain_values::{Bytes, Items, TryClone};
use profiles::Profile;
use std::alloc::{AllocError, Global};
use unit_name::UnitName;

/// An effective value of a key, with the specifiers of its unit's name expanded.
#[derive(Debug, PartialEq, Eq)]
pub struct Row {
    /// The section of the key.
    pub section: Bytes,
    /// The key that has the value.
    pub key: Bytes,
    /// The value.
    pub value: Bytes,
}

impl Drop for Row {
    fn drop(self) {
        let Row {
            section: _,
            key: _,
            value: _,
        } = self;
    }
}

/// Copies share the bytes of the texts.
impl TryClone for Row {
    fn try_clone(&self) -> Result<Row, AllocError> {
        Ok(Row {
            section: self.section.try_clone()?,
            key: self.key.try_clone()?,
            value: self.value.try_clone()?,
        })
    }
}

/// The values of a unit's keys.
#[derive(Debug, PartialEq, Eq, Drop)]
pub struct Values {
    /// One row for each value, in the order of the keys and of each key's values.
    pub rows: Items<Row>,
    /// What is wrong with other values, in the same order.
    pub notes: Items<SettingNote>,
}

impl Values {
    /// Returns no rows. Allocates nothing.
    pub(crate) fn new(alloc: Global) -> Values
        ensures rows { result.rows ≡ [] }
        ensures notes { result.notes ≡ [] }
    {
        Values {
            rows: Items::new(alloc),
            notes: Items::new(alloc),
        }
    }

    /// Adds the values of a key, unless it sets dependencies by the profile. Fails only if memory runs out.
    pub(crate) fn add_key(
        &mut self,
        alloc: Global,
        profile: Profile,
        key: &SettingKey,
        texts: &[Bytes],
        unit: &UnitName,
    ) -> Result<(), AllocError>
        ensures rows { OnOk result
            (self.new.rows ≡ self.old.rows
            ++ (if is_dependency profile key.now then [] else rows_at unit.now key.now texts.now)) }
        ensures notes { OnOk result
            (self.new.notes
            ≡ self.old.notes
            ++ (if is_dependency profile key.now then [] else escape_notes_at unit.now key.now
            texts.now)) }
    {
        if key.sets_dependencies(profile) {
            return Ok(());
        }
        for text in texts {
            self.add_value(alloc, key, text, unit)?;
        }
        Ok(())
    }

    // Adds a value of a key, or a note on it.
    fn add_value(
        &mut self,
        alloc: Global,
        key: &SettingKey,
        text: &Bytes,
        unit: &UnitName,
    ) -> Result<(), AllocError>
        ensures rows { OnOk result
            (self.new.rows ≡ self.old.rows ++ rows_at unit.now key.now (text.now ∷ [])) }
        ensures notes { OnOk result
            (self.new.notes ≡ self.old.notes ++ escape_notes_at unit.now key.now (text.now ∷ [])) }
    {
        let SettingKey { section, key } = key.try_clone()?;
        match expanded(alloc, text, unit)? {
            Some(value) => self.rows.push(Row {
                section,
                key,
                value,
            })?,
            None => self.notes.push(SettingNote {
                section,
                key,
                kind: SettingNoteKind::BadEscape,
            })?,
        }
        Ok(())
    }
}
