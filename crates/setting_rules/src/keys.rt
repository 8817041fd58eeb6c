//! Sections and their keys.
ghost use Rattle.std.specs.Prelude.{◌≡◌, IfOk};

use crate::rules::KeyRule;
use plain_values::Bytes;
use profiles::Profile;
use section_reader::Assignment;
use std::alloc::AllocError;

/// A key in a section. Its values are collected from all assignments to it. Case matters (systemd.syntax(7),
/// "Introduction").
#[derive(Debug, PartialEq, Eq, Hash, Drop)]
pub struct SettingKey {
    /// The name in the section's header.
    pub section: Bytes,
    /// The name of the key in the section.
    pub key: Bytes,
}

impl SettingKey {
    ghost use Rattle.setting_rules.specs.{Settings.{key_of}, Rows.{is_dependency}, Maps.{same_key}};

    /// Returns the key that an assignment sets, with shared bytes. Fails only if memory runs out.
    pub(crate) fn of(assignment: &Assignment) -> Result<SettingKey, AllocError>
        ensures key { IfOk result (λ key. key ≡ key_of assignment.now) }
    {
        Ok(SettingKey {
            section: assignment.section.try_clone()?,
            key: assignment.key.try_clone()?,
        })
    }

    /// Returns whether the key sets dependencies by a profile. Allocates nothing.
    pub(crate) fn sets_dependencies(&self, profile: Profile) -> bool
        ensures test { result ≡ is_dependency profile self.now }
    {
        let rule = KeyRule::of(profile, self.section.as_slice(), self.key.as_slice());
        rule == KeyRule::Dependency
    }

    /// Returns whether this is the key with this name in this section. Allocates nothing.
    pub(crate) fn is(&self, section: &[u8], key: &[u8]) -> bool
        ensures test { result ≡ same_key
            (record { section = section.now; key = key.now }) self.now }
    {
        key == self.key.as_slice() && section == self.section.as_slice()
    }

    /// Returns an equal key that shares the bytes. Fails only if memory runs out.
    pub fn try_clone(&self) -> Result<SettingKey, AllocError>
        ensures copy { IfOk result (λ copy. copy ≡ self.now) }
    {
        Ok(SettingKey {
            section: self.section.try_clone()?,
            key: self.key.try_clone()?,
        })
    }
}
