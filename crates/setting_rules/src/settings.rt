//! Evaluating the assignments of a unit.
ghost use Rattle.std.specs.Prelude.{◌≡◌, ◌∷◌, [], ◌++◌, IfOk, OnOk, drop, false, if◌then◌else◌};
ghost use Rattle.setting_rules.specs.{Effects.{effect, changed_by, resets_family, start_of}, Maps.{changed}, Rules.{rule_of}};
ghost use Rattle.setting_rules.specs.Settings.{key_of, is_bad_by, note_on, following_last, settings_of, boolean_notes};
ghost use Rattle.setting_rules.specs.declared.notes.SettingNoteKind.TheVariants.{BadBoolean};

use crate::booleans::boolean;
use crate::keys::SettingKey;
use crate::maps::SettingMap;
use crate::notes::{SettingNote, SettingNoteKind};
use crate::rules::KeyRule;
use plain_values::Items;
use profiles::Profile;
use section_reader::Assignment;
use std::alloc::{AllocError, Global};

/// The effective settings of a unit.
pub struct Settings {
    /// The profile by which they were evaluated.
    pub profile: Profile,
    /// The effective values of each key, in the order of the keys' first assignments that count.
    pub map: SettingMap,
    /// What is wrong with values, in the order of the assignments.
    pub notes: Items<SettingNote>,
}

impl Drop for Settings {
    fn drop(self) {
        let Settings {
            profile: _,
            map: _,
            notes: _,
        } = self;
    }
}

/// Evaluates the assignments of a unit by a profile, given in one list: those of its fragment, then those of its
/// drop-ins. Fails only if memory runs out.
///
/// An empty value empties its key (systemd.syntax(7), "Introduction"). An empty value of a key of `[Unit]` that begins
/// with `Condition` or `Assert` empties all keys with the same beginning (systemd.unit(5), "Conditions and Asserts").
/// Keys of `[Unit]` that set dependencies are never emptied. For `RefuseManualStart` the last valid boolean counts; an
/// invalid one is noted and otherwise ignored. Sections and keys that begin with `X-` are ignored (systemd.unit(5),
/// "Unit File Format").
///
/// A manager reads four keys otherwise than files alone. In `[Unit]`, `Upholds` sets dependencies, and
/// `DefaultDependencies` is a boolean like `RefuseManualStart`. All values that aren't empty count for
/// `RequiresMountsFor` of `[Unit]` and `Sockets` of `[Service]`, which are never emptied.
///
/// Three passes over the assignments, and one hash lookup for each in a map that doesn't grow. Keys and values share
/// their bytes with the assignments.
pub fn apply(
    alloc: Global,
    profile: Profile,
    assignments: &[Assignment],
) -> Result<Settings, AllocError>
    ensures profile { IfOk result (λ settings. settings.profile ≡ profile) }
    ensures map { IfOk result (λ settings. settings.map ≡ settings_of profile assignments.now) }
    ensures notes { IfOk result
        (λ settings. settings.notes ≡ boolean_notes profile assignments.now) }
{
    let starts = FamilyStarts::of(profile, assignments);
    let mut settings = Settings::with_room(alloc, profile, assignments.len())?;
    for (index, assignment) in assignments.iter().enumerate() {
        let rule = rule_of(profile, assignment);
        settings.take(alloc, assignment, rule, starts.of_rule(rule) <= index)?;
    }
    Ok(settings)
}

// Returns how the value of an assignment is evaluated.
fn rule_of(profile: Profile, assignment: &Assignment) -> KeyRule
    ensures rule { result ≡ rule_of profile assignment.now.section assignment.now.key }
{
    KeyRule::of(
        profile,
        assignment.section.as_slice(),
        assignment.key.as_slice(),
    )
}

// The index of each family's first assignment that may count: after the last one that empties the family.
struct FamilyStarts {
    conditions: usize,
    assertions: usize,
}

impl Drop for FamilyStarts {
    fn drop(self) {
        let FamilyStarts {
            conditions: _,
            assertions: _,
        } = self;
    }
}

impl FamilyStarts {
    fn of(profile: Profile, assignments: &[Assignment]) -> FamilyStarts
        ensures conditions { drop result.conditions assignments.now
            ≡ following_last (resets_family profile KeyRule.Condition) assignments.now }
        ensures assertions { drop result.assertions assignments.now
            ≡ following_last (resets_family profile KeyRule.Assertion) assignments.now }
    {
        FamilyStarts {
            conditions: family_start(profile, assignments, KeyRule::Condition),
            assertions: family_start(profile, assignments, KeyRule::Assertion),
        }
    }

    // Returns the index from which the values of keys with this rule count.
    fn of_rule(&self, rule: KeyRule) -> usize
        ensures start { result ≡ start_of self.now.conditions self.now.assertions rule }
    {
        match rule {
            KeyRule::Condition => self.conditions,
            KeyRule::Assertion => self.assertions,
            _ => 0,
        }
    }
}

// Returns the index from which the values of a family count.
fn family_start(profile: Profile, assignments: &[Assignment], family: KeyRule) -> usize
    ensures start { drop result assignments.now
        ≡ following_last (resets_family profile family) assignments.now }
{
    let mut start = 0;
    for (index, assignment) in assignments.iter().enumerate() {
        if resets_family(profile, assignment, family) {
            start = index + 1;
        }
    }
    start
}

// Returns whether an assignment empties a family.
fn resets_family(profile: Profile, assignment: &Assignment, family: KeyRule) -> bool
    ensures test { result ≡ resets_family profile family assignment.now }
{
    assignment.value.as_slice().is_empty() && rule_of(profile, assignment) == family
}

impl Settings {
    // Returns no settings, with capacity for `keys` keys.
    fn with_room(alloc: Global, profile: Profile, keys: usize) -> Result<Settings, AllocError>
        ensures profile { IfOk result (λ settings. settings.profile ≡ profile) }
        ensures map { IfOk result (λ settings. settings.map ≡ []) }
        ensures notes { IfOk result (λ settings. settings.notes ≡ []) }
    {
        let map = SettingMap::with_room(alloc, keys)?;
        Ok(Settings {
            profile,
            map,
            notes: Items::new(alloc),
        })
    }

    // Evaluates one more assignment, whose key has this rule. A value of a family counts only if `live`: no later one
    // empties the family.
    fn take(
        &mut self,
        alloc: Global,
        assignment: &Assignment,
        rule: KeyRule,
        live: bool,
    ) -> Result<(), AllocError>
        ensures map { OnOk result
            (self.new.map ≡ changed_by (effect rule live assignment.now.value) self.old.map
            (key_of assignment.now)) }
        ensures notes { OnOk result
            (self.new.notes
            ≡ self.old.notes
            ++ (if is_bad_by rule assignment.now.value then note_on
            (key_of assignment.now) BadBoolean ∷ [] else [])) }
        ensures profile { OnOk result (self.new.profile ≡ self.old.profile) }
    {
        let is_empty = assignment.value.as_slice().is_empty();
        match rule {
            KeyRule::Ignored => {}
            KeyRule::Dependency | KeyRule::Kept => {
                if !is_empty {
                    self.add(alloc, assignment)?;
                }
            }
            KeyRule::Switch => self.switch(alloc, assignment)?,
            KeyRule::Condition | KeyRule::Assertion => self.take_in_family(
                alloc, assignment, live,
            )?,
            KeyRule::Plain => {
                if is_empty {
                    self.map.clear(alloc, SettingKey::of(assignment)?)?;
                } else {
                    self.add(alloc, assignment)?;
                }
            }
        }
        Ok(())
    }

    // Appends the value of an assignment to those of its key.
    fn add(&mut self, alloc: Global, assignment: &Assignment) -> Result<(), AllocError>
        ensures map { OnOk result
            (self.new.map ≡ changed (λ values. values ++ assignment.now.value ∷ []) self.old.map
            (key_of assignment.now)) }
        ensures notes { OnOk result (self.new.notes ≡ self.old.notes) }
        ensures profile { OnOk result (self.new.profile ≡ self.old.profile) }
    {
        let key = SettingKey::of(assignment)?;
        self.map.add(alloc, key, assignment.value.try_clone()?)
    }

    // Evaluates an assignment of a family: its value counts if it is live and not empty.
    fn take_in_family(
        &mut self,
        alloc: Global,
        assignment: &Assignment,
        live: bool,
    ) -> Result<(), AllocError>
        ensures map { OnOk result
            (self.new.map
            ≡ changed_by (effect KeyRule.Condition live assignment.now.value) self.old.map
            (key_of assignment.now)) }
        ensures notes { OnOk result (self.new.notes ≡ self.old.notes) }
        ensures profile { OnOk result (self.new.profile ≡ self.old.profile) }
    {
        if live && !assignment.value.as_slice().is_empty() {
            self.add(alloc, assignment)?;
        } else {
            self.map.enter(alloc, SettingKey::of(assignment)?)?;
        }
        Ok(())
    }

    // Evaluates an assignment of a switch: a valid boolean replaces the one before, an invalid one is noted.
    fn switch(&mut self, alloc: Global, assignment: &Assignment) -> Result<(), AllocError>
        ensures map { OnOk result
            (self.new.map
            ≡ changed_by (effect KeyRule.Switch false assignment.now.value) self.old.map
            (key_of assignment.now)) }
        ensures notes { OnOk result
            (self.new.notes
            ≡ self.old.notes
            ++ (if is_bad_by KeyRule.Switch assignment.now.value then note_on
            (key_of assignment.now) BadBoolean ∷ [] else [])) }
        ensures profile { OnOk result (self.new.profile ≡ self.old.profile) }
    {
        let key = SettingKey::of(assignment)?;
        if boolean(assignment.value.as_slice()).is_some() {
            self.map.replace(alloc, key, assignment.value.try_clone()?)
        } else {
            self.notes
                .push(SettingNote::on(key, SettingNoteKind::BadBoolean))
        }
    }
}
