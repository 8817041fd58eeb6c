//! The units that a unit's settings name.
ghost use Rattle.std.specs.{Prelude.{◌≡◌, IfOk}, List.{flat_map}};
ghost use Rattle.setting_rules.specs.{Dependencies.{lists_of, word_notes, words_for}, Words.{words_of}};

use crate::dependency_lists::{Dependencies, UNIT};
use crate::kinds::DepKind;
use crate::settings::Settings;
use plain_values::Bytes;
use std::alloc::{AllocError, Global};
use unit_name::UnitName;

/// Returns the units that a unit's settings name (systemd.unit(5), "[Unit] Section Options").
///
/// The values of each key that sets dependencies are split at whitespace; each word is expanded and then read as a
/// name, where a template gets the unit's instance, or else its prefix. A word that can't be expanded, or isn't a name
/// then, is noted. Fails only if memory runs out.
///
/// There is a list for each kind of `DepKind::naming`. A kind that no key sets by the settings' profile has no names:
/// `Upholds` for files alone, and `Triggers`, `TriggeredBy` and `InSlice` by either profile.
///
/// Walks over the keys once for each kind; then linear in the bytes of the values and of their expansions, and O(n log
/// n) in the names of a kind.
pub fn dependencies(
    alloc: Global,
    settings: &Settings,
    unit: &UnitName,
) -> Result<Dependencies, AllocError>
    ensures lists { IfOk result
        (λ all. all.lists ≡ lists_of settings.now.profile settings.now.map unit.now) }
    ensures notes { IfOk result
        (λ all. all.notes ≡ word_notes settings.now.profile settings.now.map unit.now) }
{
    let kinds = DepKind::naming();
    let mut all = Dependencies::with_room(alloc, kinds.len())?;
    for kind in kinds {
        all.add_kind(alloc, *kind, values_for(settings, *kind), unit)?;
    }
    Ok(all)
}

// Returns the values of the key that sets a kind; none if no key sets it by the settings' profile.
fn values_for(settings: &Settings, kind: DepKind) -> &[Bytes]
    ensures values { flat_map words_of result.now
        ≡ words_for settings.now.profile settings.now.map kind }
{
    if kind.is_settable(settings.profile) {
        settings.map.values_of(UNIT, kind.word().as_bytes())
    } else {
        &[]
    }
}
