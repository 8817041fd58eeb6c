//! The units that words of dependencies name.
ghost use Rattle.std.specs.Prelude.{◌≡◌, IfOk, Some};
ghost use Rattle.setting_rules.specs.Dependencies.{named_by, named_by_text};

use crate::names::for_unit;
use crate::notes::SettingNoteKind;
use std::alloc::{AllocError, Global};
use unit_name::{ExpandFault, NameFault, UnitName, expand};

/// Returns the unit that a word of a unit's dependencies names, or what is wrong with the word. A word without a
/// percent sign is read without a copy. Fails only if memory runs out.
pub(crate) fn named_by(
    alloc: Global,
    word: &[u8],
    unit: &UnitName,
) -> Result<Result<UnitName, SettingNoteKind>, AllocError>
    ensures named { IfOk result (λ named. named ≡ named_by unit.now word.now) }
{
    if !word.contains(&b'%') {
        return named_by_text(alloc, word, unit);
    }
    match expand(alloc, word, unit) {
        Ok(text) => named_by_text(alloc, &text, unit),
        Err(ExpandFault::BadEscape) => Ok(Err(SettingNoteKind::BadEscape)),
        Err(ExpandFault::Memory) => Err(AllocError),
    }
}

// Returns the unit that an expanded word names, or what is wrong with it.
fn named_by_text(
    alloc: Global,
    text: &[u8],
    unit: &UnitName,
) -> Result<Result<UnitName, SettingNoteKind>, AllocError>
    ensures named { IfOk result (λ named. named ≡ named_by_text unit.now (Some text.now)) }
{
    match UnitName::parse(alloc, text) {
        Ok(name) => match for_unit(unit, name)? {
            Some(named) => Ok(Ok(named)),
            None => Ok(Err(SettingNoteKind::BadName)),
        },
        Err(NameFault::Memory) => Err(AllocError),
        Err(_) => Ok(Err(SettingNoteKind::BadName)),
    }
}
