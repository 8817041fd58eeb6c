//! The effective values, with specifiers expanded.
ghost use Rattle.std.specs.Prelude.{◌≡◌, IfOk};
ghost use Rattle.unit_name.specs.Specifiers.{expand};
ghost use Rattle.setting_rules.specs.Rows.{rows_of, escape_notes};

use crate::rows::Values;
use crate::settings::Settings;
use plain_values::Bytes;
use std::alloc::{AllocError, Global};
use unit_name::{ExpandFault, UnitName, expand as expand_bytes};

/// Returns the effective values of the keys that set no dependencies, with the specifiers of the unit's name expanded
/// (systemd.unit(5), "Specifiers"). A value whose specifiers can't be expanded is left out and noted. Fails only if
/// memory runs out.
///
/// Which keys set dependencies depends on the settings' profile: `Upholds` of `[Unit]` does for a manager. For files
/// alone it is a key like any other.
///
/// Linear in the bytes of the values and of their expansions. A value without a percent sign isn't copied.
pub fn values(alloc: Global, settings: &Settings, unit: &UnitName) -> Result<Values, AllocError>
    ensures rows { IfOk result
        (λ values. values.rows ≡ rows_of settings.now.profile settings.now.map unit.now) }
    ensures notes { IfOk result
        (λ values. values.notes ≡ escape_notes settings.now.profile settings.now.map unit.now) }
{
    let mut values = Values::new(alloc);
    for place in 0..settings.map.len() {
        let (key, texts) = settings.map.entry(place);
        values.add_key(alloc, settings.profile, key, texts, unit)?;
    }
    Ok(values)
}

/// Expands the specifiers of a unit's name in a text; `None` if they can't be. A text without a percent sign isn't
/// copied.
pub(crate) fn expanded(
    alloc: Global,
    text: &Bytes,
    unit: &UnitName,
) -> Result<Option<Bytes>, AllocError>
    ensures expanded { IfOk result (λ value. value ≡ expand text.now unit.now) }
{
    if !text.as_slice().contains(&b'%') {
        return Ok(Some(text.try_clone()?));
    }
    match expand_bytes(alloc, text.as_slice(), unit) {
        Ok(bytes) => Ok(Some(Bytes::from_vec(bytes)?)),
        Err(ExpandFault::BadEscape) => Ok(None),
        Err(ExpandFault::Memory) => Err(AllocError),
    }
}
