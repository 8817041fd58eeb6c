//! Resolving the names that a unit gives.
ghost use Rattle.std.specs.Prelude.{◌≡◌, IfOk};
ghost use Rattle.setting_rules.specs.Words.{argument, for_unit};

use std::alloc::AllocError;
use unit_name::{Shape, UnitName};

/// Returns the unit that `unit` means by a name: a template gets the unit's instance, or else its prefix; any other
/// name stays unchanged (systemd.unit(5), "Description"). `None` if the name would have more than 255 bytes. Fails only
/// if memory runs out.
pub fn for_unit(unit: &UnitName, name: UnitName) -> Result<Option<UnitName>, AllocError>
    ensures named { IfOk result (λ named. named ≡ for_unit unit.now name) }
{
    match name.shape() {
        Shape::Template => name.with_instance(argument(unit)),
        Shape::Plain | Shape::Instance => Ok(Some(name)),
    }
}

// Returns the instance that a template gets.
fn argument(unit: &UnitName) -> &[u8]
    ensures argument { result.now ≡ argument unit.now }
{
    let instance = unit.instance();
    if instance.is_empty() {
        unit.prefix()
    } else {
        instance
    }
}
