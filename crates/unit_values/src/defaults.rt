//! Whether a unit has default dependencies.
ghost use Rattle.std.specs.Prelude.{IfOk, ◌≡◌};
ghost use Rattle.unit_values.specs.Defaults.{has_defaults};

use crate::built_in::is_perpetual;
use crate::facts::boolean_in;
use setting_rules::Row;
use std::alloc::{AllocError, Global};
use unit_name::UnitName;

/// Returns whether a unit has default dependencies: what it says, and else not if it is perpetual (systemd.unit(5),
/// "DefaultDependencies="). Fails only if memory runs out.
pub fn has_defaults(alloc: Global, unit: &UnitName, rows: &[Row]) -> Result<bool, AllocError>
    ensures test { IfOk result
        (λ test. test ≡ has_defaults (record { unit = unit.now; rows = rows.now })) }
{
    match boolean_in(alloc, rows, b"Unit", b"DefaultDependencies")? {
        Some(said) => Ok(said),
        None => Ok(!is_perpetual(unit)),
    }
}
