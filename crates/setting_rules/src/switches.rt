//! Whether a unit refuses a manual start.
ghost use Rattle.std.specs.Prelude.{◌≡◌};
ghost use Rattle.setting_rules.specs.Switches.{refuses};

use crate::booleans::boolean;
use crate::dependency_lists::UNIT;
use crate::settings::Settings;

/// Returns whether the unit refuses a manual start: the last valid boolean of `RefuseManualStart` (systemd.unit(5),
/// "[Unit] Section Options"). The rule is the same by each profile. Linear in the keys. Allocates nothing.
pub fn refuses_manual_start(settings: &Settings) -> bool
    ensures test { result ≡ refuses settings.now.map }
{
    match settings.map.values_of(UNIT, b"RefuseManualStart").last() {
        Some(value) => boolean(value.as_slice()).unwrap_or(false),
        None => false,
    }
}
