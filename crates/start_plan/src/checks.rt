//! The names of a request.
ghost use Rattle.std.specs.Prelude.{◌≡◌, ◌↔◌, IsTrue};
ghost use Rattle.start_plan.specs.Requests.{AsksTemplate, HasTemplate};

use crate::requests::Request;
use unit_name::UnitName;

/// Whether the target or a running name is a template, for which there is no plan.
pub(crate) fn asks_template(request: &Request) -> bool
    ensures template { IsTrue result ↔ AsksTemplate request.now }
{
    request.target.is_template() || has_template(request.running.as_slice())
}

/// Whether one of the names is a template. Linear in the names; allocates nothing.
pub fn has_template(names: &[UnitName]) -> bool
    ensures template { IsTrue result ↔ HasTemplate names.now }
{
    for name in names {
        if name.is_template() {
            return true;
        }
    }
    false
}
