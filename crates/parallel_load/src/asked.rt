//! The names that are loaded whether or not a request asks for them.
ghost use Rattle.std.specs.Prelude.{◌≡◌, IsTrue, is_some};
ghost use Rattle.path_maps.specs.HostViews.{viewed_at};
ghost use Rattle.unit_name.specs.Names.{IsName};
ghost use Rattle.fragment_choice.specs.Choices.{own_path};
ghost use Rattle.parallel_load.specs.{AskedLaws.{AreSources}, Universe.{IsSource, IsVisibleName}};

use load_places::LEVELS;
use replica_store::HostView;
use unit_name::UnitName;

/// Whether a load that asks for the others has each of these names among its sources: the name is one of the others, or
/// it is no template and is visible. Allocates nothing. For each name it walks the others and looks up one path at each
/// level.
pub fn are_sources(view: &HostView, others: &[UnitName], names: &[UnitName]) -> bool
    ensures sources { IsTrue result → AreSources view.now others.now names.now }
{
    for name in names {
        if !is_source(view, others, name) {
            return false;
        }
    }
    true
}

// Whether a name is one of the others, or is visible and no template.
fn is_source(view: &HostView, others: &[UnitName], name: &UnitName) -> bool
    ensures source { IsTrue result → IsSource view.now others.now name.now }
{
    others.contains(name) || is_visible(view, name)
}

// Whether a name is no template and something is visible at it.
fn is_visible(view: &HostView, name: &UnitName) -> bool
    ensures visible { IsTrue result → IsVisibleName view.now name.now }
{
    if name.is_template() {
        return false;
    }
    for level in 0..LEVELS {
        if is_shown(view, name, level) {
            return true;
        }
    }
    false
}

// Whether something is visible at the name's own path of a level.
fn is_shown(view: &HostView, name: &UnitName, level: u8) -> bool
    ensures shown { result ≡ is_some (viewed_at view.now (own_path name.now level)) }
    ensures well_formed { IsName name.now }
{
    match view.entry_at(level, b"", name.bytes()) {
        Some(placed) => placed.visible().is_some(),
        None => false,
    }
}
