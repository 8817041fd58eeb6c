//! The choice of a unit's main file.
ghost use Rattle.std.specs.{Prelude.{◌≡◌, IfOk}};
ghost use Rattle.path_maps.specs.HostViews.{HostViewMap, viewed_place, host_view_of};
ghost use Rattle.unit_name.specs.Names.{IsName};
ghost use Rattle.fragment_choice.specs.{Choices.{choice, own_choice, says, content_says, link_says}, Indexes.{template_choice}};

use crate::links::{last_component, target_says};
use load_places::LEVELS;
use replica_store::{Content, HostView, HostViewEntry, Place, Store, Viewer};
use std::alloc::{AllocError, Global};
use thiserror::Error;
use unit_name::{NameFault, UnitName};

/// Why a unit is bad. Only `resolve` gives `Loop`; the other causes come from a link.
#[derive(Clone, Copy, Debug, PartialEq, Eq, Error)]
pub enum Cause {
    /// B1: the link's name and its target have different kinds, or a kind without aliases.
    #[error("B1 Kind")]
    Kind,
    /// B2: the shapes of the link's name and of its target (plain, template or instance) don't agree.
    #[error("B2 Shape")]
    Shape,
    /// B3: more than eight aliases follow one another.
    #[error("B3 Loop")]
    Loop,
    /// B4: the target's last component is no unit name, or makes a name that is too long.
    #[error("B4 Target")]
    Target,
}

/// What the load path gives for a unit name.
#[derive(Debug, Drop)]
pub enum Choice {
    /// Nothing.
    NotFound,
    /// An empty file or a link to `/dev/null`.
    Masked,
    /// The file at this place.
    Fragment(Place),
    /// An alias of the unit with this name.
    Alias(UnitName),
    /// A link that no unit may have.
    Bad(Cause),
}

// Makes the choices for names.
pub(crate) trait Chooses {
    // What is seen of a store.
    ghost in_view: { Self → HostViewMap };

    // Returns the choice for a name.
    fn choose(&self, alloc: Global, name: &UnitName) -> Result<Choice, AllocError>
        ensures choice { IfOk result (λ chosen. chosen ≡ choice (in_view self.now) name.now) };
}

impl<'a> Chooses for HostView<'a> {
    ghost in_view = { λ view. view };

    fn choose(&self, alloc: Global, name: &UnitName) -> Result<Choice, AllocError> {
        match own_choice(alloc, self, name, name)? {
            Some(said) => Ok(said),
            None => template_choice(alloc, self, name),
        }
    }
}

/// Returns the choice for a name, as a host sees it or as it is seen without a host: what is visible of the name at the
/// least level that isn't ignored. For an instance that has nothing of its own, what is visible of its template decides
/// (systemd.unit(5), "Unit File Load Path").
///
/// Asks the store at most sixteen times: at eight levels, for the name and for its template. For a host without places
/// of its own it is at most eight times. Each time is a search, and builds no path. Fails only if memory runs out.
pub fn choose(
    alloc: Global,
    store: &Store,
    viewer: &Viewer,
    name: &UnitName,
) -> Result<Choice, AllocError>
    ensures choice { IfOk result
        (λ chosen. chosen ≡ choice (host_view_of store.now viewer.now) name.now) }
{
    store.host_view(viewer).choose(alloc, name)
}

/// Returns what the visible paths of a name's template say of the name: `NotFound` where there is no template.
pub(crate) fn template_choice(
    alloc: Global,
    view: &HostView,
    name: &UnitName,
) -> Result<Choice, AllocError>
    ensures choice { IfOk result (λ chosen. chosen ≡ template_choice view.now name.now) }
{
    let Some(template) = name.template_of()? else {
        return Ok(Choice::NotFound);
    };
    Ok(own_choice(alloc, view, name, &template)?.unwrap_or(Choice::NotFound))
}

/// Returns what the visible paths of an own name, which is the name itself or its template, say of the name: the least
/// level that says anything decides.
pub(crate) fn own_choice(
    alloc: Global,
    view: &HostView,
    name: &UnitName,
    own: &UnitName,
) -> Result<Option<Choice>, AllocError>
    ensures choice { IfOk result (λ said. said ≡ own_choice view.now name.now own.now) }
    ensures well_formed { IsName own.now }
{
    for level in 0..LEVELS {
        if let Some(said) = says(alloc, view, name, own, level)? {
            return Ok(Some(said));
        }
    }
    Ok(None)
}

// Returns what the own name says at one level.
fn says(
    alloc: Global,
    view: &HostView,
    name: &UnitName,
    own: &UnitName,
    level: u8,
) -> Result<Option<Choice>, AllocError>
    ensures said { IfOk result (λ said. said ≡ says view.now name.now own.now level) }
    ensures well_formed { IsName own.now }
{
    match view.entry_at(level, b"", own.bytes()) {
        None => Ok(None),
        Some(placed) => entry_says(alloc, view, name, own, &placed),
    }
}

// Returns what an entry says that is seen at a path of the own name.
fn entry_says(
    alloc: Global,
    view: &HostView,
    name: &UnitName,
    own: &UnitName,
    placed: &HostViewEntry,
) -> Result<Option<Choice>, AllocError>
    ensures said { IfOk result (λ said. said ≡ content_says name.now own.now
        (viewed_place view.now placed.now.0) placed.now.1.content) }
{
    match &placed.entry().content {
        Content::Gone => Ok(None),
        Content::File(file) => {
            if file.bytes().is_empty() {
                return Ok(Some(Choice::Masked));
            }
            Ok(Some(Choice::Fragment(view.place(placed)?)))
        }
        Content::Link(target) => {
            if target.bytes() == b"/dev/null".as_slice() {
                return Ok(Some(Choice::Masked));
            }
            link_says(alloc, name, own, last_component(target.bytes()))
        }
    }
}

/// Returns what a link says whose target ends in this component.
pub(crate) fn link_says(
    alloc: Global,
    name: &UnitName,
    own: &UnitName,
    component: &[u8],
) -> Result<Option<Choice>, AllocError>
    ensures said { IfOk result (λ said. said ≡ link_says name.now own.now component.now) }
{
    match UnitName::parse(alloc, component) {
        Ok(target) => target_says(name, own, target),
        Err(NameFault::Memory) => Err(AllocError),
        Err(_) => Ok(Some(Choice::Bad(Cause::Target))),
    }
}
