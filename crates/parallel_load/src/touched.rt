//! The changed places that a host sees.
ghost use Rattle.std.specs.{Prelude.{◌≡◌, true, is_some, IfOk, OnOk}, List.{All}};
ghost use Rattle.load_places.specs.Levels.{level_for};
ghost use Rattle.path_maps.specs.HostViews.{host_view_of};
ghost use Rattle.parallel_load.specs.Touched.{AddsParts, HasParts, KeepsLinkTargets};

use crate::loaded::Loaded;
use crate::words::CachedLinkTargets;
use fragment_choice::LinkTargets;
use plain_values::Bytes;
use replica_store::{HostView, Path, Place, Scope, Store, Viewer};
use std::alloc::{AllocError, Global};

/// Whether the changed places leave all link targets, and which names are visible, as the load has cached them. Looks
/// at those places of one component that the load's host, or a manager without one, sees. Fails only if memory runs
/// out.
pub(crate) fn keeps_link_targets(
    alloc: Global,
    loaded: &Loaded,
    store: &Store,
    touched: &[Place],
) -> Result<bool, AllocError>
    ensures kept { IfOk result
        (λ kept. kept ≡ true
        → All (KeepsLinkTargets loaded.now.viewer loaded.now.words
        (host_view_of store.now loaded.now.viewer)) touched.now) }
{
    let viewer = loaded.viewer();
    let words = loaded.words();
    let view = store.host_view(viewer);
    for place in touched {
        if !keeps_link_targets_at(alloc, words.get(), &view, viewer, place)? {
            return Ok(false);
        }
    }
    Ok(true)
}

// The same for one place.
fn keeps_link_targets_at(
    alloc: Global,
    words: &CachedLinkTargets,
    view: &HostView,
    viewer: &Viewer,
    place: &Place,
) -> Result<bool, AllocError>
    ensures kept { IfOk result
        (λ kept. kept ≡ true → KeepsLinkTargets viewer.now words.now view.now place.now) }
{
    if !is_viewed(viewer, place) || !place.path.folder().is_empty() {
        return Ok(true);
    }
    let name = Bytes::from_slice(alloc, place.path.name())?;
    let now = LinkTargets::of(alloc, view, name.as_slice())?;
    Ok(words.have(&name, &now))
}

/// The first components of the places that the host sees, and the empty component for a path without a folder. Fails
/// only if memory runs out.
pub(crate) fn parts_touched(
    alloc: Global,
    viewer: &Viewer,
    touched: &[Place],
) -> Result<Vec<Bytes>, AllocError>
    ensures parts { IfOk result (λ parts. All (HasParts viewer.now parts.items) touched.now) }
{
    let mut parts = Vec::new(alloc);
    for place in touched {
        if is_viewed(viewer, place) {
            add_parts(alloc, &mut parts, &place.path)?;
        }
    }
    Ok(parts)
}

// Adds the first component of a path, and the empty one if that component is the path's name.
fn add_parts(alloc: Global, parts: &mut Vec<Bytes>, path: &Path) -> Result<(), AllocError>
    ensures added { OnOk result (AddsParts path.now parts.old.items parts.new.items) }
{
    parts.push(Bytes::from_slice(alloc, path.folder())?)?;
    if path.folder().is_empty() {
        parts.push(Bytes::from_slice(alloc, path.name())?)?;
    }
    Ok(())
}

// Whether the host, or a manager without one, sees a place.
fn is_viewed(viewer: &Viewer, place: &Place) -> bool
    ensures view { result ≡ is_some (level_for viewer.now place.now) }
{
    match (&place.scope, &viewer.host) {
        (Scope::Fleet, _) => true,
        (Scope::Host(_), None) => false,
        (Scope::Host(owner), Some(host)) => owner.bytes() == host.bytes(),
    }
}
