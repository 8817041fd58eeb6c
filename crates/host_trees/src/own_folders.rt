//! Whether a host has something of its own in the folders of a unit.
ghost use Rattle.std.specs.{Prelude.{◌≡◌, IfOk, IsTrue, List, None, ℕ}};
ghost use Rattle.path_maps.specs.{Folders.{path_at}, HostViews.{viewed_at}};
ghost use Rattle.host_trees.specs.OwnFolders.{OwnsNothing, OwnsNothingAt, OwnsNothingIn};

use dropins::{UnitFolders, name_dirs, type_dirs};
use plain_values::Bytes;
use replica_store::HostView;
use std::alloc::{AllocError, Global};

/// Returns true only if nothing is visible at the host's own places in the folders of a unit. Without a host, or for a host
/// that holds nothing there, removals included, it does return true. Fails only if memory runs out.
pub(crate) fn owns_nothing(
    alloc: Global,
    view: &HostView,
    folders: &UnitFolders,
) -> Result<bool, AllocError>
    ensures nothing { IfOk result (λ it. IsTrue it → OwnsNothing view.now folders.now) }
{
    let names = name_dirs(alloc, folders.names(), b".d")?;
    let types = type_dirs(alloc, folders.names(), b".d")?;
    let wants = name_dirs(alloc, folders.names(), b".wants")?;
    let needs = name_dirs(alloc, folders.names(), b".requires")?;
    if !owns_nothing_in(view, names.as_slice()) {
        return Ok(false);
    }
    if !owns_nothing_in(view, types.as_slice()) {
        return Ok(false);
    }
    if !owns_nothing_in(view, wants.as_slice()) {
        return Ok(false);
    }
    Ok(owns_nothing_in(view, needs.as_slice()))
}

// Returns true only if nothing is visible there in these folders.
fn owns_nothing_in(view: &HostView, dirs: &[Bytes]) -> bool
    ensures nothing { IsTrue result → OwnsNothingIn view.now dirs.now }
{
    for i in 0..dirs.len() {
        if !owns_nothing_at(view, dirs[i].as_slice()) {
            return false;
        }
    }
    true
}

// Returns true only if nothing is visible there in this folder.
fn owns_nothing_at(view: &HostView, dir: &[u8]) -> bool
    ensures nothing { IsTrue result → OwnsNothingAt view.now dir.now }
{
    for rank in 0..4 {
        if !holds_nothing(view, rank + rank, dir) {
            return false;
        }
    }
    true
}

// Returns whether nothing is held in this folder at a level; then nothing is visible there.
fn holds_nothing(view: &HostView, level: u8, dir: &[u8]) -> bool
    ensures nothing { IsTrue result → (file : List ℕ)
        → viewed_at view.now (path_at level dir.now file) ≡ None }
{
    let mut entries = view.entries_in(level, dir);
    match entries.next_entry() {
        None => true,
        Some(_) => false,
    }
}
