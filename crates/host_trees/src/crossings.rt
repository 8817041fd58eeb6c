//! Whether a unit has in a host's tree, read alone, the drop-ins and links that it has for the host.
ghost use Rattle.std.specs.Prelude.{◌≡◌, ◌↔◌, IfOk, IsTrue, map, MatchBool};
ghost use Rattle.host_trees.specs.{Entries.{said, SameDropIns, SameLinks}, Reads.{IsCrossed, ReadsAlikeOf, ReadsItsTree, ShowsTree}};

use crate::own_folders::owns_nothing;
use dropins::{Folder, UnitFolders};
use replica_store::{HostView, HostViewEntry, Store, Viewer};
use std::alloc::{AllocError, Global};
use unit_name::UnitName;

/// Returns whether a unit with these names is crossed: whether it has other drop-ins or links, by file name and content, in
/// the tree of a host read alone than it has for the host (systemd.unit(5), "Description").
///
/// It can. A directory's rank goes before a folder's place in the list of a unit's folders, and the host's own file goes
/// before the fleet's of the same rank. So in one directory the host's own file in a later folder is taken before the
/// fleet's of the same file name in an earlier one; but of one tree's files the one in the earlier folder is.
///
/// `tree` is a store that shows just that tree at the fleet's places, as `tree_store` makes it. Costs a search for each
/// of the unit's folders at each of the host's own levels; where the host holds something there, one in both stores for each
/// folder at each level. Fails only if memory runs out.
pub fn is_crossed(
    alloc: Global,
    store: &Store,
    viewer: &Viewer,
    tree: &Store,
    names: &[UnitName],
) -> Result<bool, AllocError>
    requires tree { ShowsTree tree.now store.now viewer.now.host }
    ensures crossed { IfOk result (λ it. MatchBool it (IsCrossed store.now viewer.now names.now)
        (ReadsItsTree store.now viewer.now names.now)) }
{
    let folders = UnitFolders::of(alloc, names)?;
    let none = owns_nothing(alloc, &store.host_view(viewer), &folders)?;
    if none {
        return Ok(false);
    }
    let alone = Viewer {
        host: None,
        profile: viewer.profile,
    };
    let alike = reads_alike(
        alloc,
        &store.host_view(viewer),
        &tree.host_view(&alone),
        &folders,
    )?;
    Ok(!alike)
}

// Returns whether a unit with these folders has the same drop-ins and links in two views.
fn reads_alike(
    alloc: Global,
    one: &HostView,
    other: &HostView,
    folders: &UnitFolders,
) -> Result<bool, AllocError>
    ensures alike { IfOk result (λ it. IsTrue it ↔ ReadsAlikeOf one.now other.now folders.now) }
{
    let drop_ins = has_same_drop_ins(alloc, one, other, folders)?;
    if !drop_ins {
        return Ok(false);
    }
    let wants = has_same_links(alloc, one, other, folders, Folder::Wants)?;
    if !wants {
        return Ok(false);
    }
    has_same_links(alloc, one, other, folders, Folder::Requires)
}

// Returns whether it has the same drop-ins.
fn has_same_drop_ins(
    alloc: Global,
    one: &HostView,
    other: &HostView,
    folders: &UnitFolders,
) -> Result<bool, AllocError>
    ensures same { IfOk result (λ it. IsTrue it ↔ SameDropIns one.now other.now folders.now) }
{
    let left = folders.drop_ins(alloc, one)?;
    let right = folders.drop_ins(alloc, other)?;
    Ok(are_same(left.as_slice(), right.as_slice()))
}

// Returns whether it has the same links of one sort.
fn has_same_links(
    alloc: Global,
    one: &HostView,
    other: &HostView,
    folders: &UnitFolders,
    folder: Folder,
) -> Result<bool, AllocError>
    ensures same { IfOk result (λ it. IsTrue it ↔ SameLinks one.now other.now folders.now folder) }
{
    let left = folders.link_entries(alloc, one, folder)?;
    let right = folders.link_entries(alloc, other, folder)?;
    Ok(are_same(left.as_slice(), right.as_slice()))
}

// Returns whether entries have the same file names and contents, in the same order.
fn are_same(left: &[HostViewEntry], right: &[HostViewEntry]) -> bool
    ensures same { IsTrue result ↔ (map said left.now ≡ map said right.now) }
{
    if left.len() != right.len() {
        return false;
    }
    for i in 0..left.len() {
        if !is_same(&left[i], &right[i]) {
            return false;
        }
    }
    true
}

// Returns whether two entries have the same file name and content.
fn is_same(left: &HostViewEntry, right: &HostViewEntry) -> bool
    ensures same { IsTrue result ↔ (said left.now ≡ said right.now) }
{
    left.name() == right.name() && left.entry().content == right.entry().content
}
