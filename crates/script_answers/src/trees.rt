//! The answer to `tree`: the files and links that a unit manager finds, and the units that it reads otherwise from them.
ghost use Rattle.std.specs.{Prelude.{◌≡◌, ◌++◌, IfOk, OnOk}};
ghost use Rattle.host_trees.specs.Reads.{ShowsTree};
ghost use Rattle.script_answers.specs.TreeTexts.{AppendsCrossed, crossed_line, IsTreeText, standing_lines, tree_lines};

use fleet_answers::LinkedUnit;
use host_trees::{is_crossed, tree, tree_store};
use place_texts::append_shown;
use replica_store::{Content, Path, Place, Scope, Store, Viewer};
use std::alloc::{AllocError, Global};
use unit_name::UnitName;

/// Returns the tree of a host as text, and a line for each of these units that is crossed. `all` are the units that are
/// loaded for the host.
///
/// Makes a store of the tree; each unit's drop-ins and links are searched for in both. Fails only if memory runs out.
pub(crate) fn tree_text(
    alloc: Global,
    store: &Store,
    viewer: &Viewer,
    all: &[LinkedUnit],
) -> Result<Vec<u8>, AllocError>
    ensures text { IfOk result (λ text. IsTreeText store.now viewer.now all.now text.items) }
{
    let pairs = tree(alloc, store, viewer.host.as_ref())?;
    let shown = tree_store(alloc, pairs.as_slice())?;
    let mut out = Vec::new(alloc);
    append_tree(&mut out, pairs.as_slice())?;
    append_crossed(alloc, &mut out, store, viewer, &shown, all)?;
    out.extend_from_slice(b"end\n")?;
    Ok(out)
}

// Appends what stands at the paths of a tree.
fn append_tree(out: &mut Vec<u8>, tree: &[(Path, Content)]) -> Result<(), AllocError>
    ensures appended { OnOk result (out.new.items ≡ out.old.items ++ tree_lines tree.now) }
{
    for pair in tree {
        append_standing(out, pair)?;
    }
    Ok(())
}

// Appends what stands at a path.
fn append_standing(out: &mut Vec<u8>, pair: &(Path, Content)) -> Result<(), AllocError>
    ensures appended { OnOk result (out.new.items ≡ out.old.items ++ standing_lines pair.now) }
{
    let place = Place {
        scope: Scope::Fleet,
        path: pair.0.try_clone()?,
    };
    append_shown(out, &place, &pair.1)
}

// Appends a line for each unit that is crossed.
fn append_crossed(
    alloc: Global,
    out: &mut Vec<u8>,
    store: &Store,
    viewer: &Viewer,
    tree: &Store,
    all: &[LinkedUnit],
) -> Result<(), AllocError>
    requires tree { ShowsTree tree.now store.now viewer.now.host }
    ensures appended { OnOk result
        (AppendsCrossed store.now viewer.now all.now out.old.items out.new.items) }
{
    for linked in all {
        let unit = linked.unit.get();
        if is_crossed(alloc, store, viewer, tree, unit.names.as_slice())? {
            append_name(out, &unit.name)?;
        }
    }
    Ok(())
}

// Appends the line of a unit that is crossed.
fn append_name(out: &mut Vec<u8>, name: &UnitName) -> Result<(), AllocError>
    ensures appended { OnOk result (out.new.items ≡ out.old.items ++ crossed_line name.now) }
{
    out.extend_from_slice(b"crossed ")?;
    out.extend_from_slice(name.bytes())?;
    out.push(b'\n')?;
    Ok(())
}
