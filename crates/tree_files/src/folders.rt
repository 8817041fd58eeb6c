//! Trees in folders.
use crate::faults::TreeFault;
use crate::files::{make_folder, put, put_bytes, remove};
use crate::manifests::{gone_from, manifest_of, paths_in};
use edit_sums::Content;
use load_path::Path;
use std::alloc::{AllocError, Global};
use std::fs;
use std::io::ErrorKind;
use std::rt::Files;

/// The name of the manifest in a folder.
pub const MANIFEST: &str = ".fleet-tree";

/// The name under which a file is made.
const TEMPORARY: &str = ".fleet-new";

// The name of a path's file in a folder.
fn name_of(alloc: Global, folder: &str, path: &Path) -> Result<String, TreeFault> {
    let mut text = Vec::from_slice(alloc, folder.as_bytes())?;
    path.append_to(&mut text)?;
    match String::from_utf8(text) {
        Ok(name) => Ok(name),
        Err(_) => Err(TreeFault::Disk),
    }
}

// Makes each folder that a name goes through, below the folder of the tree.
fn make_folders(rt: &impl Files, folder: &str, name: &str) -> Result<(), TreeFault> {
    for (at, _) in name.match_indices('/') {
        if at > folder.len() {
            if let Some(above) = name.get(..at) {
                make_folder(rt, above)?;
            }
        }
    }
    Ok(())
}

// Writes a content at its path in a folder.
fn put_path<R: Files + AllocGlobal>(
    rt: &R,
    folder: &str,
    temporary: &str,
    pair: &(Path, Content),
) -> Result<(), TreeFault>
where
    R::File: Drop,
{
    let name = name_of(rt.alloc(), folder, &pair.0)?;
    make_folders(rt, folder, name.as_str())?;
    put(rt, temporary, name.as_str(), &pair.1)?;
    Ok(())
}

// Writes all contents in a folder.
fn put_paths<R: Files + AllocGlobal>(
    rt: &R,
    folder: &str,
    temporary: &str,
    tree: &[(Path, Content)],
) -> Result<(), TreeFault>
where
    R::File: Drop,
{
    for pair in tree {
        put_path(rt, folder, temporary, pair)?;
    }
    Ok(())
}

// Removes what stands at a path in a folder, and the path's own folder if it is empty then.
fn remove_path<R: Files + AllocGlobal>(rt: &R, folder: &str, path: &Path) -> Result<(), TreeFault> {
    let name = name_of(rt.alloc(), folder, path)?;
    remove(rt, name.as_str())?;
    if !path.folder().is_empty() {
        if let Some((above, _)) = name.rsplit_once('/') {
            let _ = fs::remove_dir(rt, above);
        }
    }
    Ok(())
}

// Removes what stands at paths in a folder.
fn remove_paths<R: Files + AllocGlobal>(
    rt: &R,
    folder: &str,
    paths: &[Path],
) -> Result<(), TreeFault> {
    for path in paths {
        remove_path(rt, folder, path)?;
    }
    Ok(())
}

// Copies of the paths of a tree.
fn paths_of(alloc: Global, tree: &[(Path, Content)]) -> Result<Vec<Path>, AllocError> {
    let mut paths = Vec::new(alloc);
    for pair in tree {
        paths.push(pair.0.try_clone()?)?;
    }
    Ok(paths)
}

// Whether a folder holds nothing but what a write that was cut off left under the temporary name.
fn is_empty<R: Files + AllocGlobal + Clone + Drop>(
    rt: &R,
    folder: &str,
) -> Result<bool, TreeFault> {
    let mut entries = fs::read_dir(rt, folder)?;
    for _ in 0..2 {
        let Some(entry) = entries.next() else {
            return Ok(true);
        };
        if entry?.file_name() != TEMPORARY {
            return Ok(false);
        }
    }
    Ok(false)
}

// The paths that an earlier tree wrote in a folder, or may have written.
fn earlier_paths<R: Files + AllocGlobal + Clone + Drop>(
    rt: &R,
    folder: &str,
    manifest: &str,
) -> Result<Vec<Path>, TreeFault> {
    let bytes = match fs::read(rt, manifest) {
        Ok(bytes) => bytes,
        Err(error) if error.kind() == ErrorKind::NotFound => {
            if is_empty(rt, folder)? {
                return Ok(Vec::new(rt.alloc()));
            }
            return Err(TreeFault::NotATree);
        }
        Err(error) => return Err(TreeFault::from(error)),
    };
    match paths_in(rt.alloc(), &bytes)? {
        Some(paths) => Ok(paths),
        None => Err(TreeFault::NotATree),
    }
}

// Makes the folder of a tree, unless it is there.
fn make_top(rt: &impl Files, folder: &str) -> Result<(), TreeFault> {
    match fs::create_dir(rt, folder) {
        Ok(()) => Ok(()),
        Err(error) => match error.kind() {
            ErrorKind::AlreadyExists => Ok(()),
            _ => Err(TreeFault::from(error)),
        },
    }
}

// Writes a manifest.
fn put_manifest<R: Files + AllocGlobal>(
    rt: &R,
    manifest: &str,
    temporary: &str,
    paths: &[Path],
) -> Result<(), TreeFault>
where
    R::File: Drop,
{
    let bytes = manifest_of(rt.alloc(), paths)?;
    put_bytes(rt, temporary, manifest, &bytes)?;
    Ok(())
}

/// Makes a folder hold a tree, and nothing else: each content at its path below the folder, and a manifest of them. It has to
/// be empty or missing, or to have the manifest of an earlier tree, of which the files that the tree no longer has are removed.
///
/// Each file is made under a temporary name and renamed, and the manifest lists at each moment all that may be there. So after
/// a crash, or `Disk`, the next call finishes. Nothing is ever written outside of the folder, whatever links the tree has.
/// Fails with `NotATree` before it writes anything, with `Disk`, and with `Memory`.
pub fn write_tree<R: Files + AllocGlobal + Clone + Drop>(
    rt: &R,
    folder: &str,
    tree: &[(Path, Content)],
) -> Result<(), TreeFault>
where
    R::File: Drop,
{
    let manifest = format!(in rt.alloc(); "{folder}/{MANIFEST}")?;
    let temporary = format!(in rt.alloc(); "{folder}/{TEMPORARY}")?;
    make_top(rt, folder)?;
    let earlier = earlier_paths(rt, folder, manifest.as_str())?;
    let mut gone = gone_from(rt.alloc(), &earlier, tree)?;
    let mut all = paths_of(rt.alloc(), tree)?;
    all.append(&mut gone)?;
    put_manifest(rt, manifest.as_str(), temporary.as_str(), &all)?;
    let gone = gone_from(rt.alloc(), &earlier, tree)?;
    remove_paths(rt, folder, &gone)?;
    put_paths(rt, folder, temporary.as_str(), tree)?;
    all.truncate(tree.len());
    put_manifest(rt, manifest.as_str(), temporary.as_str(), &all)
}
