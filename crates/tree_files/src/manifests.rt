//! Manifests: what a folder's tree has.
ghost use Rattle.std.specs.Prelude.{◌≡◌, ◌++◌, ◌<◌, codes, filter, IfOk, IfSome, length, OnOk};
ghost use Rattle.std.specs.List.{list_any};
ghost use Rattle.std.specs.Ordering.{is_eq};
ghost use Rattle.load_path.specs.Paths.{path_cmp, text_of};
ghost use Rattle.tree_files.specs.Manifests.{is_gone, lines_text, manifest_text, path_line};

use edit_sums::Content;
use load_path::{Path, PathFault};
use std::alloc::{AllocError, Global};

/// The first line of a manifest.
const TITLE: &[u8] = b"fleet tree 1\n";

// Appends the line of a path.
fn append_line(out: &mut Vec<u8>, path: &Path) -> Result<(), AllocError>
    ensures appended { OnOk result (out.new.items ≡ out.old.items ++ path_line path.now) }
{
    path.append_to(out)?;
    out.push(b'\n')?;
    Ok(())
}

/// Returns the bytes of a manifest: a title, and a line for each path. Linear. Fails only if memory runs out.
pub fn manifest_of(alloc: Global, paths: &[Path]) -> Result<Vec<u8>, AllocError>
    ensures bytes { IfOk result (λ bytes. bytes.items ≡ manifest_text paths.now) }
{
    let mut out = Vec::from_slice(alloc, TITLE)?;
    for path in paths {
        append_line(&mut out, path)?;
    }
    Ok(out)
}

// A path, or None if the text is none.
fn path_at(alloc: Global, text: &[u8]) -> Result<Option<Path>, AllocError>
    ensures path { IfOk result (λ found. IfSome found (λ path. text_of path ≡ text.now)) }
{
    match Path::parse(alloc, text) {
        Ok(path) => Ok(Some(path)),
        Err(PathFault::Memory) => Err(AllocError),
        Err(_) => Ok(None),
    }
}

// The first line, without its line feed, and what follows it. None if no line feed is there.
fn cut_line(text: &[u8]) -> Option<(&[u8], &[u8])>
    ensures cut { IfSome result (λ parts. text.now ≡ (parts.0.now ++ codes "\n") ++ parts.1.now) }
    ensures shorter { IfSome result (λ parts. length parts.1.now < length text.now) }
{
    for (at, byte) in text.iter().enumerate() {
        if *byte == b'\n' {
            return Some((&text[..at], &text[at + 1..]));
        }
    }
    None
}

// The paths of lines. None if a line is no path, or the last has no line feed.
fn paths_of_lines(alloc: Global, lines: &[u8]) -> Result<Option<Vec<Path>>, AllocError>
    ensures paths { IfOk result
        (λ found. IfSome found (λ paths. lines.now ≡ lines_text paths.items)) }
{
    let mut paths = Vec::new(alloc);
    let mut rest = lines;
    'lines: while !rest.is_empty() {
        let Some((line, later)) = cut_line(rest) else {
            return Ok(None);
        };
        let Some(path) = path_at(alloc, line)? else {
            return Ok(None);
        };
        paths.push(path)?;
        rest = later;
    }
    Ok(Some(paths))
}

/// Returns the paths that a manifest lists. None if the bytes are no manifest. Linear. Fails only if memory runs out.
pub fn paths_in(alloc: Global, bytes: &[u8]) -> Result<Option<Vec<Path>>, AllocError>
    ensures paths { IfOk result
        (λ found. IfSome found (λ paths. bytes.now ≡ manifest_text paths.items)) }
{
    match bytes.strip_prefix(TITLE) {
        Some(lines) => paths_of_lines(alloc, lines),
        None => Ok(None),
    }
}

// Whether a tree has something at a path.
fn has_path(tree: &[(Path, Content)], path: &Path) -> bool
    ensures has { result ≡ list_any (λ p. is_eq (path_cmp p.0 path.now)) tree.now }
{
    tree.iter().any(|p| p.0.cmp(path).is_eq())
}

// Whether a tree has nothing at a path.
fn is_gone(tree: &[(Path, Content)], path: &Path) -> bool
    ensures gone { result ≡ is_gone tree.now path.now }
{
    !has_path(tree, path)
}

/// Returns those of the paths at which a tree has nothing, in their order. Costs a comparison for each path with each path of
/// the tree.
pub fn gone_from(
    alloc: Global,
    paths: &[Path],
    tree: &[(Path, Content)],
) -> Result<Vec<Path>, AllocError>
    ensures gone { IfOk result (λ gone. gone.items ≡ filter (is_gone tree.now) paths.now) }
{
    let mut gone = Vec::new(alloc);
    for path in paths {
        if is_gone(tree, path) {
            gone.push(path.try_clone()?)?;
        }
    }
    Ok(gone)
}
