//! What is taken for each file name in the folders of names and of types.
ghost use Rattle.std.specs.{Prelude.{◌≡◌, ℕ, ◌↔◌, List, IfOk, OnOk, Some, None, map}, BTreeMap.{get, IsOrdered}, List.{Contains}};
ghost use Rattle.std.specs.List.Sorted.{IsStrictlySortedBy};
ghost use Rattle.std.specs.FinMap as finmap;
ghost use Rattle.path_maps.specs.HostViews.{view as all_viewed};
ghost use Rattle.load_path.specs.Paths.{PathParts};
ghost use Rattle.edit_sums.specs.Entries.{Entry};
ghost use Rattle.unit_name.specs.Names.{name_cmp};
ghost use Rattle.dropins.specs.{Taken.{is_conf, is_null, IsTakenOver, entry_name}, Taken.Candidate.{At}};
ghost use Rattle.dropins.specs.declared.precedence.Search.TheVariants.{DropIns, Links};
ghost use Rattle.dropins.specs.Walks.{Adds, first_for, path, said_for, take_at, take_of, took, took_in, took_over, unmasked};

use load_places::LEVELS;
use plain_values::Bytes;
use replica_store::{Content, HostView, HostViewEntry, LinkTarget};
use std::alloc::{AllocError, Global};
use std::collections::BTreeMap;

/// What is searched for in folders.
#[derive(Clone, Copy, Debug, PartialEq, Eq)]
pub enum Search {
    /// Files whose name ends in `.conf`.
    DropIns,
    /// Links.
    Links,
}

/// What is taken for a file name.
#[derive(Drop)]
pub enum Take<'a> {
    /// A mask: it is taken and gives nothing.
    Nothing,
    /// This entry.
    Placed(HostViewEntry<'a>),
}

// The candidates with their file names, in the order in which they are searched for. For each file name the first is
// taken.
type Candidates<'a> = Vec<(Bytes, Take<'a>)>;

// What is taken, by file name.
type TakenByName<'a> = BTreeMap<Bytes, Take<'a>>;

/// Returns what is taken in the folders of names, or else in those of types, in byte order of file names and without
/// masks. Fails only if memory runs out.
pub fn taken_entries<'a>(
    alloc: Global,
    view: &HostView<'a>,
    search: Search,
    name_dirs: &[Bytes],
    type_dirs: &[Bytes],
) -> Result<Vec<HostViewEntry<'a>>, AllocError>
    ensures ascending { IfOk result
        (λ taken. IsStrictlySortedBy name_cmp (map entry_name taken.items)) }
    ensures exact { IfOk result (λ taken. (p : PathParts × Entry) → Contains taken.items p ↔
        (IsTakenOver view.now search name_dirs.now type_dirs.now (At p.0) p.0
        × (finmap.get (all_viewed view.now) p.0 ≡ Some p.1))) }
{
    let takes = taken(alloc, view, search, name_dirs, type_dirs)?;
    unmasked(alloc, takes)
}

// Returns for each file name what is taken in the folders of names, or else in those of types: in either at the least
// level, and at that level in the first of the folders.
//
// Costs a search in the store for each folder at each level, and then one sort of all candidates, which come in sorted
// runs: O(r log n + p log p) with p paths in r such folders.
fn taken<'a>(
    alloc: Global,
    view: &HostView<'a>,
    search: Search,
    name_dirs: &[Bytes],
    type_dirs: &[Bytes],
) -> Result<TakenByName<'a>, AllocError>
    ensures taken { IfOk result (λ takes. (f : List ℕ)
        → get name_cmp takes f ≡ took_over view.now search name_dirs.now type_dirs.now f) }
{
    let mut found = Vec::new(alloc);
    add_levels(view, &mut found, search, name_dirs)?;
    add_levels(view, &mut found, search, type_dirs)?;
    firsts(alloc, found)
}

// Returns the first candidate for each file name. Collecting into a map keeps the last of several, so the candidates
// are reversed first.
fn firsts<'a>(alloc: Global, found: Candidates<'a>) -> Result<TakenByName<'a>, AllocError>
    ensures firsts { IfOk result
        (λ takes. (f : List ℕ) → get name_cmp takes f ≡ first_for found.entry.items f) }
{
    let mut found = found;
    found.reverse();
    found.into_iter().collect(alloc)
}

// Adds the candidates at all levels.
fn add_levels<'a>(
    view: &HostView<'a>,
    found: &mut Candidates<'a>,
    search: Search,
    dirs: &[Bytes],
) -> Result<(), AllocError>
    ensures added { OnOk result
        (Adds found.old.items found.new.items (took view.now search dirs.now)) }
{
    for level in 0..LEVELS {
        add_level(view, found, search, level, dirs)?;
    }
    Ok(())
}

// Adds the candidates at one level.
fn add_level<'a>(
    view: &HostView<'a>,
    found: &mut Candidates<'a>,
    search: Search,
    level: u8,
    dirs: &[Bytes],
) -> Result<(), AllocError>
    ensures added { OnOk result
        (Adds found.old.items found.new.items (λ f. took_in view.now search dirs.now f level)) }
{
    for dir in dirs {
        add_folder(view, found, search, level, dir.as_slice())?;
    }
    Ok(())
}

// Adds the candidates in one folder.
fn add_folder<'a>(
    view: &HostView<'a>,
    found: &mut Candidates<'a>,
    search: Search,
    level: u8,
    dir: &[u8],
) -> Result<(), AllocError>
    ensures added { OnOk result
        (Adds found.old.items found.new.items
        (λ f. take_at view.now search (path level dir.now f))) }
{
    let mut entries = view.entries_in(level, dir);
    while let Some(placed) = entries.next_entry() {
        add_entry(found, search, placed)?;
    }
    Ok(())
}

// Adds an entry if it is a candidate.
fn add_entry<'a>(
    found: &mut Candidates<'a>,
    search: Search,
    placed: HostViewEntry<'a>,
) -> Result<(), AllocError>
    ensures added { OnOk result
        (Adds found.old.items found.new.items (λ f. said_for search f placed.entry)) }
{
    let name = placed.name();
    if let Some(take) = take_of(search, placed) {
        found.push((name.try_clone()?, take))?;
    }
    Ok(())
}

// Returns what is taken if an entry comes first; `None` if it is no candidate.
fn take_of<'a>(search: Search, placed: HostViewEntry<'a>) -> Option<Take<'a>>
    ensures take { result ≡ take_of search placed.entry }
{
    match search {
        Search::DropIns => as_drop_in(placed),
        Search::Links => as_link(placed),
    }
}

fn as_drop_in<'a>(placed: HostViewEntry<'a>) -> Option<Take<'a>>
    ensures take { result ≡ take_of DropIns placed.entry }
{
    if !is_conf(placed.name().as_slice()) {
        return None;
    }
    match &placed.entry().content {
        Content::Gone => None,
        Content::File(file) => {
            if file.bytes().is_empty() {
                return Some(Take::Nothing);
            }
            Some(Take::Placed(placed))
        }
        Content::Link(target) => {
            if is_null(target) {
                return Some(Take::Nothing);
            }
            None
        }
    }
}

fn as_link<'a>(placed: HostViewEntry<'a>) -> Option<Take<'a>>
    ensures take { result ≡ take_of Links placed.entry }
{
    match &placed.entry().content {
        Content::Gone | Content::File(_) => None,
        Content::Link(target) => {
            if is_null(target) {
                return Some(Take::Nothing);
            }
            Some(Take::Placed(placed))
        }
    }
}

// Returns whether a file name is that of a drop-in.
fn is_conf(name: &[u8]) -> bool
    ensures test { result ≡ is_conf name.now }
{
    name.len() > 5 && &name[name.len() - 5..] == b".conf".as_slice()
}

// Returns whether a link is a mask.
fn is_null(target: &LinkTarget) -> bool
    ensures test { result ≡ is_null target.now }
{
    target.bytes() == b"/dev/null".as_slice()
}

// Returns the entries that are taken, by file name and without masks.
fn unmasked<'a>(alloc: Global, takes: TakenByName<'a>) -> Result<Vec<HostViewEntry<'a>>, AllocError>
    ensures entries { IfOk result (λ taken. taken.items ≡ unmasked takes.entry.entries) }
    ensures ordered { IsOrdered name_cmp takes.entry }
{
    let mut taken = Vec::new(alloc);
    for (_, take) in takes {
        if let Take::Placed(placed) = take {
            taken.push(placed)?;
        }
    }
    Ok(taken)
}
