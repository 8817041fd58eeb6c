//! The names of the folders in which a unit's files are searched for.
ghost use Rattle.std.specs.Prelude.{◌≡◌, IfOk, map};
ghost use Rattle.unit_name.specs.Names.{word};
ghost use Rattle.dropins.specs.{FolderLists.{is_among, types_of}, Taken.{dirs_with}};

use plain_values::Bytes;
use std::alloc::{AllocError, Global};
use unit_name::{Kind, UnitName};

/// Returns the folder name of each unit name: the name with this ending. Fails only if memory runs out.
pub fn name_dirs(alloc: Global, names: &[UnitName], ending: &[u8]) -> Result<Vec<Bytes>, AllocError>
    ensures dirs { IfOk result (λ dirs. dirs.items ≡ dirs_with ending.now names.now) }
{
    let mut dirs = Vec::new(alloc);
    for name in names {
        dirs.push(Bytes::joined(alloc, name.bytes(), ending)?)?;
    }
    Ok(dirs)
}

/// Returns the folder names of the types of these unit names: each type once, with this ending. Fails only if memory
/// runs out.
pub fn type_dirs(alloc: Global, names: &[UnitName], ending: &[u8]) -> Result<Vec<Bytes>, AllocError>
    ensures dirs { IfOk result (λ dirs. dirs.items ≡ dirs_with ending.now (types_of names.now)) }
{
    let kinds = kinds_of(alloc, names)?;
    kind_dirs(alloc, &kinds, ending)
}

// Returns the folder names of kinds, with this ending.
fn kind_dirs(alloc: Global, kinds: &[Kind], ending: &[u8]) -> Result<Vec<Bytes>, AllocError>
    ensures dirs { IfOk result (λ dirs. dirs.items ≡ dirs_with ending.now (map word kinds.now)) }
{
    let mut dirs = Vec::new(alloc);
    for kind in kinds {
        dirs.push(Bytes::joined(alloc, kind.word(), ending)?)?;
    }
    Ok(dirs)
}

// Returns the kinds of names, each once.
fn kinds_of(alloc: Global, names: &[UnitName]) -> Result<Vec<Kind>, AllocError>
    ensures kinds { IfOk result (λ kinds. map word kinds.items ≡ types_of names.now) }
{
    let mut kinds = Vec::new(alloc);
    for name in names {
        let kind = name.kind();
        if !has_kind(kinds.as_slice(), kind) {
            kinds.push(kind)?;
        }
    }
    Ok(kinds)
}

// Returns whether a kind is one of these.
fn has_kind(kinds: &[Kind], kind: Kind) -> bool
    ensures test { result ≡ is_among (word kind) (map word kinds.now) }
{
    kinds.contains(&kind)
}
