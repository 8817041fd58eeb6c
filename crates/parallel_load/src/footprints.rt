//! Footprints: the first components of the paths that decide a unit.
ghost use Rattle.std.specs.{Prelude.{◌≡◌, ◌++◌, IfOk, IsSome, OnOk}, List.Sorted.{IsStrictlySortedBy}};
ghost use Rattle.unit_name.specs.Names.{name_cmp};
ghost use Rattle.dropins.specs.{FolderLists.{with_template}, Taken.{dirs_with, ending, name_dirs, type_dirs}, declared.folder_lists.Folder.TheVariants.{Requires, Wants}};
ghost use Rattle.unit_loads.specs.Footprints.{footprint};
ghost use Rattle.parallel_load.specs.{Footprints.{IsFootprintIn}, Loads.{unit_in}};

use crate::loaded::Loaded;
use dropins::{folders, name_dirs, type_dirs};
use plain_values::Bytes;
use std::alloc::{AllocError, Global};
use unit_name::UnitName;

/// The footprint of a unit of a load, in byte order: the first components of all paths that can change the unit while
/// aliases stay the same. These are the unit's name and its template's, the `.d`, `.wants` and `.requires` folders of
/// its names, and the `.d` folders of their types (systemd.unit(5), "Description"). Fails only if memory runs out.
pub fn footprint(loaded: &Loaded, name: &UnitName) -> Result<Vec<Bytes>, AllocError>
    requires unit { IsSome (unit_in loaded.now name.now) }
    ensures ascending { IfOk result (λ parts. IsStrictlySortedBy name_cmp parts.items) }
    ensures exact { IfOk result (λ parts. IsFootprintIn loaded.now name.now parts.items) }
{
    let alloc = loaded.allocator();
    let Some(unit) = loaded.unit(name) else {
        return Ok(Vec::new(alloc));
    };
    let mut parts = parts_of(alloc, name, unit.names.as_slice())?;
    parts.sort_unstable();
    parts.dedup();
    Ok(parts)
}

/// The same components for a unit with this name and these names, in the order in which they are made.
pub(crate) fn parts_of(
    alloc: Global,
    name: &UnitName,
    names: &[UnitName],
) -> Result<Vec<Bytes>, AllocError>
    ensures parts { IfOk result (λ parts. parts.items ≡ footprint name.now names.now) }
{
    let mut parts = own_parts(alloc, name)?;
    let names = folders(alloc, names)?;
    append_dirs(alloc, &mut parts, &names)?;
    Ok(parts)
}

// The components of a unit's own paths: its name, and the template of an instance.
fn own_parts(alloc: Global, name: &UnitName) -> Result<Vec<Bytes>, AllocError>
    ensures parts { IfOk result (λ parts. parts.items ≡ with_template name.now) }
{
    let mut parts = Vec::new(alloc);
    parts.push(Bytes::from_slice(alloc, name.bytes())?)?;
    if let Some(template) = name.template_of()? {
        parts.push(Bytes::from_slice(alloc, template.bytes())?)?;
    }
    Ok(parts)
}

// Appends the folders with these names.
fn append_dirs(alloc: Global, parts: &mut Vec<Bytes>, names: &[UnitName]) -> Result<(), AllocError>
    ensures appended { OnOk result
        (parts.new.items
        ≡ parts.old.items
        ++ (name_dirs names.now
        ++ (type_dirs names.now
        ++ (dirs_with (ending Wants) names.now ++ dirs_with (ending Requires) names.now)))) }
{
    parts.append(&mut name_dirs(alloc, names, b".d")?)?;
    parts.append(&mut type_dirs(alloc, names, b".d")?)?;
    parts.append(&mut name_dirs(alloc, names, b".wants")?)?;
    parts.append(&mut name_dirs(alloc, names, b".requires")?)
}
