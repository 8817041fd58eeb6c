//! How names are written.
ghost use Rattle.std.specs.Prelude.{◌≡◌, ◌++◌, OnOk};
ghost use Rattle.script_answers.specs.Texts.{spaced_name, spaced_names};

use std::alloc::AllocError;
use unit_name::UnitName;

/// Appends names, each after a space. Linear in what is written. Fails only if memory runs out.
pub(crate) fn append_names(out: &mut Vec<u8>, names: &[UnitName]) -> Result<(), AllocError>
    ensures appended { OnOk result (out.new.items ≡ out.old.items ++ spaced_names names.now) }
{
    for name in names {
        append_name(out, name)?;
    }
    Ok(())
}

// Appends a name after a space.
pub(crate) fn append_name(out: &mut Vec<u8>, name: &UnitName) -> Result<(), AllocError>
    ensures appended { OnOk result (out.new.items ≡ out.old.items ++ spaced_name name.now) }
{
    out.push(b' ')?;
    out.extend_from_slice(name.bytes())
}
