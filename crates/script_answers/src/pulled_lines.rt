//! How the units that a unit pulls are written.
ghost use Rattle.std.specs.{Prelude.{◌≡◌, ◌++◌, IfOk, OnOk}, List.{flat_map}};
ghost use Rattle.script_answers.specs.PulledLines.{depth_line, pulled_text};

use std::alloc::{AllocError, Global};
use std::fmt::Write;
use unit_name::UnitName;

/// Returns the text of units with their distances, a line for each. Linear in the length of the text.
pub(crate) fn pulled_text(alloc: Global, pairs: &[(u64, UnitName)]) -> Result<Vec<u8>, AllocError>
    ensures text { IfOk result (λ text. text.items ≡ pulled_text pairs.now) }
{
    let mut out = Vec::new(alloc);
    let mut scratch = String::new(alloc);
    for pair in pairs {
        append_depth(&mut out, &mut scratch, pair)?;
    }
    out.extend_from_slice(b"end\n")?;
    Ok(out)
}

// Appends the line of a unit. `scratch` is a buffer for a number.
fn append_depth(
    out: &mut Vec<u8>,
    scratch: &mut String,
    pair: &(u64, UnitName),
) -> Result<(), AllocError>
    ensures appended { OnOk result (out.new.items ≡ out.old.items ++ depth_line pair.now) }
{
    let depth = pair.0;
    scratch.clear();
    write!(scratch, "{depth} ")?;
    out.extend_from_slice(scratch.as_bytes())?;
    out.extend_from_slice(pair.1.bytes())?;
    out.push(b'\n')?;
    Ok(())
}
