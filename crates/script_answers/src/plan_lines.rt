//! How a plan is written.
ghost use Rattle.std.specs.{Prelude.{◌≡◌, ◌++◌, IfOk, OnOk}, List.{flat_map}};
ghost use Rattle.script_answers.specs.Plans.{plan_text, start_line, stop_line, unit_line};

use start_plan::Plan;
use std::alloc::{AllocError, Global};
use unit_name::UnitName;

/// Returns the text of a plan: what stops and what starts, a line for each unit. Linear in the length of the text.
pub(crate) fn plan_text(alloc: Global, plan: &Plan) -> Result<Vec<u8>, AllocError>
    ensures text { IfOk result (λ text. text.items ≡ plan_text plan.now) }
{
    let mut out = Vec::new(alloc);
    append_stops(&mut out, plan.stop.as_slice())?;
    append_starts(&mut out, plan.start.as_slice())?;
    out.extend_from_slice(b"end\n")?;
    Ok(out)
}

// Appends a line for each unit that stops.
fn append_stops(out: &mut Vec<u8>, names: &[UnitName]) -> Result<(), AllocError>
    ensures appended { OnOk result (out.new.items ≡ out.old.items ++ flat_map stop_line names.now) }
{
    for name in names {
        append_line(out, b"stop ", name)?;
    }
    Ok(())
}

// Appends a line for each unit that starts.
fn append_starts(out: &mut Vec<u8>, names: &[UnitName]) -> Result<(), AllocError>
    ensures appended { OnOk result
        (out.new.items ≡ out.old.items ++ flat_map start_line names.now) }
{
    for name in names {
        append_line(out, b"start ", name)?;
    }
    Ok(())
}

// Appends the line of a unit.
fn append_line(out: &mut Vec<u8>, verb: &[u8], name: &UnitName) -> Result<(), AllocError>
    ensures appended { OnOk result (out.new.items ≡ out.old.items ++ unit_line verb.now name.now) }
{
    out.extend_from_slice(verb)?;
    out.extend_from_slice(name.bytes())?;
    out.push(b'\n')?;
    Ok(())
}
