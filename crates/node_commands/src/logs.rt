//! The whole log, as text.
ghost use Rattle.std.specs.Prelude.{◌≡◌, ◌⊎◌, ◌++◌, IfErr, IfOk, IsErrOf, IsPermutation, IsSorted, List, OnErr, OnOk, true};
ghost use Rattle.std.specs.Io.KnownBytes.{Appends};
ghost use Rattle.script_pipes.specs.Failures.{FailedSince};
ghost use Rattle.edit_log.specs.Logs.{LeavesNothingNew};
ghost use Rattle.durable_node.specs.declared.{faults.NodeFault.{NodeFault}, logs.LoggedAt.{LoggedAt}};
ghost use Rattle.durable_node.specs.Histories.{logged_all};
ghost use Rattle.node_commands.specs.Faults.{IsAnswerFault};
ghost use Rattle.node_commands.specs.Texts.{log_line, log_text};
ghost use Rattle.node_commands.specs.declared.faults.CommandFault.TheVariants.{Node, Write};

use crate::faults::CommandFault;
use crate::histories::append_logged;
use crate::outputs::write_made;
use durable_node::{EditLog, LoggedAt, NodeFile};
use script_pipes::Sink;
use std::alloc::{AllocError, Global};

// Appends the line of an edit, behind its place.
fn append_logged_at(out: &mut Vec<u8>, alloc: Global, logged: &LoggedAt) -> Result<(), AllocError>
    ensures appended { OnOk result (out.new.items ≡ out.old.items ++ log_line logged.now) }
{
    logged.place.append_to(out)?;
    out.push(b' ')?;
    append_logged(out, alloc, &logged.logged)
}

// The lines of edits, each behind its place.
fn log_bytes(alloc: Global, logged: &[LoggedAt]) -> Result<Vec<u8>, AllocError>
    ensures lines { IfOk result (λ text. text.items ≡ log_text logged.now) }
{
    let mut out = Vec::new(alloc);
    for each in logged {
        append_logged_at(&mut out, alloc, each)?;
    }
    Ok(out)
}

/// Writes a line for each edit that stands in the log, in the order of places, and at each of versions: the place as scripts
/// write it, and then the line that `write_history` has of it.
///
/// Fails with `Node` if the log refuses, and then the node is spent, or if memory for the edits runs out, and then the log
/// holds what it held; with both nothing is written. Fails with `Write`; or with `Memory` if it runs out for the lines.
pub fn write_log<L: EditLog, K: Sink>(
    alloc: Global,
    node: &mut NodeFile<L>,
    sink: &mut K,
) -> Result<(), CommandFault>
    ensures written { L.is_honest node.new.log → OnOk result ((logged : List LoggedAt)
        × IsPermutation (logged_all (L.held node.old.log)) logged
        × IsSorted ⟦<LoggedAt as Ord>⟧.cmp logged
        × Appends (K.contents sink.old) (K.contents sink.new) (log_text logged)) }
    ensures kept { OnErr result ((IsErrOf result Write → ⊥) → sink.new ≡ sink.old) }
    ensures faults { IfErr result IsAnswerFault }
    ensures refused { IsErrOf result Write
        → FailedSince (K.refusals sink.old) (K.refusals sink.new) }
    ensures spent { (refused : NodeFault) → IsErrOf result (Node refused)
        → (node.new.is_spent ≡ true)
        ⊎ (L.is_honest node.new.log → L.held node.new.log ≡ L.held node.old.log) }
    ensures crash { L.is_honest node.new.log
        → LeavesNothingNew (L.may_leave node.old.log) (L.may_leave node.new.log) }
    ensures replica { node.new.replica ≡ node.old.replica }
    ensures unsaved { node.new.unsaved ≡ node.old.unsaved }
    ensures head { L.head node.new.log ≡ L.head node.old.log }
{
    let logged = node.histories(alloc)?;
    write_made(sink, log_bytes(alloc, &logged))
}
