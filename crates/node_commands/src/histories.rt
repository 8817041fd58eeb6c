//! Histories of places, as text.
ghost use Rattle.std.specs.Prelude.{◌≡◌, ◌⊎◌, ◌++◌, IfErr, IfOk, IsErrOf, IsPermutation, IsSorted, List, OnErr, OnOk, true};
ghost use Rattle.std.specs.Io.KnownBytes.{Appends};
ghost use Rattle.script_pipes.specs.{Failures.{FailedSince}, KnownBytes.{AppendsPrefix}};
ghost use Rattle.edit_log.specs.Logs.{LeavesNothingNew};
ghost use Rattle.durable_node.specs.declared.{faults.NodeFault.{NodeFault}, histories.Logged.{Logged}};
ghost use Rattle.durable_node.specs.Histories.{logged_at};
ghost use Rattle.node_commands.specs.Faults.{IsAnswerFault};
ghost use Rattle.node_commands.specs.Texts.{content_text, history_text, logged_line};
ghost use Rattle.node_commands.specs.declared.faults.CommandFault.TheVariants.{Node, Write};

use crate::faults::CommandFault;
use crate::outputs::write_made;
use durable_node::{EditLog, Logged, NodeFile};
use load_places::Place;
use replica_store::Content;
use script_pipes::Sink;
use std::alloc::{AllocError, Global};
use std::fmt::Write;

// Appends a content as text.
fn append_content(out: &mut Vec<u8>, alloc: Global, content: &Content) -> Result<(), AllocError>
    ensures appended { OnOk result (out.new.items ≡ out.old.items ++ content_text content.now) }
{
    match content {
        Content::Gone => out.extend_from_slice(b"gone"),
        Content::Link(target) => {
            out.extend_from_slice(b"link ")?;
            out.extend_from_slice(target.bytes())
        }
        Content::File(file) => {
            let len = file.bytes().len();
            out.extend_from_slice(format!(in alloc; "file {len}")?.as_bytes())
        }
    }
}

// Appends the line of an edit.
pub(crate) fn append_logged(
    out: &mut Vec<u8>,
    alloc: Global,
    logged: &Logged,
) -> Result<(), AllocError>
    ensures appended { OnOk result (out.new.items ≡ out.old.items ++ logged_line logged.now) }
{
    let counter = logged.version.counter;
    let writer = logged.version.writer;
    let time = logged.time;
    out.extend_from_slice(format!(in alloc; "{counter}.{writer} @{time} ")?.as_bytes())?;
    append_content(out, alloc, &logged.content)?;
    out.push(b'\n')?;
    Ok(())
}

// The lines of edits.
fn history_bytes(alloc: Global, logged: &[Logged]) -> Result<Vec<u8>, AllocError>
    ensures lines { IfOk result (λ text. text.items ≡ history_text logged.now) }
{
    let mut out = Vec::new(alloc);
    for each in logged {
        append_logged(&mut out, alloc, each)?;
    }
    Ok(out)
}

/// Writes a line for each edit of a place that stands in the log, in the order of their versions: the version, `@` and the
/// time of its commit in seconds since 1970, and what it wrote: `gone`, `link TARGET` or `file LENGTH`.
///
/// Fails with `Node` if the log refuses, and then the node is spent, or if memory for the edits runs out, and then the log
/// holds what it held; with both nothing is written. Fails with `Write`; or with `Memory` if it runs out for the lines.
pub fn write_history<L: EditLog, K: Sink>(
    alloc: Global,
    node: &mut NodeFile<L>,
    place: &Place,
    sink: &mut K,
) -> Result<(), CommandFault>
    ensures written { L.is_honest node.new.log → OnOk result ((logged : List Logged)
        × IsPermutation (logged_at place.now (L.held node.old.log)) logged
        × IsSorted ⟦<Logged as Ord>⟧.cmp logged
        × Appends (K.contents sink.old) (K.contents sink.new) (history_text logged)) }
    ensures kept { OnErr result ((IsErrOf result Write → ⊥) → sink.new ≡ sink.old) }
    ensures faults { IfErr result IsAnswerFault }
    ensures refused { IsErrOf result Write
        → FailedSince (K.refusals sink.old) (K.refusals sink.new) }
    ensures spent { (refused : NodeFault) → IsErrOf result (Node refused)
        → (node.new.is_spent ≡ true)
        ⊎ (L.is_honest node.new.log → L.held node.new.log ≡ L.held node.old.log) }
    ensures crash { L.is_honest node.new.log
        → LeavesNothingNew (L.may_leave node.old.log) (L.may_leave node.new.log) }
    ensures replica { node.new.replica ≡ node.old.replica }
    ensures unsaved { node.new.unsaved ≡ node.old.unsaved }
    ensures head { L.head node.new.log ≡ L.head node.old.log }
{
    let logged = node.history(alloc, place)?;
    write_made(sink, history_bytes(alloc, &logged))
}
