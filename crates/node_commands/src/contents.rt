//! What an edit put.
ghost use Rattle.std.specs.Prelude.{◌≡◌, ◌⊎◌, IfErr, IsErrOf, IsPermutation, IsSorted, List, None, OnErr, OnOk, option_map, Some, true, ℕ};
ghost use Rattle.std.specs.Io.KnownBytes.{Appends};
ghost use Rattle.script_pipes.specs.{Failures.{FailedSince}, KnownBytes.{AppendsPrefix}};
ghost use Rattle.edit_log.specs.Logs.{LeavesNothingNew};
ghost use Rattle.durable_node.specs.declared.{faults.NodeFault.{NodeFault}, histories.Logged.{Logged}};
ghost use Rattle.durable_node.specs.Histories.{logged_at};
ghost use Rattle.node_commands.specs.Faults.{IsContentFault};
ghost use Rattle.node_commands.specs.Puts.{bytes_of, bytes_put};
ghost use Rattle.node_commands.specs.declared.faults.CommandFault.TheVariants.{NoEdit, Node, Write};

use crate::faults::CommandFault;
use durable_node::{EditLog, Logged, NodeFile};
use join_law::Version;
use load_places::Place;
use replica_store::Content;
use script_pipes::{Sink, write_all};
use std::alloc::Global;

// The bytes of a file, or a link's target. None of a removal.
fn bytes_of(content: &Content) -> Option<&[u8]>
    ensures bytes { option_map (λ b. b.now) result ≡ bytes_of content.now }
{
    match content {
        Content::Gone => None,
        Content::Link(target) => Some(target.bytes()),
        Content::File(file) => Some(file.bytes()),
    }
}

// The bytes that the edit with this version put, of edits in the order of versions.
fn bytes_put(logged: &[Logged], version: Version) -> Option<&[u8]>
    ensures put { option_map (λ b. b.now) result ≡ bytes_put version logged.now }
{
    let mut put = None;
    for each in logged {
        if each.version.cmp(&version).is_eq() {
            put = bytes_of(&each.content);
        }
    }
    put
}

/// Writes the bytes that the edit of a place with this version put, which stands in the log: a file's bytes, or a link's target.
/// Where several edits of the place have this version, those of the greatest content, which decides in stores.
///
/// Fails with `NoEdit` exactly if the log has no such edit, or it is a removal; with `Node` if the log refuses, and then the
/// node is spent, or if memory for the edits runs out, and then the log holds what it held; with these nothing is written.
/// Fails with `Write`, and then a prefix of the bytes is written.
pub fn write_content<L: EditLog, K: Sink>(
    alloc: Global,
    node: &mut NodeFile<L>,
    place: &Place,
    version: Version,
    sink: &mut K,
) -> Result<(), CommandFault>
    ensures written { L.is_honest node.new.log → OnOk result ((logged : List Logged)
        × IsPermutation (logged_at place.now (L.held node.old.log)) logged
        × IsSorted ⟦<Logged as Ord>⟧.cmp logged
        × ((bytes : List ℕ) × (bytes_put version logged ≡ Some bytes)
        × Appends (K.contents sink.old) (K.contents sink.new) bytes)) }
    ensures none { L.is_honest node.new.log → IsErrOf result NoEdit → (logged : List Logged)
        × IsPermutation (logged_at place.now (L.held node.old.log)) logged
        × IsSorted ⟦<Logged as Ord>⟧.cmp logged
        × (bytes_put version logged ≡ None) }
    ensures kept { OnErr result ((IsErrOf result Write → ⊥) → sink.new ≡ sink.old) }
    ensures faults { IfErr result IsContentFault }
    ensures refused { IsErrOf result Write
        → FailedSince (K.refusals sink.old) (K.refusals sink.new) }
    ensures spent { (refused : NodeFault) → IsErrOf result (Node refused)
        → (node.new.is_spent ≡ true)
        ⊎ (L.is_honest node.new.log → L.held node.new.log ≡ L.held node.old.log) }
    ensures crash { L.is_honest node.new.log
        → LeavesNothingNew (L.may_leave node.old.log) (L.may_leave node.new.log) }
    ensures replica { node.new.replica ≡ node.old.replica }
    ensures unsaved { node.new.unsaved ≡ node.old.unsaved }
    ensures head { L.head node.new.log ≡ L.head node.old.log }
{
    let logged = node.history(alloc, place)?;
    let Some(bytes) = bytes_put(&logged, version) else {
        return Err(CommandFault::NoEdit);
    };
    write_all(sink, bytes)?;
    Ok(())
}
