//! What a node sends to another, and what it takes of one.
ghost use Rattle.std.specs.Prelude.{◌≡◌, ◌⊎◌, IfErr, IfOk, IsErrOf, List, None, OnErr, OnOk, true};
ghost use Rattle.std.specs.Io.KnownBytes.{Appends};
ghost use Rattle.script_pipes.specs.{Failures.{FailedSince}, KnownBytes.{AppendsPrefix}};
ghost use Rattle.edit_sums.specs.Sums.{changed_places, join, sum_of};
ghost use Rattle.edit_sums.specs.declared.entries.Edit.{Edit};
ghost use Rattle.edit_log.specs.Logs.{edits_in, LeavesAllOrNone, LeavesJust, stamped};
ghost use Rattle.world_law.specs.Cuts.{cut};
ghost use Rattle.store_bytes.specs.Bytes.{spelling_of};
ghost use Rattle.durable_node.specs.declared.faults.NodeFault.{NodeFault};
ghost use Rattle.node_commands.specs.Faults.{IsAnswerFault};
ghost use Rattle.node_commands.specs.Texts.{changed_line};
ghost use Rattle.node_commands.specs.declared.faults.CommandFault.TheVariants.{Memory, Node, Write};

use crate::faults::CommandFault;
use crate::outputs::write_made;
use delta_pieces::{Digest, Piece, delta_for};
use durable_node::{EditLog, NodeFault, NodeFile};
use replica_store::Replica;
use script_pipes::Sink;
use std::alloc::{AllocError, Global};
use store_bytes::piece_to_bytes;

// The bytes of the piece that a digest's owner lacks.
fn delta_bytes(alloc: Global, replica: &Replica, asked: &Digest) -> Result<Vec<u8>, AllocError>
    ensures bytes { IfOk result
        (λ bytes. bytes.items ≡ spelling_of 2 (cut replica.now.store asked.now None)) }
{
    piece_to_bytes(&delta_for(alloc, replica, asked)?)
}

/// Writes the piece that the owner of a digest lacks: what is newer here, and what is at places that the digest has not.
///
/// Fails with `Write`, or with `Memory`; then a prefix of the bytes is written.
pub fn write_delta<L: EditLog, K: Sink>(
    alloc: Global,
    node: &NodeFile<L>,
    asked: &Digest,
    sink: &mut K,
) -> Result<(), CommandFault>
    ensures written { OnOk result (Appends (K.contents sink.old) (K.contents sink.new)
        (spelling_of 2 (cut node.now.replica.store asked.now None))) }
    ensures prefix { OnErr result (AppendsPrefix (K.contents sink.old) (K.contents sink.new)
        (spelling_of 2 (cut node.now.replica.store asked.now None))) }
    ensures faults { IfErr result (λ fault. (fault ≡ Memory) ⊎ (fault ≡ Write)) }
    ensures refused { IsErrOf result Write
        → FailedSince (K.refusals sink.old) (K.refusals sink.new) }
{
    let made = delta_bytes(alloc, node.replica(), asked);
    write_made(sink, made)
}

// Takes a piece, and commits it. Returns how many places changed.
fn commit_piece<L: EditLog>(
    node: &mut NodeFile<L>,
    piece: &Piece,
    time: u32,
) -> Result<u64, NodeFault>
    ensures joined { OnOk result
        (node.new.replica
        ≡ record node.old.replica { store = join node.old.replica.store piece.now }) }
    ensures changed { IfOk result
        (λ changed. changed ≡ changed_places node.old.replica.store node.new.replica.store) }
    ensures sum { L.is_honest node.new.log
        → OnOk result (sum_of (edits_in (L.held node.new.log)) ≡ node.new.replica.store) }
    ensures lasts { L.is_honest node.new.log
        → OnOk result (LeavesJust (L.held node.new.log) (L.may_leave node.new.log)) }
    ensures crash { L.is_honest node.new.log
        → (added : List Edit) × LeavesAllOrNone (L.held node.old.log) (stamped time added)
        (L.may_leave node.old.log) (L.may_leave node.new.log) }
    ensures kept { OnErr result ((node.new.is_spent ≡ true) ⊎ (node.new ≡ node.old)) }
    ensures head { L.head node.new.log ≡ L.head node.old.log }
{
    let changed = node.take(piece)?;
    node.commit(time)?;
    Ok(changed)
}

/// Takes a piece, commits it with this time (in seconds since 1970), and then writes how many places changed, as a line:
/// `changed 3`. Whatever crashes, the next open finds all of the piece that was news, or nothing of it.
///
/// Fails with `Node` of `Counter` if the piece has a counter that no log holds, and then nothing has changed; with `Node` of
/// what the log refuses, and then the node is spent. With both nothing is written. Fails with `Write` or `Memory` once it is
/// committed, and with `Memory` before.
pub fn take_piece<L: EditLog, K: Sink>(
    alloc: Global,
    node: &mut NodeFile<L>,
    piece: &Piece,
    time: u32,
    sink: &mut K,
) -> Result<(), CommandFault>
    ensures joined { OnOk result
        (node.new.replica
        ≡ record node.old.replica { store = join node.old.replica.store piece.now }) }
    ensures answered { OnOk result (Appends (K.contents sink.old) (K.contents sink.new)
        (changed_line (changed_places node.old.replica.store node.new.replica.store))) }
    ensures sum { L.is_honest node.new.log
        → OnOk result (sum_of (edits_in (L.held node.new.log)) ≡ node.new.replica.store) }
    ensures lasts { L.is_honest node.new.log
        → OnOk result (LeavesJust (L.held node.new.log) (L.may_leave node.new.log)) }
    ensures crash { L.is_honest node.new.log
        → (added : List Edit) × LeavesAllOrNone (L.held node.old.log) (stamped time added)
        (L.may_leave node.old.log) (L.may_leave node.new.log) }
    ensures unwritten { (refused : NodeFault) → IsErrOf result (Node refused)
        → sink.new ≡ sink.old }
    ensures kept { (refused : NodeFault) → IsErrOf result (Node refused)
        → (node.new.is_spent ≡ true) ⊎ (node.new ≡ node.old) }
    ensures faults { IfErr result IsAnswerFault }
    ensures refused { IsErrOf result Write
        → FailedSince (K.refusals sink.old) (K.refusals sink.new) }
    ensures head { L.head node.new.log ≡ L.head node.old.log }
{
    match commit_piece(node, piece, time) {
        Ok(changed) => write_made(sink, changed_bytes(alloc, changed)),
        Err(refused) => Err(CommandFault::Node(refused)),
    }
}

// How many places changed, as a line.
fn changed_bytes(alloc: Global, changed: u64) -> Result<Vec<u8>, AllocError>
    ensures bytes { IfOk result (λ bytes. bytes.items ≡ changed_line changed) }
{
    Ok(format!(in alloc; "changed {changed}\n")?.into_bytes())
}
