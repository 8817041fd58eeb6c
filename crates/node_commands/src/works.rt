//! Pieces of work at a node.
ghost use Rattle.std.specs.Prelude.{◌≡◌, ◌⊎◌, IsErrOf, List, OnOk, true};
ghost use Rattle.script_pipes.specs.Failures.{FailedSince};
ghost use Rattle.edit_sums.specs.declared.entries.Edit.{Edit};
ghost use Rattle.edit_log.specs.Logs.{LeavesAllOrNone, stamped};
ghost use Rattle.durable_node.specs.declared.{faults.NodeFault.{NodeFault}, histories.Logged.{Logged}, logs.LoggedAt.{LoggedAt}};
ghost use Rattle.node_commands.specs.Works.{Answers, Commits, LacksEdit, replica_after};
ghost use Rattle.node_commands.specs.declared.faults.CommandFault.TheVariants.{NoEdit, Node, Write};

use crate::contents::write_content;
use crate::exchanges::{take_piece, write_delta};
use crate::faults::CommandFault;
use crate::histories::write_history;
use crate::logs::write_log;
use crate::outputs::{write_digest, write_id, write_store};
use crate::peers::write_peers;
use delta_pieces::{Digest, Piece};
use durable_node::{EditLog, Logged, LoggedAt, NodeFile};
use join_law::Version;
use load_places::Place;
use script_pipes::Sink;
use std::alloc::Global;

/// A piece of work at a node, with what was read for it.
#[derive(Drop)]
pub enum Work {
    /// Write the digest.
    Digest,
    /// Write the store.
    Store,
    /// Write the identity.
    Id,
    /// Write what the owner of a digest lacks.
    Delta(Digest),
    /// Commit a piece.
    Take(Piece),
    /// Write the history of a place.
    History(Place),
    /// Write the whole log.
    Log,
    /// Write the node itself, and those that it knows.
    Peers,
    /// Write the bytes that an edit of a place put.
    Content { place: Place, version: Version },
}

/// Does a piece of work at a node, and writes its answer. A piece is committed with this time, in seconds since 1970.
///
/// The faults, and what each leaves, are those of the call for each work.
pub fn do_work<L: EditLog, K: Sink>(
    alloc: Global,
    node: &mut NodeFile<L>,
    work: &Work,
    time: u32,
    sink: &mut K,
) -> Result<(), CommandFault>
    ensures answered { L.is_honest node.new.log
        → OnOk result
        (Answers ⟦<Logged as Ord>⟧.cmp ⟦<LoggedAt as Ord>⟧.cmp work.now node.old.replica.store
        node.new.replica.store
        (record {
          rows = L.held node.old.log;
          peers = L.peers node.old.log;
          head = L.head node.old.log;
        }) (K.contents sink.old) (K.contents sink.new)) }
    ensures lacking { L.is_honest node.new.log → IsErrOf result NoEdit →
        LacksEdit ⟦<Logged as Ord>⟧.cmp work.now (L.held node.old.log) }
    ensures replica { OnOk result (node.new.replica ≡ replica_after work.now node.old.replica) }
    ensures committed { L.is_honest node.new.log → OnOk result (Commits work.now
        (L.held node.new.log) (L.may_leave node.new.log) node.new.replica.store) }
    ensures crash { L.is_honest node.new.log
        → (added : List Edit) × LeavesAllOrNone (L.held node.old.log) (stamped time added)
        (L.may_leave node.old.log) (L.may_leave node.new.log) }
    ensures unwritten { (refused : NodeFault) → IsErrOf result (Node refused)
        → sink.new ≡ sink.old }
    ensures unanswered { IsErrOf result NoEdit → sink.new ≡ sink.old }
    ensures kept { (refused : NodeFault) → IsErrOf result (Node refused)
        → (node.new.is_spent ≡ true)
        ⊎ ((node.new.replica ≡ node.old.replica)
        × (L.is_honest node.new.log → L.held node.new.log ≡ L.held node.old.log)) }
    ensures refused { IsErrOf result Write
        → FailedSince (K.refusals sink.old) (K.refusals sink.new) }
    ensures head { L.head node.new.log ≡ L.head node.old.log }
{
    match work {
        Work::Digest => write_digest(alloc, node, sink),
        Work::Store => write_store(node, sink),
        Work::Id => write_id(alloc, node, sink),
        Work::Delta(asked) => write_delta(alloc, node, asked, sink),
        Work::Take(piece) => take_piece(alloc, node, piece, time, sink),
        Work::History(place) => write_history(alloc, node, place, sink),
        Work::Log => write_log(alloc, node, sink),
        Work::Peers => write_peers(alloc, node, sink),
        Work::Content { place, version } => write_content(alloc, node, place, *version, sink),
    }
}
