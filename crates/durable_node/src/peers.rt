//! The peers that a node knows.
ghost use Rattle.std.specs.Prelude.{◌≡◌, ◌↔◌, ◌⊎◌, ◌++◌, [], List, false, true, IfOk, IsErrOf, IsPermutation, OnErr, OnOk};
ghost use Rattle.std.specs.Option.{option_copied};
ghost use Rattle.edit_sums.specs.Sums.{sum_of};
ghost use Rattle.edit_log.specs.declared.logs.LogRow.{LogRow};
ghost use Rattle.edit_log.specs.Logs.{edits_in, LeavesAllOrNone, LeavesJust, LeavesNothingNew};
ghost use Rattle.durable_node.specs.Peers.{AreLatest, is_followed, last_of_each};

use crate::faults::NodeFault;
use crate::nodes::NodeFile;
use edit_log::{EditLog, LogPeer};
use std::alloc::{AllocError, Global};

// Returns whether the peer after this one, if there is one, is the same node.
fn is_followed(peer: &LogPeer, next: Option<&LogPeer>) -> bool
    ensures followed { result ≡ is_followed peer.now (option_copied next.entry) }
{
    match next {
        None => false,
        Some(next) => peer
            .mark
            .cmp(&next.mark)
            .then(peer.writer.cmp(&next.writer))
            .is_eq(),
    }
}

// Of peers in order those that no peer of the same node follows.
fn last_of_each(alloc: Global, peers: &[LogPeer]) -> Result<Vec<LogPeer>, AllocError>
    ensures last { IfOk result (λ last. last.items ≡ last_of_each peers.now) }
{
    let mut last = Vec::new(alloc);
    for (index, peer) in peers.iter().enumerate() {
        if !is_followed(peer, peers.get(index + 1)) {
            last.push(*peer)?;
        }
    }
    Ok(last)
}

// Of each node the peer that was seen last, in the order of marks and numbers.
fn latest(alloc: Global, mut peers: Vec<LogPeer>) -> Result<Vec<LogPeer>, AllocError>
    ensures latest { IfOk result (λ latest. AreLatest peers.items latest.items) }
{
    peers.sort_unstable();
    last_of_each(alloc, &peers)
}

impl<L: EditLog> NodeFile<L> {
    /// Returns the nodes that this one has met or was told of, each mark and number once, as it was seen last, in their order.
    /// Reads and sorts all that was noted. A refusal of the log leaves the node spent; where memory for the answer runs out, the
    /// log holds what it held.
    pub fn peers(&mut self, alloc: Global) -> Result<Vec<LogPeer>, NodeFault>
        ensures spent { IsErrOf result NodeFault.Spent ↔ (self.old.is_spent ≡ true) }
        ensures latest { L.is_honest self.new.log
            → IfOk result (λ peers. AreLatest (L.peers self.old.log) peers.items) }
        ensures known { L.is_honest self.new.log
            → OnOk result (L.peers self.new.log ≡ L.peers self.old.log) }
        ensures held { L.is_honest self.new.log
            → OnOk result (L.held self.new.log ≡ L.held self.old.log) }
        ensures refused { OnErr result ((self.new.is_spent ≡ true)
            ⊎ (L.is_honest self.new.log → L.held self.new.log ≡ L.held self.old.log)) }
        ensures crash { L.is_honest self.new.log
            → LeavesNothingNew (L.may_leave self.old.log) (L.may_leave self.new.log) }
        ensures whole { OnOk result (self.new.is_spent ≡ false) }
        ensures running { OnOk result (L.is_running self.new.log) }
        ensures replica { self.new.replica ≡ self.old.replica }
        ensures unsaved { self.new.unsaved ≡ self.old.unsaved }
        ensures head { L.head self.new.log ≡ L.head self.old.log }
        ensures honest { L.is_honest self.new.log → L.is_honest self.old.log }
    {
        if self.is_spent {
            return Err(NodeFault::Spent);
        }
        match self.log.peers(alloc) {
            Ok(peers) => Ok(latest(alloc, peers)?),
            Err(fault) => {
                self.is_spent = true;
                Err(NodeFault::from(fault))
            }
        }
    }

    /// Notes in the log whom the node has met or was told of, all in one transaction.
    ///
    /// After a refusal it isn't known whether they are noted, and the node is spent. Of the edits the next open finds what it
    /// would have found before, or what the log came to (`found`).
    pub fn note_peers(&mut self, met: &[LogPeer]) -> Result<(), NodeFault>
        ensures spent { IsErrOf result NodeFault.Spent ↔ (self.old.is_spent ≡ true) }
        ensures noted { L.is_honest self.new.log
            → OnOk result (IsPermutation (L.peers self.old.log ++ met.now) (L.peers self.new.log)) }
        ensures held { L.is_honest self.new.log
            → OnOk result (L.held self.new.log ≡ L.held self.old.log) }
        ensures lasts { L.is_honest self.new.log
            → OnOk result (LeavesJust (L.held self.new.log) (L.may_leave self.new.log)) }
        ensures crash { L.is_honest self.new.log
            → LeavesAllOrNone (L.held self.old.log) [] (L.may_leave self.old.log)
            (L.may_leave self.new.log) }
        ensures found { L.is_honest self.new.log → (left : List LogRow)
            → L.may_leave self.new.log left → L.may_leave self.old.log left
            ⊎ (sum_of (edits_in left) ≡ sum_of (edits_in (L.held self.old.log))) }
        ensures saved { L.is_honest self.new.log → self.old.unsaved ≡ [] → (left : List LogRow)
            → L.may_leave self.new.log left
            → L.may_leave self.old.log left ⊎ (sum_of (edits_in left) ≡ self.new.replica.store) }
        ensures whole { OnOk result (self.new.is_spent ≡ false) }
        ensures refused { OnErr result (self.new.is_spent ≡ true) }
        ensures running { OnOk result (L.is_running self.new.log) }
        ensures replica { self.new.replica ≡ self.old.replica }
        ensures unsaved { self.new.unsaved ≡ self.old.unsaved }
        ensures head { L.head self.new.log ≡ L.head self.old.log }
        ensures honest { L.is_honest self.new.log → L.is_honest self.old.log }
    {
        if self.is_spent {
            return Err(NodeFault::Spent);
        }
        match self.log.note_peers(met) {
            Ok(()) => Ok(()),
            Err(fault) => {
                self.is_spent = true;
                Err(NodeFault::from(fault))
            }
        }
    }
}
