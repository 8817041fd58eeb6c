//! Compaction.
ghost use Rattle.std.specs.Prelude.{◌≡◌, ◌++◌, ◌^◌, ◌≤◌, ◌↔◌, [], IfOk, IsErrOf, IsPermutation, OnOk};
ghost use Rattle.edit_sums.specs.Sums.{edits_of, high_of, sum_of};
ghost use Rattle.edit_log.specs.Logs.{edits_in, LeavesAllOrNone, stamped};

use crate::faults::NodeFault;
use crate::nodes::{COUNTERS, NodeFile};
use crate::takes::edit_at;
use edit_log::{EditLog, LogPeer};
use edit_sums::Edit;
use replica_store::Store;
use std::alloc::AllocError;

// The entries of a store, removals too, as edits, in place order.
fn held_edits(store: &Store) -> Result<Vec<Edit>, AllocError>
    ensures edits { IfOk result (λ edits. edits.items ≡ edits_of store.now) }
{
    let mut edits = Vec::new(store.allocator());
    let mut left = store.entries();
    while let Some(placed) = left.next_entry() {
        edits.push(edit_at(&placed)?)?;
    }
    Ok(edits)
}

impl<L: EditLog> NodeFile<L> {
    /// Writes each entry of the replica, removals too, once into a log that has no rows, with this time, and these peers, which
    /// `peers` has told. If that log then takes the place of the node's own, nothing is lost but what was overwritten.
    ///
    /// Fails with `Counter` if the replica holds a counter of 2^63 or more, which no log has given it.
    pub fn compact_into<M: EditLog>(
        &self,
        fresh: &mut M,
        time: u32,
        peers: &[LogPeer],
    ) -> Result<(), NodeFault>
        requires running { M.is_running fresh.old }
        ensures rows { M.is_honest fresh.new
            → OnOk result
            (IsPermutation (M.held fresh.old ++ stamped time (edits_of self.now.replica.store))
            (M.held fresh.new)) }
        ensures sum { M.is_honest fresh.new
            → OnOk result (M.held fresh.old ≡ []
            → sum_of (edits_in (M.held fresh.new)) ≡ self.now.replica.store) }
        ensures peers { M.is_honest fresh.new
            → OnOk result (IsPermutation (M.peers fresh.old ++ peers.now) (M.peers fresh.new)) }
        ensures running { OnOk result (M.is_running fresh.new) }
        ensures counter { IsErrOf result NodeFault.Counter
            ↔ (2 ^ 63 ≤ high_of self.now.replica.store) }
        ensures head { M.head fresh.new ≡ M.head fresh.old }
        ensures honest { M.is_honest fresh.new → M.is_honest fresh.old }
    {
        let store = self.replica.store();
        if store.high() >= COUNTERS {
            return Err(NodeFault::Counter);
        }
        let edits = held_edits(store)?;
        fresh.append(&edits, time)?;
        fresh.note_peers(peers)?;
        Ok(())
    }
}
