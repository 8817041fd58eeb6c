//! Opening a node.
ghost use Rattle.std.specs.Prelude.{◌≡◌, ◌≢◌, [], false, IfErr, IfOk, IsErrAnd, IsPermutation, OnOk};
ghost use Rattle.edit_sums.specs.Sums.{sum_of};
ghost use Rattle.edit_log.specs.Logs.{edits_in, LeavesNothingNew};

use crate::faults::NodeFault;
use crate::nodes::{FORMAT, NodeFile};
use edit_log::{EditLog, LogRow};
use replica_store::{Replica, Store};
use std::alloc::{AllocError, Global};

// The sum of the edits of rows.
fn sum(alloc: Global, mut rows: Vec<LogRow>) -> Result<Store, AllocError>
    ensures sum { IfOk result (λ store. store ≡ sum_of (edits_in rows.items)) }
{
    let mut store = Store::new(alloc);
    'rows: while let Some(row) = rows.pop() {
        let (edit, _time) = row.into_parts();
        store.join_edit(edit)?;
    }
    Ok(store)
}

// Orders rows by their places, the last place first: so a sum that takes them from the end moves nothing.
fn last_place_first(rows: &mut [LogRow])
    ensures moved { IsPermutation rows.old rows.new }
{
    rows.sort_unstable_by(|row, other| other.edit.place.cmp(&row.edit.place));
}

// What a log comes to.
fn read_sum<L: EditLog>(alloc: Global, log: &mut L) -> Result<Store, NodeFault>
    requires running { L.is_running log.old }
    ensures sum { L.is_honest log.new
        → IfOk result (λ store. store ≡ sum_of (edits_in (L.held log.old))) }
    ensures held { L.is_honest log.new → OnOk result (L.held log.new ≡ L.held log.old) }
    ensures peers { L.is_honest log.new → OnOk result (L.peers log.new ≡ L.peers log.old) }
    ensures running { OnOk result (L.is_running log.new) }
    ensures head { L.head log.new ≡ L.head log.old }
    ensures honest { L.is_honest log.new → L.is_honest log.old }
{
    let mut rows = log.read(alloc)?;
    last_place_first(&mut rows);
    Ok(sum(alloc, rows)?)
}

impl<L: EditLog + Drop> NodeFile<L> {
    /// Opens a node over a log: its replica holds the sum of the log under the log's writer. Fails with `Format` exactly if
    /// the log is of another format, which is read no further; else with what the log refuses, or with `Memory`.
    pub fn open(alloc: Global, mut log: L) -> Result<NodeFile<L>, NodeFault>
        requires running { L.is_running log }
        ensures format { (L.head log).format ≢ FORMAT
            → IsErrAnd result (λ fault. fault ≡ NodeFault.Format) }
        ensures known { OnOk result ((L.head log).format ≡ FORMAT) }
        ensures writer { IfOk result (λ node. node.replica.writer ≡ (L.head log).writer) }
        ensures sum { IfOk result
            (λ node. L.is_honest node.log → node.replica.store ≡ sum_of (edits_in (L.held log))) }
        ensures log { IfOk result (λ node. L.is_honest node.log → L.held node.log ≡ L.held log) }
        ensures peers { IfOk result
            (λ node. L.is_honest node.log → L.peers node.log ≡ L.peers log) }
        ensures head { IfOk result (λ node. L.head node.log ≡ L.head log) }
        ensures saved { IfOk result (λ node. node.unsaved ≡ []) }
        ensures whole { IfOk result (λ node. node.is_spent ≡ false) }
        ensures running { IfOk result (λ node. L.is_running node.log) }
        ensures honest { IfOk result (λ node. L.is_honest node.log → L.is_honest log) }
    {
        let head = log.head();
        if head.format != FORMAT {
            return Err(NodeFault::Format);
        }
        let store = read_sum(alloc, &mut log)?;
        Ok(NodeFile {
            log,
            replica: Replica::from_store(head.writer, store),
            unsaved: Vec::new(alloc),
            is_spent: false,
        })
    }
}
