//! The whole log: the histories of all places.
ghost use Rattle.std.specs.Prelude.{◌≡◌, ◌↔◌, ◌⊎◌, true, IfOk, IsErrOf, IsPermutation, IsSorted, OnErr, OnOk};
ghost use Rattle.edit_log.specs.Logs.{LeavesNothingNew};
ghost use Rattle.durable_node.specs.Histories.{logged_all, logged_with};

use crate::faults::NodeFault;
use crate::histories::{Logged, logged_of};
use crate::nodes::NodeFile;
use edit_log::{EditLog, LogRow};
use load_places::Place;
use std::alloc::{AllocError, Global};

/// An edit of the log, with its place.
#[derive(Debug, PartialEq, Eq, PartialOrd, Ord)]
pub struct LoggedAt {
    /// The place that it wrote to.
    pub place: Place,
    /// Its version, what it wrote, and when it was committed.
    pub logged: Logged,
}

impl Drop for LoggedAt {
    fn drop(self) {
        let LoggedAt {
            place: _,
            logged: _,
        } = self;
    }
}

// A row with its place. The bytes are shared.
fn logged_with(row: &LogRow) -> Result<LoggedAt, AllocError>
    ensures logged { IfOk result (λ logged. logged ≡ logged_with row.now) }
{
    Ok(LoggedAt {
        place: row.edit.place.try_clone()?,
        logged: logged_of(row)?,
    })
}

// All rows, each with its place.
fn all_rows(alloc: Global, rows: &[LogRow]) -> Result<Vec<LoggedAt>, AllocError>
    ensures rows { IfOk result (λ logged. logged.items ≡ logged_all rows.now) }
{
    let mut logged = Vec::new(alloc);
    for row in rows {
        logged.push(logged_with(row)?)?;
    }
    Ok(logged)
}

impl<L: EditLog> NodeFile<L> {
    /// Returns all edits that stand in the log, in the order of places, and at each of versions: what was committed, and not
    /// compacted away. Reads and sorts the log. A refusal of the log leaves the node spent; where memory for the answer runs
    /// out, the log holds what it held.
    pub fn histories(&mut self, alloc: Global) -> Result<Vec<LoggedAt>, NodeFault>
        ensures spent { IsErrOf result NodeFault.Spent ↔ (self.old.is_spent ≡ true) }
        ensures rows { L.is_honest self.new.log
            → IfOk result
            (λ logged. IsPermutation (logged_all (L.held self.old.log)) logged.items) }
        ensures sorted { IfOk result (λ logged. IsSorted ⟦<LoggedAt as Ord>⟧.cmp logged.items) }
        ensures held { L.is_honest self.new.log
            → OnOk result (L.held self.new.log ≡ L.held self.old.log) }
        ensures peers { L.is_honest self.new.log
            → OnOk result (L.peers self.new.log ≡ L.peers self.old.log) }
        ensures refused { OnErr result ((self.new.is_spent ≡ true)
            ⊎ (L.is_honest self.new.log → L.held self.new.log ≡ L.held self.old.log)) }
        ensures crash { L.is_honest self.new.log
            → LeavesNothingNew (L.may_leave self.old.log) (L.may_leave self.new.log) }
        ensures replica { self.new.replica ≡ self.old.replica }
        ensures unsaved { self.new.unsaved ≡ self.old.unsaved }
        ensures head { L.head self.new.log ≡ L.head self.old.log }
    {
        if self.is_spent {
            return Err(NodeFault::Spent);
        }
        match self.log.read(alloc) {
            Ok(rows) => {
                let mut all = all_rows(alloc, &rows)?;
                all.sort()?;
                Ok(all)
            }
            Err(fault) => {
                self.is_spent = true;
                Err(NodeFault::from(fault))
            }
        }
    }
}
