//! Histories of places.
ghost use Rattle.std.specs.Prelude.{◌≡◌, ◌↔◌, ◌⊎◌, true, IfOk, IsErrOf, IsPermutation, IsSorted, OnErr, OnOk};
ghost use Rattle.edit_log.specs.Logs.{LeavesNothingNew};
ghost use Rattle.durable_node.specs.Histories.{logged_at, logged_of};

use crate::faults::NodeFault;
use crate::nodes::NodeFile;
use edit_log::{EditLog, LogRow};
use edit_sums::Content;
use join_law::Version;
use load_places::Place;
use std::alloc::{AllocError, Global};

/// An edit of a place's history.
#[derive(Debug, PartialEq, Eq, PartialOrd, Ord)]
pub struct Logged {
    /// Its version.
    pub version: Version,
    /// What it wrote.
    pub content: Content,
    /// When it was committed, in seconds since 1970.
    pub time: u32,
}

impl Drop for Logged {
    fn drop(self) {
        let Logged {
            version: _,
            content: _,
            time: _,
        } = self;
    }
}

// A row without its place. The content's bytes are shared.
pub(crate) fn logged_of(row: &LogRow) -> Result<Logged, AllocError>
    ensures logged { IfOk result (λ logged. logged ≡ logged_of row.now) }
{
    Ok(Logged {
        version: row.edit.version,
        content: row.edit.content.try_clone()?,
        time: row.time,
    })
}

// The rows of a place, without the place.
fn rows_at(alloc: Global, rows: &[LogRow], place: &Place) -> Result<Vec<Logged>, AllocError>
    ensures rows { IfOk result (λ logged. logged.items ≡ logged_at place.now rows.now) }
{
    let mut logged = Vec::new(alloc);
    for row in rows {
        if row.edit.place.cmp(place).is_eq() {
            logged.push(logged_of(row)?)?;
        }
    }
    Ok(logged)
}

impl<L: EditLog> NodeFile<L> {
    /// Returns the edits of a place that stand in the log, in the order of their versions: what was committed, and not
    /// compacted away. Linear in the log. A refusal of the log leaves the node spent; where memory for the answer runs out,
    /// the log holds what it held.
    pub fn history(&mut self, alloc: Global, place: &Place) -> Result<Vec<Logged>, NodeFault>
        ensures spent { IsErrOf result NodeFault.Spent ↔ (self.old.is_spent ≡ true) }
        ensures rows { L.is_honest self.new.log
            → IfOk result
            (λ logged. IsPermutation (logged_at place.now (L.held self.old.log)) logged.items) }
        ensures sorted { IfOk result (λ logged. IsSorted ⟦<Logged as Ord>⟧.cmp logged.items) }
        ensures held { L.is_honest self.new.log
            → OnOk result (L.held self.new.log ≡ L.held self.old.log) }
        ensures peers { L.is_honest self.new.log
            → OnOk result (L.peers self.new.log ≡ L.peers self.old.log) }
        ensures refused { OnErr result ((self.new.is_spent ≡ true)
            ⊎ (L.is_honest self.new.log → L.held self.new.log ≡ L.held self.old.log)) }
        ensures crash { L.is_honest self.new.log
            → LeavesNothingNew (L.may_leave self.old.log) (L.may_leave self.new.log) }
        ensures replica { self.new.replica ≡ self.old.replica }
        ensures unsaved { self.new.unsaved ≡ self.old.unsaved }
        ensures head { L.head self.new.log ≡ L.head self.old.log }
    {
        if self.is_spent {
            return Err(NodeFault::Spent);
        }
        match self.log.read(alloc) {
            Ok(rows) => {
                let mut logged = rows_at(alloc, &rows, place)?;
                logged.sort()?;
                Ok(logged)
            }
            Err(fault) => {
                self.is_spent = true;
                Err(NodeFault::from(fault))
            }
        }
    }
}
