//! Commits.
ghost use Rattle.std.specs.Prelude.{◌≡◌, ◌⊎◌, ◌↔◌, ◌++◌, [], List, false, true, IsErrOf, IsPermutation, OnErr, OnOk};
ghost use Rattle.edit_sums.specs.Sums.{sum_of};
ghost use Rattle.edit_log.specs.declared.logs.LogRow.{LogRow};
ghost use Rattle.edit_log.specs.Logs.{edits_in, LeavesAllOrNone, LeavesJust, stamped};

use crate::faults::NodeFault;
use crate::nodes::NodeFile;
use edit_log::EditLog;

impl<L: EditLog> NodeFile<L> {
    /// Writes what the log lacks, with this time (in seconds since 1970), all in one transaction. Once it is answered Ok,
    /// the log comes to the replica's store, whatever crashes.
    ///
    /// A refused commit leaves the replica as it was, and the next open finds of what it wrote all or nothing: what it would
    /// have found before, or what comes to the replica's store (`found`). The node is then spent: it answers `Spent` to each
    /// further commit, and has to be opened anew.
    pub fn commit(&mut self, time: u32) -> Result<(), NodeFault>
        ensures spent { IsErrOf result NodeFault.Spent ↔ (self.old.is_spent ≡ true) }
        ensures held { L.is_honest self.new.log
            → OnOk result
            (IsPermutation (L.held self.old.log ++ stamped time self.old.unsaved)
            (L.held self.new.log)) }
        ensures peers { L.is_honest self.new.log
            → OnOk result (L.peers self.new.log ≡ L.peers self.old.log) }
        ensures sum { L.is_honest self.new.log
            → OnOk result (sum_of (edits_in (L.held self.new.log)) ≡ self.new.replica.store) }
        ensures lasts { L.is_honest self.new.log
            → OnOk result (LeavesJust (L.held self.new.log) (L.may_leave self.new.log)) }
        ensures saved { OnOk result (self.new.unsaved ≡ []) }
        ensures crash { L.is_honest self.new.log
            → LeavesAllOrNone (L.held self.old.log) (stamped time self.old.unsaved)
            (L.may_leave self.old.log) (L.may_leave self.new.log) }
        ensures found { L.is_honest self.new.log → (left : List LogRow)
            → L.may_leave self.new.log left
            → L.may_leave self.old.log left ⊎ (sum_of (edits_in left) ≡ self.new.replica.store) }
        ensures whole { OnOk result (self.new.is_spent ≡ false) }
        ensures refused { OnErr result (self.new.is_spent ≡ true) }
        ensures unwritten { OnErr result (self.new.unsaved ≡ self.old.unsaved) }
        ensures replica { self.new.replica ≡ self.old.replica }
        ensures head { L.head self.new.log ≡ L.head self.old.log }
        ensures honest { L.is_honest self.new.log → L.is_honest self.old.log }
    {
        if self.is_spent {
            return Err(NodeFault::Spent);
        }
        match self.log.append(&self.unsaved, time) {
            Ok(()) => {
                self.unsaved.clear();
                Ok(())
            }
            Err(fault) => {
                self.is_spent = true;
                Err(NodeFault::from(fault))
            }
        }
    }
}
