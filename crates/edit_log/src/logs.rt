//! Logs, and their rows.
ghost use Rattle.std.specs.Prelude.{◌++◌, ◌≡◌, ◌<◌, ◌^◌, [], IfOk, IsPermutation, List, OnOk};
ghost use Rattle.edit_sums.specs.Sums.{high_among};
ghost use Rattle.edit_log.specs.declared.logs.{LogHead.{LogHead}, LogFault.TheVariants.{Memory}};
ghost use Rattle.edit_log.specs.declared.logs.{LogPeer.{LogPeer}, LogRow.{LogRow}};
ghost use Rattle.edit_log.specs.Logs.{LeavesAllOrNone, LeavesJust, LeavesNothingNew, stamped};

use edit_sums::Edit;
use std::alloc::{AllocError, Global};
use thiserror::Error;

/// What a log says of itself from its first day on.
#[derive(Clone, Copy, Debug, PartialEq, Eq)]
pub struct LogHead {
    /// The number of its format.
    pub format: u32,
    /// The number under which its node writes.
    pub writer: u32,
    /// Random bytes, which tell this log from each other one.
    pub mark: [u8; 16],
}

/// An edit as a log holds it.
#[derive(Debug)]
pub struct LogRow {
    /// The edit.
    pub edit: Edit,
    /// When it was committed, in seconds since 1970.
    pub time: u32,
}

impl Drop for LogRow {
    fn drop(self) {
        let LogRow { edit: _, time: _ } = self;
    }
}

impl LogRow {
    /// Takes the row apart.
    pub fn into_parts(self) -> (Edit, u32)
        ensures edit { result.0 ≡ self.edit }
        ensures time { result.1 ≡ self.time }
    {
        let LogRow { edit, time } = self;
        (edit, time)
    }

    /// Returns an equal row, which shares the edit's bytes. Fails only if memory runs out.
    pub fn try_clone(&self) -> Result<LogRow, AllocError>
        ensures copy { IfOk result (λ copy. copy ≡ self.now) }
    {
        Ok(LogRow {
            edit: self.edit.try_clone()?,
            time: self.time,
        })
    }
}

/// A node that this one has met or was told of, as a log holds it.
#[derive(Clone, Copy, Debug, PartialEq, Eq, PartialOrd, Ord)]
pub struct LogPeer {
    /// The mark of its log.
    pub mark: [u8; 16],
    /// The number under which it writes.
    pub writer: u32,
    /// When it was last met, in seconds since 1970; 0 if it was only told of.
    pub seen: u32,
}

/// Why a log was not made, opened, read or appended to.
#[derive(Clone, Copy, Debug, PartialEq, Eq, Error)]
pub enum LogFault {
    /// Z1: there is a file already.
    #[error("Z1 Exists")]
    Exists,
    /// Z2: this is no log of edits.
    #[error("Z2 NotANode")]
    NotANode,
    /// Z4: another process has it open.
    #[error("Z4 Busy")]
    Busy,
    /// Z5: the disk refused or failed.
    #[error("Z5 Disk")]
    Disk,
    /// Memory ran out.
    #[error("out of memory")]
    Memory,
}

impl From<AllocError> for LogFault {
    ghost from_gives = { λ _ fault. fault ≡ Memory };

    fn from(_: AllocError) -> LogFault {
        LogFault::Memory
    }
}

/// A log of edits, and of the peers that its node knows. Its edits have counters below 2^63.
///
/// A call that fails may have been cut off at any moment. So what a call says for a failure it also says of a crash
/// within it, which is a call whose disk does nothing from some moment on.
pub trait EditLog {
    /// The files were honest so far: each read gave back what was written, and nothing else wrote them.
    ghost is_honest: { Self → Type 0 };

    /// It may be read and appended to.
    ghost is_running: { Self → Type 0 };

    /// What it says of itself.
    ghost head: { Self → LogHead };

    /// The rows that stand in it, in some order.
    ghost held: { Self → List LogRow };

    /// The peers that are noted in it, in some order.
    ghost peers: { Self → List LogPeer };

    /// The rows that the next open may find after a crash at this moment.
    ghost may_leave: { Self → List LogRow → Type 0 };

    /// Returns what it says of itself.
    fn head(&self) -> LogHead
        ensures head { result ≡ head self.now };

    /// Appends edits, all in one transaction, each with this time.
    ///
    /// After an error it isn't known which of its rows stand; a crash, and so the next open, leaves what it could leave
    /// before, or the rows with all of these.
    fn append(&mut self, edits: &[Edit], time: u32) -> Result<(), LogFault>
        requires running { is_running self.old }
        requires counters { high_among edits.now < 2 ^ 63 }
        ensures held { is_honest self.new
            → OnOk result
            (IsPermutation (held self.old ++ stamped time edits.now) (held self.new)) }
        ensures peers { is_honest self.new → OnOk result (peers self.new ≡ peers self.old) }
        ensures crash { is_honest self.new
            → LeavesAllOrNone (held self.old) (stamped time edits.now) (may_leave self.old)
            (may_leave self.new) }
        ensures running { OnOk result (is_running self.new) }
        ensures head { head self.new ≡ head self.old }
        ensures honest { is_honest self.new → is_honest self.old };

    /// Returns all rows, in some order. A crash leaves what it could leave before.
    fn read(&mut self, alloc: Global) -> Result<Vec<LogRow>, LogFault>
        requires running { is_running self.old }
        ensures rows { is_honest self.new
            → IfOk result (λ rows. IsPermutation (held self.old) rows.items) }
        ensures held { is_honest self.new → OnOk result (held self.new ≡ held self.old) }
        ensures peers { is_honest self.new → OnOk result (peers self.new ≡ peers self.old) }
        ensures crash { is_honest self.new
            → LeavesNothingNew (may_leave self.old) (may_leave self.new) }
        ensures running { OnOk result (is_running self.new) }
        ensures head { head self.new ≡ head self.old }
        ensures honest { is_honest self.new → is_honest self.old };

    /// Notes peers, all in one transaction, beside those that are noted.
    ///
    /// After an error it isn't known whether they are; of the edits a crash leaves what it could leave before, or just those
    /// that it held.
    fn note_peers(&mut self, met: &[LogPeer]) -> Result<(), LogFault>
        requires running { is_running self.old }
        ensures noted { is_honest self.new
            → OnOk result (IsPermutation (peers self.old ++ met.now) (peers self.new)) }
        ensures held { is_honest self.new → OnOk result (held self.new ≡ held self.old) }
        ensures crash { is_honest self.new
            → LeavesAllOrNone (held self.old) [] (may_leave self.old) (may_leave self.new) }
        ensures running { OnOk result (is_running self.new) }
        ensures head { head self.new ≡ head self.old }
        ensures honest { is_honest self.new → is_honest self.old };

    /// Returns all peers that are noted, in some order. A crash leaves what it could leave before.
    fn peers(&mut self, alloc: Global) -> Result<Vec<LogPeer>, LogFault>
        requires running { is_running self.old }
        ensures all { is_honest self.new
            → IfOk result (λ all. IsPermutation (peers self.old) all.items) }
        ensures peers { is_honest self.new → OnOk result (peers self.new ≡ peers self.old) }
        ensures held { is_honest self.new → OnOk result (held self.new ≡ held self.old) }
        ensures crash { is_honest self.new
            → LeavesNothingNew (may_leave self.old) (may_leave self.new) }
        ensures running { OnOk result (is_running self.new) }
        ensures head { head self.new ≡ head self.old }
        ensures honest { is_honest self.new → is_honest self.old };

    /// While it runs, a crash leaves the rows that stand in it and no others.
    ghost lasts: { (log : Self) → is_honest log → is_running log
        → LeavesJust (held log) (may_leave log) };
}
