//! A log in memory.
ghost use Rattle.std.specs.Prelude.{◌≡◌, ◌⊎◌, [], IfOk, None, ◌++◌};
ghost use Rattle.edit_log.specs.Logs.{stamped};
ghost use Rattle.edit_log.specs.Memory.{MayLeave, running_leaves};

use crate::logs::{EditLog, LogFault, LogHead, LogPeer, LogRow};
use edit_sums::Edit;
use std::alloc::{AllocError, Global};

/// A log in memory, for tests. It does as many steps as it is told: a step for each row that is written, one for each
/// commit, and one for each read; one for each call that notes or reads peers. The next step fails, and all later ones.
#[derive(Drop)]
pub struct MemoryLog {
    alloc: Global,
    head: LogHead,
    rows: Vec<LogRow>,
    peers: Vec<LogPeer>,
    // How many steps it does.
    steps: u64,
    // What was being added when it failed.
    failed: Option<Vec<LogRow>>,
    // The peers that were being noted when it failed.
    missed: Vec<LogPeer>,
}

impl MemoryLog {
    /// Makes a log with no rows and no peers, which does so many steps.
    pub fn new(alloc: Global, head: LogHead, steps: u64) -> MemoryLog
        ensures running { result.failed ≡ None }
        ensures empty { result.rows.items ≡ [] }
        ensures alone { result.peers.items ≡ [] }
        ensures head { result.head ≡ head }
    {
        MemoryLog {
            alloc,
            head,
            rows: Vec::new(alloc),
            peers: Vec::new(alloc),
            steps,
            failed: None,
            missed: Vec::new(alloc),
        }
    }

    /// Crashes, and is opened again: it holds its rows and peers and, if `whole`, those that were being added when it failed.
    /// It does so many steps. Fails only if memory runs out.
    pub fn after_crash(self, whole: bool, steps: u64) -> Result<MemoryLog, AllocError>
        ensures running { IfOk result (λ log. log.failed ≡ None) }
        ensures left { IfOk result (λ log. MayLeave self.rows.items self.failed log.rows.items) }
        ensures peers { IfOk result (λ log. (log.peers.items ≡ self.peers.items)
            ⊎ (log.peers.items ≡ self.peers.items ++ self.missed.items)) }
        ensures head { IfOk result (λ log. log.head ≡ self.head) }
    {
        let MemoryLog {
            alloc,
            head,
            rows,
            peers,
            steps: _,
            failed,
            missed,
        } = self;
        Ok(MemoryLog {
            alloc,
            head,
            rows: rows_left(rows, failed, whole)?,
            peers: peers_left(peers, missed, whole)?,
            steps,
            failed: None,
            missed: Vec::new(alloc),
        })
    }
}

// The rows that a crash leaves.
fn rows_left(
    mut rows: Vec<LogRow>,
    failed: Option<Vec<LogRow>>,
    whole: bool,
) -> Result<Vec<LogRow>, AllocError>
    ensures left { IfOk result (λ left. MayLeave rows.items failed left.items) }
{
    let Some(mut group) = failed else {
        return Ok(rows);
    };
    if whole {
        rows.append(&mut group)?;
    }
    Ok(rows)
}

// The peers that a crash leaves.
fn peers_left(
    mut peers: Vec<LogPeer>,
    mut missed: Vec<LogPeer>,
    whole: bool,
) -> Result<Vec<LogPeer>, AllocError>
    ensures left { IfOk result
        (λ left. (left.items ≡ peers.items) ⊎ (left.items ≡ peers.items ++ missed.items)) }
{
    if whole {
        peers.append(&mut missed)?;
    }
    Ok(peers)
}

// Copies of edits, each with this time.
fn stamp(alloc: Global, edits: &[Edit], time: u32) -> Result<Vec<LogRow>, AllocError>
    ensures rows { IfOk result (λ rows. rows.items ≡ stamped time edits.now) }
{
    let mut rows = Vec::new(alloc);
    for edit in edits {
        rows.push(LogRow {
            edit: edit.try_clone()?,
            time,
        })?;
    }
    Ok(rows)
}

// Copies of rows.
fn copies(alloc: Global, rows: &[LogRow]) -> Result<Vec<LogRow>, AllocError>
    ensures rows { IfOk result (λ copies. copies.items ≡ rows.now) }
{
    let mut copies = Vec::new(alloc);
    for row in rows {
        copies.push(row.try_clone()?)?;
    }
    Ok(copies)
}

impl EditLog for MemoryLog {
    ghost is_honest = { λ log. Unit {0} };

    ghost is_running = { λ log. log.failed ≡ None };

    ghost head = { λ log. log.head };

    ghost held = { λ log. log.rows.items };

    ghost peers = { λ log. log.peers.items };

    ghost may_leave = { λ log. MayLeave log.rows.items log.failed };

    ghost lasts = { λ log honest running left may.
        running_leaves log.rows.items log.failed left running may };

    fn head(&self) -> LogHead {
        self.head
    }

    fn append(&mut self, edits: &[Edit], time: u32) -> Result<(), LogFault> {
        let mut group = stamp(self.alloc, edits, time)?;
        let written = edits.len() as u64;
        if self.steps <= written {
            self.steps = 0;
            self.failed = Some(group);
            return Err(LogFault::Disk);
        }
        self.rows.append(&mut group)?;
        self.steps -= written + 1;
        Ok(())
    }

    fn read(&mut self, alloc: Global) -> Result<Vec<LogRow>, LogFault> {
        if self.steps == 0 {
            return Err(LogFault::Disk);
        }
        self.steps -= 1;
        Ok(copies(alloc, &self.rows)?)
    }

    fn note_peers(&mut self, met: &[LogPeer]) -> Result<(), LogFault> {
        let mut group = Vec::from_slice(self.alloc, met)?;
        if self.steps == 0 {
            self.failed = Some(Vec::new(self.alloc));
            self.missed = group;
            return Err(LogFault::Disk);
        }
        self.peers.append(&mut group)?;
        self.steps -= 1;
        Ok(())
    }

    fn peers(&mut self, alloc: Global) -> Result<Vec<LogPeer>, LogFault> {
        if self.steps == 0 {
            return Err(LogFault::Disk);
        }
        self.steps -= 1;
        Ok(Vec::from_slice(alloc, &self.peers)?)
    }
}
