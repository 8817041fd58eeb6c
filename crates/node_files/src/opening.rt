//! Making and opening a node at a path.
ghost use Rattle.std.specs.Prelude.{◌≡◌, [], false, IfOk};
ghost use Rattle.std.specs.FinMap as finmap;
ghost use Rattle.sqlite.specs.Files.{file_state};
ghost use Rattle.sqlite.specs.State.{HasCleanDisk};
ghost use Rattle.sqlite.specs.WalFiles.{image_at};
ghost use Rattle.edit_sums.specs.Sums.{sum_of};
ghost use Rattle.edit_log.specs.Logs.{edits_in};
ghost use Rattle.sqlite_log.specs.States.{held_in, peers_in, Stands};
ghost use Rattle.node_files.specs.Found.{FindsHeld};

use crate::names::or_removed;
use durable_node::{FORMAT, LogHead, NodeFault, NodeFile};
use sqlite::{FileFrom, Start};
use sqlite_log::FileLog;
use std::random::RandomSource;

/// The log in the file at a path.
pub type PathLog<S> = FileLog<FileFrom<S>>;

/// A node whose log is the file at a path.
pub type PathNode<S> = NodeFile<PathLog<S>>;

// The head of a new log for a writer, with a mark of its own. `Disk` if the system gives no random bytes.
fn new_head(rt: &impl RandomSource, writer: u32) -> Result<LogHead, NodeFault>
    ensures format { IfOk result (λ head. head.format ≡ FORMAT) }
    ensures writer { IfOk result (λ head. head.writer ≡ writer) }
{
    let mut mark = [0; 16];
    match rt.fill_bytes(&mut mark) {
        Ok(()) => Ok(LogHead {
            format: FORMAT,
            writer,
            mark,
        }),
        Err(_) => Err(NodeFault::Disk),
    }
}

/// Makes a file at a path for a writer number, and opens it: a node that holds nothing and knows none, with a mark of its own.
/// No other process opens it until the node is dropped. A writer number belongs to one file alone.
///
/// Fails with `Exists` if something is there, which stays as it is; with `Disk` if the disk or the folder refuses; and with
/// `Memory`. After the last two nothing is left at the path, if the disk lets it be removed. A crash meanwhile may leave a file
/// that no `open` takes for a node.
pub fn create<S: Start>(
    rt: &HostRuntime,
    path: &str,
    writer: u32,
    start: S,
) -> Result<PathNode<S>, NodeFault>
    ensures writer { IfOk result (λ node. node.replica.writer ≡ writer) }
    ensures empty { IfOk result (λ node. HasCleanDisk (file_state node.log.inside.conn)
        → node.replica.store ≡ finmap.empty) }
    ensures held { IfOk result (λ node. HasCleanDisk (file_state node.log.inside.conn)
        → held_in (file_state node.log.inside.conn).committed.trees ≡ []) }
    ensures alone { IfOk result (λ node. HasCleanDisk (file_state node.log.inside.conn)
        → peers_in (file_state node.log.inside.conn).committed.trees ≡ []) }
    ensures format { IfOk result (λ node. node.log.inside.head.format ≡ FORMAT) }
    ensures log_writer { IfOk result (λ node. node.log.inside.head.writer ≡ writer) }
    ensures saved { IfOk result (λ node. node.unsaved ≡ []) }
    ensures whole { IfOk result (λ node. node.is_spent ≡ false) }
{
    let head = new_head(rt, writer)?;
    let log = sqlite_log::create(rt, path, head, start)?;
    or_removed(rt, path, NodeFile::open(rt.alloc(), log))
}

/// Opens the node at a path: its replica holds the sum of what the file holds, under the file's writer number. No other
/// process opens the file until the node is dropped. Reads the whole file.
///
/// Fails with `NotANode` if no file of a node is there, with `Format` if it is one of another format, with `Busy` if another
/// process has it open, with `Disk` if the disk refuses or the file is damaged, and with `Memory`. Then the file holds what
/// it held.
pub fn open<S: Start>(rt: &HostRuntime, path: &str, start: S) -> Result<PathNode<S>, NodeFault>
    ensures writer { IfOk result (λ node. node.replica.writer ≡ node.log.inside.head.writer) }
    ensures format { IfOk result (λ node. node.log.inside.head.format ≡ FORMAT) }
    ensures sum { IfOk result
        (λ node. HasCleanDisk (file_state node.log.inside.conn) → node.replica.store
        ≡ sum_of (edits_in (held_in (file_state node.log.inside.conn).committed.trees))) }
    ensures found { IfOk result (λ node. HasCleanDisk (file_state node.log.inside.conn)
        → FindsHeld (image_at S.Start) node.log.inside.conn) }
    ensures running { IfOk result
        (λ node. Stands node.log.inside.head (file_state node.log.inside.conn)) }
    ensures saved { IfOk result (λ node. node.unsaved ≡ []) }
    ensures whole { IfOk result (λ node. node.is_spent ≡ false) }
{
    let log = sqlite_log::open(rt, path, start)?;
    let node = NodeFile::open(rt.alloc(), log)?;
    Ok(node)
}
