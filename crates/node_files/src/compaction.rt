//! Compaction of the file at a path.
ghost use Rattle.std.specs.Prelude.{◌≡◌, ◌++◌, codes, IfOk, IsPermutation, string_bytes};
ghost use Rattle.sqlite.specs.Files.{file_state};
ghost use Rattle.sqlite.specs.State.{HasCleanDisk};
ghost use Rattle.sqlite.specs.WalReads.{AreClean};
ghost use Rattle.edit_sums.specs.Sums.{edits_of, sum_of};
ghost use Rattle.edit_log.specs.Logs.{edits_in, stamped};
ghost use Rattle.sqlite_log.specs.Closed.{HoldsLog};
ghost use Rattle.sqlite_log.specs.States.{held_in, peers_in, Stands};
ghost use Rattle.node_files.specs.Compacted.{Compacts};

use crate::names::{beside_name, fault_of, or_removed};
use crate::opening::{PathLog, PathNode, open};
use durable_node::{EditLog, LogPeer, NodeFault, NodeFile};
use sqlite::{FileFrom, Files, Start};
use sqlite_disk::Disk;
use std::fs::{self, OpenFile};
use std::io::ErrorKind;
use std::os::unix::fs::{MetadataExt, chown};
use std::path::{Path, PathBuf};
use std::{io, rt};

/// The files of a node, and those that are to take their place, all closed. No other process opens them until they are
/// dropped.
#[derive(Drop)]
pub struct Compacted<S: Start, T: Start> {
    /// The name of the node's file.
    pub(crate) path: String,
    /// The name of the new file.
    pub(crate) beside: String,
    pub(crate) old: Files<FileFrom<S>>,
    pub(crate) fresh: Files<FileFrom<T>>,
}

// Makes a log at a path that holds each entry of a node once, and these peers, under the node's head.
fn make_compacted<L: EditLog, T: Start>(
    rt: &HostRuntime,
    node: &NodeFile<L>,
    peers: &[LogPeer],
    path: &str,
    time: u32,
    start: T,
) -> Result<PathLog<T>, NodeFault>
    ensures running { IfOk result (λ log. Stands log.inside.head (file_state log.inside.conn)) }
    ensures head { IfOk result (λ log. log.inside.head ≡ L.head node.now.log) }
    ensures once { IfOk result
        (λ log. HasCleanDisk (file_state log.inside.conn)
        → IsPermutation (stamped time (edits_of node.now.replica.store))
        (held_in (file_state log.inside.conn).committed.trees)) }
    ensures sum { IfOk result
        (λ log. HasCleanDisk (file_state log.inside.conn)
        → sum_of (edits_in (held_in (file_state log.inside.conn).committed.trees))
        ≡ node.now.replica.store) }
    ensures peers { IfOk result (λ log. HasCleanDisk (file_state log.inside.conn)
        → IsPermutation peers.now (peers_in (file_state log.inside.conn).committed.trees)) }
{
    let mut log = sqlite_log::create(rt, path, node.head(), start)?;
    node.compact_into(&mut log, time, peers)?;
    Ok(log)
}

// Closes the file of a node, so that it needs nothing beside it.
fn close<S: Start>(node: PathNode<S>) -> Result<Files<FileFrom<S>>, NodeFault>
    requires running { Stands node.log.inside.head (file_state node.log.inside.conn) }
    ensures alone { IfOk result
        (λ files. AreClean ⟦<FileFrom<S> as Disk>⟧ files.log files.db
        → HoldsLog ⟦<FileFrom<S> as Disk>⟧ files node.log.inside.head
        (held_in (file_state node.log.inside.conn).committed.trees)
        (peers_in (file_state node.log.inside.conn).committed.trees)) }
    ensures clean { IfOk result (λ files. AreClean ⟦<FileFrom<S> as Disk>⟧ files.log files.db
        → HasCleanDisk (file_state node.log.inside.conn)) }
{
    let log = node.into_log();
    let files = log.close()?;
    Ok(files)
}

// Makes the compacted file of a node at a path, and closes both.
fn close_both<S: Start, T: Start>(
    rt: &HostRuntime,
    mut node: PathNode<S>,
    path: &str,
    time: u32,
    start: T,
) -> Result<(Files<FileFrom<S>>, Files<FileFrom<T>>), NodeFault>
    requires running { Stands node.log.inside.head (file_state node.log.inside.conn) }
    requires sum { HasCleanDisk (file_state node.log.inside.conn) → node.replica.store
        ≡ sum_of (edits_in (held_in (file_state node.log.inside.conn).committed.trees)) }
    ensures alike { IfOk result
        (λ both. Compacts ⟦<FileFrom<S> as Disk>⟧ ⟦<FileFrom<T> as Disk>⟧ time both.0 both.1) }
{
    let peers = node.peers(rt.alloc())?;
    let log = make_compacted(rt, &node, &peers, path, time, start)?;
    let fresh = log.close()?;
    let old = close(node)?;
    Ok((old, fresh))
}

/// Makes a file beside the one of the node at a path, under a name that ends in `.compact`, which holds each entry of the node
/// once, removals too, with this time, and each node that it knows once, as it was seen last, under the same head; and copies
/// what stands beside both database files into them. What an earlier call left there is removed first.
///
/// Fails as `open` does, and with `Disk` if the disk refuses. Then the node's file holds what it held, and nothing is left
/// beside it if the disk lets that be removed.
pub fn prepare<S: Start, T: Start>(
    rt: &HostRuntime,
    path: &str,
    time: u32,
    start: S,
    fresh_start: T,
) -> Result<Compacted<S, T>, NodeFault>
    ensures path { IfOk result (λ both. string_bytes both.path ≡ path.now) }
    ensures fresh_name { IfOk result
        (λ both. string_bytes both.beside ≡ path.now ++ codes ".compact") }
    ensures alike { IfOk result
        (λ both.
        Compacts ⟦<FileFrom<S> as Disk>⟧ ⟦<FileFrom<T> as Disk>⟧ time both.old both.fresh) }
{
    let name = String::from_str(rt.alloc(), path)?;
    let beside = beside_name(rt.alloc(), path)?;
    let node = open(rt, path, start)?;
    sqlite_log::remove(rt, beside.as_str())?;
    let made = close_both(rt, node, beside.as_str(), time, fresh_start);
    let (old, fresh) = or_removed(rt, beside.as_str(), made)?;
    Ok(Compacted {
        path: name,
        beside,
        old,
        fresh,
    })
}

// Does nothing if a change of owner isn't permitted.
fn unless_denied(outcome: io::Result<()>) -> io::Result<()> {
    match outcome {
        Ok(()) => Ok(()),
        Err(error) => match error.kind() {
            ErrorKind::PermissionDenied => Ok(()),
            _ => Err(error),
        },
    }
}

// Gives a file the owner and the access rights of another, as far as this process may.
fn copy_access(rt: &impl rt::Files, from: &str, to: &str) -> io::Result<()> {
    let found = fs::metadata(rt, from)?;
    unless_denied(chown(rt, to, None, Some(found.gid())))?;
    unless_denied(chown(rt, to, Some(found.uid()), None))?;
    fs::set_permissions(rt, to, found.permissions())
}

// Syncs the folder of a path, so that its names stand after a crash.
fn sync_folder<R: rt::Files>(rt: &R, path: &str) -> io::Result<()>
where
    R::File: Drop,
{
    match Path::new(path).parent() {
        Some(folder) => fs::open(rt, folder)?.sync_all(),
        None => Ok(()),
    }
}

// Renames a file over another. Before and after it the folder is synced.
fn rename_over<R: rt::Files>(rt: &R, from: &str, to: &str) -> io::Result<()>
where
    R::File: Drop,
{
    copy_access(rt, to, from)?;
    sync_folder(rt, to)?;
    fs::rename(rt, from, to)?;
    sync_folder(rt, to)
}

// Renames a closed file over another. What stands beside both is removed first, for they hold all by themselves.
fn put_over<R: rt::Files + AllocGlobal>(rt: &R, from: &str, to: &str) -> Result<(), NodeFault>
where
    R::File: Drop,
{
    sqlite_log::remove_write_ahead_log(rt, from)?;
    sqlite_log::remove_write_ahead_log(rt, to)?;
    match rename_over(rt, from, to) {
        Ok(()) => Ok(()),
        Err(error) => Err(fault_of(error)),
    }
}

impl<S: Start, T: Start> Compacted<S, T> {
    /// Renames the new file over the node's.
    ///
    /// A crash, or `Disk`, leaves the old file or the new one under the node's name, which have one sum; either opens. After
    /// `Disk` nothing else is left, if the disk lets it be removed.
    pub fn replace<R: rt::Files + AllocGlobal>(self, rt: &R) -> Result<(), NodeFault>
    where
        R::File: Drop,
    {
        let beside = self.beside.as_str();
        or_removed(rt, beside, put_over(rt, beside, self.path.as_str()))
    }
}

// The name of a file with no link in it. `NotANode` if nothing is there.
fn real_name<R: rt::Files + AllocGlobal>(rt: &R, path: &str) -> Result<PathBuf, NodeFault> {
    match fs::canonicalize(rt, path) {
        Ok(real) => Ok(real),
        Err(error) => match error.kind() {
            ErrorKind::NotFound => Err(NodeFault::NotANode),
            _ => Err(fault_of(error)),
        },
    }
}

/// Replaces the file of the node at a path by one that holds each place's entry once, removals too, each with this time: what
/// was overwritten is forgotten. Its head, its sum and the nodes that it knows stay. The new file is made beside it, under a name that ends in
/// `.compact`, and needs as much room as the entries. An open by another process at the very moment of the rename may find the
/// old file, whose name is gone: let none run.
///
/// Fails as `open` does, and with `Disk` if the disk or the folder refuses. Then the file at the path, the old one or the new
/// one, holds the same sum, and nothing is left beside it if the disk lets that be removed. The first holds of each crash too.
pub fn compact<S: Start, T: Start>(
    rt: &HostRuntime,
    path: &str,
    time: u32,
    start: S,
    fresh_start: T,
) -> Result<(), NodeFault> {
    let real = real_name(rt, path)?;
    let both = prepare(rt, real.as_str(), time, start, fresh_start)?;
    both.replace(rt)
}
