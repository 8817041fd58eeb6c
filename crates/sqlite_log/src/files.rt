//! Making and opening a log at a path.
ghost use Rattle.std.specs.Prelude.{◌≡◌, [], IfOk};
ghost use Rattle.sqlite.specs.WalFiles.{image_at};
ghost use Rattle.sqlite.specs.Files.{file_state, IsOpened};
ghost use Rattle.sqlite.specs.Start.{FindsIn};
ghost use Rattle.sqlite.specs.State.{HasCleanDisk};
ghost use Rattle.sqlite_log.specs.Found.{FindsLog};
ghost use Rattle.sqlite_log.specs.States.{held_in, peers_in, Stands};

use crate::faults::fault_of;
use crate::file_logs::FileLog;
use crate::removing::{log_name, remove};
use edit_log::{LogFault, LogHead};
use sqlite::{Connection, FileFrom, FileStore, Start};
use std::fs::{self, File};
use std::io::{self, ErrorKind};

// Makes an empty file. `Exists` if there is one.
fn make_file(rt: &HostRuntime, path: &str) -> Result<(), LogFault> {
    match File::create_new(rt, path) {
        Ok(_) => Ok(()),
        Err(error) => match error.kind() {
            ErrorKind::AlreadyExists => Err(LogFault::Exists),
            ErrorKind::OutOfMemory => Err(LogFault::Memory),
            _ => Err(LogFault::Disk),
        },
    }
}

// Returns whether a file is empty, with no log of SQLite's beside it: an open would make a database of it.
fn is_blank(rt: &HostRuntime, path: &str) -> io::Result<bool> {
    if fs::metadata(rt, path)?.len() > 0 {
        return Ok(false);
    }
    let log = log_name(rt.alloc(), path)?;
    Ok(!fs::exists(rt, log.as_str())?)
}

// Looks whether there is a file that isn't empty. `NotANode` if there is none.
fn find_file(rt: &HostRuntime, path: &str) -> Result<(), LogFault> {
    match is_blank(rt, path) {
        Ok(false) => Ok(()),
        Ok(true) => Err(LogFault::NotANode),
        Err(error) => match error.kind() {
            ErrorKind::NotFound => Err(LogFault::NotANode),
            ErrorKind::OutOfMemory => Err(LogFault::Memory),
            _ => Err(LogFault::Disk),
        },
    }
}

// The connection to a file that is there.
fn connect<S: Start>(
    rt: &HostRuntime,
    path: &str,
    start: S,
) -> Result<Connection<FileStore<FileFrom<S>>>, LogFault>
    ensures opened { IfOk result (λ c. HasCleanDisk (file_state c) → IsOpened c) }
    ensures found { IfOk result
        (λ c. HasCleanDisk (file_state c) → FindsIn (image_at S.Start) (file_state c)) }
{
    match Connection::open_from(rt, path, false, start) {
        Ok(conn) => Ok(conn),
        Err((error, _)) => Err(fault_of(error)),
    }
}

/// Opens the log at a path. `NotANode` if no log is there, `Busy` if another process has it open, and `Disk` if the disk
/// refuses. `start` says what is taken for granted of what the last crash left of the files.
pub fn open<S: Start>(
    rt: &HostRuntime,
    path: &str,
    start: S,
) -> Result<FileLog<FileFrom<S>>, LogFault>
    ensures log { IfOk result (λ log. Stands log.inside.head (file_state log.inside.conn)) }
    ensures found { IfOk result (λ log. HasCleanDisk (file_state log.inside.conn)
        → FindsLog (image_at S.Start) log.inside.conn) }
{
    find_file(rt, path)?;
    let conn = connect(rt, path, start)?;
    let log = FileLog::find(rt.alloc(), conn)?;
    Ok(log)
}

// Makes a log with this head, no edits and no peers in a file that was just made.
fn make_in<S: Start>(
    rt: &HostRuntime,
    path: &str,
    head: LogHead,
    start: S,
) -> Result<FileLog<FileFrom<S>>, LogFault>
    ensures log { IfOk result (λ log. Stands log.inside.head (file_state log.inside.conn)) }
    ensures head { IfOk result (λ log. log.inside.head ≡ head) }
    ensures empty { IfOk result (λ log. HasCleanDisk (file_state log.inside.conn)
        → held_in (file_state log.inside.conn).committed.trees ≡ []) }
    ensures alone { IfOk result (λ log. HasCleanDisk (file_state log.inside.conn)
        → peers_in (file_state log.inside.conn).committed.trees ≡ []) }
{
    let conn = connect(rt, path, start)?;
    FileLog::make(rt.alloc(), conn, head)
}

/// Makes a log with this head, no edits and no peers at a path. `Exists` if a file is there, which stays as it is. With `Disk` and
/// `Memory` nothing is left at the path, if the disk lets it be removed. A crash leaves a log that has this head, no edits and no
/// peers, or a file that no open takes for a log.
pub fn create<S: Start>(
    rt: &HostRuntime,
    path: &str,
    head: LogHead,
    start: S,
) -> Result<FileLog<FileFrom<S>>, LogFault>
    ensures log { IfOk result (λ log. Stands log.inside.head (file_state log.inside.conn)) }
    ensures head { IfOk result (λ log. log.inside.head ≡ head) }
    ensures empty { IfOk result (λ log. HasCleanDisk (file_state log.inside.conn)
        → held_in (file_state log.inside.conn).committed.trees ≡ []) }
    ensures alone { IfOk result (λ log. HasCleanDisk (file_state log.inside.conn)
        → peers_in (file_state log.inside.conn).committed.trees ≡ []) }
{
    make_file(rt, path)?;
    match make_in(rt, path, head, start) {
        Ok(log) => Ok(log),
        Err(fault) => {
            if fault != LogFault::Busy {
                let _ = remove(rt, path);
            }
            Err(fault)
        }
    }
}
