//! Removing the files of a log.
ghost use Rattle.std.specs.Prelude.{◌≡◌, ◌++◌, codes, IfOk, string_bytes};

use edit_log::LogFault;
use std::alloc::{AllocError, Global};
use std::fs;
use std::io::ErrorKind;
use std::rt::Files;

// The name of the write-ahead log of a database file, which has what was committed last.
pub(crate) fn log_name(alloc: Global, path: &str) -> Result<String, AllocError>
    ensures name { IfOk result (λ name. string_bytes name ≡ path.now ++ codes "-wal") }
{
    format!(in alloc; "{path}-wal")
}

// Removes a file, if it is there.
fn remove_file(rt: &impl Files, path: &str) -> Result<(), LogFault> {
    match fs::remove_file(rt, path) {
        Ok(()) => Ok(()),
        Err(error) => match error.kind() {
            ErrorKind::NotFound => Ok(()),
            ErrorKind::OutOfMemory => Err(LogFault::Memory),
            _ => Err(LogFault::Disk),
        },
    }
}

/// Removes SQLite's write-ahead log beside the database file at a path, if it is there. A closed log needs nothing of it.
/// Fails with `Disk` if the disk or the folder refuses, and with `Memory`.
pub fn remove_write_ahead_log(rt: &(impl Files + AllocGlobal), path: &str) -> Result<(), LogFault> {
    let Ok(name) = log_name(rt.alloc(), path) else {
        return Err(LogFault::Memory);
    };
    remove_file(rt, name.as_str())
}

/// Removes the database file at a path and its write-ahead log, if they are there. Fails with `Disk` if the disk or the
/// folder refuses, and with `Memory`.
pub fn remove(rt: &(impl Files + AllocGlobal), path: &str) -> Result<(), LogFault> {
    remove_file(rt, path)?;
    remove_write_ahead_log(rt, path)
}
