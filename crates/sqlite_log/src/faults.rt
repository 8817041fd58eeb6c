//! Faults of the database, as a log's.
ghost use Rattle.std.specs.Prelude.{◌≡◌};

use edit_log::LogFault;
use sqlite::{Error, ErrorCode};

// A file that is no database, or has cells of another kind, is no log.
pub(crate) fn fault_of(error: Error) -> LogFault {
    match error {
        Error::SqliteFailure(ErrorCode::OutOfMemory) => LogFault::Memory,
        Error::SqliteFailure(ErrorCode::DatabaseBusy) => LogFault::Busy,
        Error::SqliteFailure(ErrorCode::NotADatabase) => LogFault::NotANode,
        Error::SqliteFailure(_) => LogFault::Disk,
        _ => LogFault::NotANode,
    }
}
