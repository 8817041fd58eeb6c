//! Making the tables of a log.
ghost use Rattle.std.specs.Prelude.{◌≡◌, [], ◌∷◌, OnOk};
ghost use Rattle.sqlite.specs.Held.{state};
ghost use Rattle.sqlite.specs.State.{HasCleanDisk, Opens};
ghost use Rattle.sqlite_log.specs.States.{HasSchema, IsLog, heads_of, held_in, log_of, peers_in, peers_of, Stands};
ghost use Rattle.sqlite_log.specs.Tables.{edit_schema, meta_schema, no_schema};

use crate::faults::fault_of;
use crate::schemas::is_blank;
use crate::values::{blob, number};
use edit_log::{LogFault, LogHead};
use sqlite::{Alter, Connection, Error};

// Makes the table of edits in an empty database.
fn make_edit_table<S: Alter>(conn: &mut Connection<S>) -> Result<usize, Error>
    requires blank { HasCleanDisk (state S.Store conn.old)
        → HasSchema no_schema (state S.Store conn.old) }
    ensures made { HasCleanDisk (state S.Store conn.new)
        → OnOk result (HasSchema edit_schema (state S.Store conn.new)) }
    ensures empty { HasCleanDisk (state S.Store conn.new)
        → OnOk result (log_of (state S.Store conn.new) ≡ []) }
    ensures clean { HasCleanDisk (state S.Store conn.new) → HasCleanDisk (state S.Store conn.old) }
{
    conn.execute(
        "CREATE TABLE edit (id INTEGER PRIMARY KEY, place TEXT NOT NULL, counter INTEGER NOT NULL, writer INTEGER NOT NULL, kind INTEGER NOT NULL, content BLOB NOT NULL, time INTEGER NOT NULL) STRICT",
        &[],
    )
}

// Makes the table of the head beside that of the edits.
fn make_meta_table<S: Alter>(conn: &mut Connection<S>) -> Result<usize, Error>
    requires edits { HasCleanDisk (state S.Store conn.old)
        → HasSchema edit_schema (state S.Store conn.old) }
    ensures made { HasCleanDisk (state S.Store conn.new)
        → OnOk result (HasSchema meta_schema (state S.Store conn.new)) }
    ensures empty { HasCleanDisk (state S.Store conn.new)
        → OnOk result (heads_of (state S.Store conn.new) ≡ []) }
    ensures edits { HasCleanDisk (state S.Store conn.new)
        → OnOk result (log_of (state S.Store conn.new) ≡ log_of (state S.Store conn.old)) }
    ensures clean { HasCleanDisk (state S.Store conn.new) → HasCleanDisk (state S.Store conn.old) }
{
    conn.execute(
        "CREATE TABLE meta (id INTEGER PRIMARY KEY, format INTEGER NOT NULL, writer INTEGER NOT NULL, mark BLOB NOT NULL) STRICT",
        &[],
    )
}

// Makes the table of peers beside the other two.
fn make_peer_table<S: Alter>(conn: &mut Connection<S>) -> Result<usize, Error>
    requires both { HasCleanDisk (state S.Store conn.old)
        → HasSchema meta_schema (state S.Store conn.old) }
    ensures made { HasCleanDisk (state S.Store conn.new)
        → OnOk result (IsLog (state S.Store conn.new)) }
    ensures alone { HasCleanDisk (state S.Store conn.new)
        → OnOk result (peers_of (state S.Store conn.new) ≡ []) }
    ensures heads { HasCleanDisk (state S.Store conn.new)
        → OnOk result (heads_of (state S.Store conn.new) ≡ heads_of (state S.Store conn.old)) }
    ensures edits { HasCleanDisk (state S.Store conn.new)
        → OnOk result (log_of (state S.Store conn.new) ≡ log_of (state S.Store conn.old)) }
    ensures clean { HasCleanDisk (state S.Store conn.new) → HasCleanDisk (state S.Store conn.old) }
{
    conn.execute(
        "CREATE TABLE peer (id INTEGER PRIMARY KEY, mark BLOB NOT NULL, writer INTEGER NOT NULL, seen INTEGER NOT NULL) STRICT",
        &[],
    )
}

// Adds the head to a log that has none.
fn add_head<S: Alter>(conn: &mut Connection<S>, head: &LogHead) -> Result<usize, Error>
    requires log { HasCleanDisk (state S.Store conn.old) → IsLog (state S.Store conn.old) }
    requires empty { HasCleanDisk (state S.Store conn.old)
        → heads_of (state S.Store conn.old) ≡ [] }
    ensures log { HasCleanDisk (state S.Store conn.new)
        → OnOk result (IsLog (state S.Store conn.new)) }
    ensures head { HasCleanDisk (state S.Store conn.new)
        → OnOk result (heads_of (state S.Store conn.new) ≡ head.now ∷ []) }
    ensures peers { HasCleanDisk (state S.Store conn.new)
        → OnOk result (peers_of (state S.Store conn.new) ≡ peers_of (state S.Store conn.old)) }
    ensures edits { HasCleanDisk (state S.Store conn.new)
        → OnOk result (log_of (state S.Store conn.new) ≡ log_of (state S.Store conn.old)) }
    ensures clean { HasCleanDisk (state S.Store conn.new) → HasCleanDisk (state S.Store conn.old) }
{
    conn.execute(
        "INSERT INTO meta (format, writer, mark) VALUES (?1, ?2, ?3)",
        &[number(head.format), number(head.writer), blob(&head.mark)],
    )
}

// Makes a log with this head, no edits and no peers in an empty database. A crash may leave part of it, which no open takes for a
// log.
fn make<S: Alter>(conn: &mut Connection<S>, head: &LogHead) -> Result<(), Error>
    requires blank { HasCleanDisk (state S.Store conn.old)
        → HasSchema no_schema (state S.Store conn.old) }
    ensures log { HasCleanDisk (state S.Store conn.new)
        → OnOk result (IsLog (state S.Store conn.new)) }
    ensures head { HasCleanDisk (state S.Store conn.new)
        → OnOk result (heads_of (state S.Store conn.new) ≡ head.now ∷ []) }
    ensures empty { HasCleanDisk (state S.Store conn.new)
        → OnOk result (log_of (state S.Store conn.new) ≡ []) }
    ensures alone { HasCleanDisk (state S.Store conn.new)
        → OnOk result (peers_of (state S.Store conn.new) ≡ []) }
{
    make_edit_table(conn)?;
    make_meta_table(conn)?;
    make_peer_table(conn)?;
    add_head(conn, head)?;
    Ok(())
}

// Makes a log with this head, no edits and no peers on a fresh connection. `Exists` if the database isn't empty.
pub(crate) fn make_log<S: Alter>(conn: &mut Connection<S>, head: &LogHead) -> Result<(), LogFault>
    requires opened { HasCleanDisk (state S.Store conn.old) → Opens (state S.Store conn.old) }
    ensures log { OnOk result (Stands head.now (state S.Store conn.new)) }
    ensures empty { HasCleanDisk (state S.Store conn.new)
        → OnOk result (held_in (state S.Store conn.new).committed.trees ≡ []) }
    ensures alone { HasCleanDisk (state S.Store conn.new)
        → OnOk result (peers_in (state S.Store conn.new).committed.trees ≡ []) }
{
    if !is_blank(conn.schema()) {
        return Err(LogFault::Exists);
    }
    match make(conn, head) {
        Ok(()) => Ok(()),
        Err(error) => Err(fault_of(error)),
    }
}
