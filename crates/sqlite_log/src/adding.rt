//! Adding edits to a log, in one transaction.
ghost use Rattle.std.specs.Prelude.{◌≡◌, ◌<◌, ◌^◌, ◌∷◌, [], All, IsTrue, OnErr, OnOk, map};
ghost use Rattle.sqlite.specs.Held.{state};
ghost use Rattle.sqlite.specs.State.{HasCleanDisk, KeepsCommit, Survives};
ghost use Rattle.edit_sums.specs.Sums.{high_among};
ghost use Rattle.sqlite_log.specs.Cells.{cells_of};
ghost use Rattle.sqlite_log.specs.States.{Grows, IsInside, IsLog, StandsAs};

use crate::spelling::{kind_and_bytes, text_of};
use crate::values::{blob, counter, number, text};
use edit_sums::Edit;
use join_law::Version;
use sqlite::{Alter, Connection, Error, ErrorCode, Transaction};
use std::alloc::Global;

// Inserts the cells of an edit inside a transaction.
fn insert_cells<'a, S: Alter>(
    tx: &mut Transaction<'_, S>,
    place: &'a [u8],
    version: Version,
    content: (u32, &'a [u8]),
    time: u32,
) -> Result<usize, Error>
    requires inside { HasCleanDisk (state S.Store tx.old.conn.now)
        → IsInside (state S.Store tx.old.conn.now) }
    requires counter { version.counter < 2 ^ 63 }
    ensures same_reference { tx.new.conn.ghost_name ≡ tx.old.conn.ghost_name }
    ensures inside { HasCleanDisk (state S.Store tx.new.conn.now)
        → OnOk result (IsInside (state S.Store tx.new.conn.now)) }
    ensures added { HasCleanDisk (state S.Store tx.new.conn.now)
        → OnOk result (Grows (state S.Store tx.old.conn.now).now.trees
        (state S.Store tx.new.conn.now).now.trees (record {
          place = place.now;
          counter = version.counter;
          writer = version.writer;
          kind = content.entry.0;
          content = content.entry.1.now;
          time = time;
        } ∷ [])) }
    ensures kept { HasCleanDisk (state S.Store tx.new.conn.now)
        → KeepsCommit (state S.Store tx.old.conn.now) (state S.Store tx.new.conn.now) }
    ensures survives { Survives (state S.Store tx.old.conn.now) (state S.Store tx.new.conn.now)
        (λ _. ⊥) }
{
    let (kind, bytes) = content;
    tx.execute(
        "INSERT INTO edit (place, counter, writer, kind, content, time) VALUES (?1, ?2, ?3, ?4, ?5, ?6)",
        &[
            text(place),
            counter(version.counter),
            number(version.writer),
            number(kind),
            blob(bytes),
            number(time),
        ],
    )
}

// Adds an edit inside a transaction.
fn add_row<S: Alter>(
    alloc: Global,
    tx: &mut Transaction<'_, S>,
    edit: &Edit,
    time: u32,
) -> Result<usize, Error>
    requires inside { HasCleanDisk (state S.Store tx.old.conn.now)
        → IsInside (state S.Store tx.old.conn.now) }
    requires counter { edit.now.version.counter < 2 ^ 63 }
    ensures same_reference { tx.new.conn.ghost_name ≡ tx.old.conn.ghost_name }
    ensures inside { HasCleanDisk (state S.Store tx.new.conn.now)
        → OnOk result (IsInside (state S.Store tx.new.conn.now)) }
    ensures added { HasCleanDisk (state S.Store tx.new.conn.now)
        → OnOk result
        (Grows (state S.Store tx.old.conn.now).now.trees (state S.Store tx.new.conn.now).now.trees
        (cells_of time edit.now ∷ [])) }
    ensures kept { HasCleanDisk (state S.Store tx.new.conn.now)
        → KeepsCommit (state S.Store tx.old.conn.now) (state S.Store tx.new.conn.now) }
    ensures survives { Survives (state S.Store tx.old.conn.now) (state S.Store tx.new.conn.now)
        (λ _. ⊥) }
{
    let text = text_of(alloc, &edit.place)?;
    insert_cells(tx, &text, edit.version, kind_and_bytes(&edit.content), time)
}

// Adds edits inside a transaction.
fn add_rows<S: Alter>(
    alloc: Global,
    tx: &mut Transaction<'_, S>,
    edits: &[Edit],
    time: u32,
) -> Result<(), Error>
    requires inside { HasCleanDisk (state S.Store tx.old.conn.now)
        → IsInside (state S.Store tx.old.conn.now) }
    requires counters { high_among edits.now < 2 ^ 63 }
    ensures same_reference { tx.new.conn.ghost_name ≡ tx.old.conn.ghost_name }
    ensures inside { HasCleanDisk (state S.Store tx.new.conn.now)
        → OnOk result (IsInside (state S.Store tx.new.conn.now)) }
    ensures added { HasCleanDisk (state S.Store tx.new.conn.now)
        → OnOk result
        (Grows (state S.Store tx.old.conn.now).now.trees (state S.Store tx.new.conn.now).now.trees
        (map (cells_of time) edits.now)) }
    ensures kept { HasCleanDisk (state S.Store tx.new.conn.now)
        → KeepsCommit (state S.Store tx.old.conn.now) (state S.Store tx.new.conn.now) }
    ensures survives { Survives (state S.Store tx.old.conn.now) (state S.Store tx.new.conn.now)
        (λ _. ⊥) }
{
    for edit in edits {
        add_row(alloc, tx, edit, time)?;
    }
    Ok(())
}

// Adds edits, all of them or none, and commits them.
pub(crate) fn add_all<S: Alter>(
    alloc: Global,
    conn: &mut Connection<S>,
    edits: &[Edit],
    time: u32,
) -> Result<(), Error>
    requires log { HasCleanDisk (state S.Store conn.old) → IsLog (state S.Store conn.old) }
    requires counters { high_among edits.now < 2 ^ 63 }
    ensures log { HasCleanDisk (state S.Store conn.new)
        → OnOk result (IsLog (state S.Store conn.new)) }
    ensures added { HasCleanDisk (state S.Store conn.new)
        → OnOk result
        (Grows (state S.Store conn.old).committed.trees (state S.Store conn.new).committed.trees
        (map (cells_of time) edits.now)) }
    ensures kept { OnErr result (StandsAs (state S.Store conn.old) (state S.Store conn.new)) }
    ensures crash { Survives (state S.Store conn.old) (state S.Store conn.new)
        (λ trees. Grows (state S.Store conn.old).committed.trees trees
        (map (cells_of time) edits.now)) }
{
    if !conn.is_autocommit() {
        return Err(Error::SqliteFailure(ErrorCode::TransactionState));
    }
    let mut tx = conn.transaction();
    add_rows(alloc, &mut tx, edits, time)?;
    tx.commit()
}
