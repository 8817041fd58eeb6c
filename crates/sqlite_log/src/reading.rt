//! Reading a log.
ghost use Rattle.std.specs.Prelude.{◌≡◌, ◌∷◌, [], IfOk, IsPermutation, OnOk, Some, map};
ghost use Rattle.sqlite.specs.Held.{state};
ghost use Rattle.sqlite.specs.Order.{bytes, column};
ghost use Rattle.sqlite.specs.State.{HasCleanDisk, IsUnchanged, Opens, Survives};
ghost use Rattle.sqlite_log.specs.Cells.{cells_read, cells_shown, head_shown, row_in};
ghost use Rattle.sqlite_log.specs.States.{heads_of, held_in, IsLog, log_of, Stands};

use crate::faults::fault_of;
use crate::schemas::is_log;
use crate::spelling::{content_in, place_in};
use edit_log::{LogFault, LogHead, LogRow};
use edit_sums::Edit;
use join_law::Version;
use sqlite::types::{Type, ValueRef};
use sqlite::{Alter, Connection, Error, Row};
use std::alloc::Global;

// The cells of an edit's row, as they are read: the text is the row's own.
#[derive(Drop)]
pub(crate) struct EditCells<'a> {
    place: &'a [u8],
    counter: u64,
    writer: u32,
    kind: u32,
    content: Vec<u8>,
    time: u32,
}

// The rows of the table of edits, in some order.
fn all_edits<S: Alter>(conn: &mut Connection<S>) -> Result<Vec<Row>, Error>
    requires log { HasCleanDisk (state S.Store conn.old) → IsLog (state S.Store conn.old) }
    ensures shown { HasCleanDisk (state S.Store conn.new)
        → IfOk result
        (λ rows. IsPermutation (log_of (state S.Store conn.old)) (map cells_shown rows.items)) }
    ensures same { HasCleanDisk (state S.Store conn.new)
        → OnOk result (IsUnchanged (state S.Store conn.old) (state S.Store conn.new)) }
    ensures crash { Survives (state S.Store conn.old) (state S.Store conn.new) (λ _. ⊥) }
{
    conn.query_all(
        "SELECT place, counter, writer, kind, content, time FROM edit",
        &[],
    )
}

// The rows of the table of heads.
fn all_heads<S: Alter>(conn: &mut Connection<S>) -> Result<Vec<Row>, Error>
    requires log { HasCleanDisk (state S.Store conn.old) → IsLog (state S.Store conn.old) }
    ensures shown { HasCleanDisk (state S.Store conn.new)
        → IfOk result
        (λ rows. IsPermutation (heads_of (state S.Store conn.old)) (map head_shown rows.items)) }
    ensures same { HasCleanDisk (state S.Store conn.new)
        → OnOk result (IsUnchanged (state S.Store conn.old) (state S.Store conn.new)) }
    ensures crash { Survives (state S.Store conn.old) (state S.Store conn.new) (λ _. ⊥) }
{
    conn.query_all("SELECT format, writer, mark FROM meta", &[])
}

// The text in a column, which stays the row's.
fn text_at<'a>(row: &'a Row, at: usize) -> Result<&'a [u8], Error>
    ensures text { IfOk result (λ text. text.now ≡ bytes (column row.now at)) }
{
    match row.get_ref(at)? {
        ValueRef::Text(text) => Ok(text),
        other => Err(Error::InvalidColumnType(at, Type::of(other))),
    }
}

fn cells_of_row<'a>(row: &'a Row) -> Result<EditCells<'a>, Error>
    ensures cells { IfOk result (λ cells. cells_read cells ≡ cells_shown row.now) }
{
    Ok(EditCells {
        place: text_at(row, 0)?,
        counter: row.get(1)?,
        writer: row.get(2)?,
        kind: row.get(3)?,
        content: row.get(4)?,
        time: row.get(5)?,
    })
}

// The row of the log that cells spell. `NotANode` if they spell none.
fn row_of_cells(alloc: Global, cells: EditCells<'_>) -> Result<LogRow, LogFault>
    ensures row { IfOk result (λ row. row_in (cells_read cells.entry) ≡ Some row) }
{
    let EditCells {
        place,
        counter,
        writer,
        kind,
        content,
        time,
    } = cells;
    let place = place_in(alloc, place)?;
    let content = content_in(kind, content)?;
    let version = Version { counter, writer };
    Ok(LogRow {
        edit: Edit {
            place,
            version,
            content,
        },
        time,
    })
}

fn read_row(alloc: Global, row: &Row) -> Result<LogRow, LogFault>
    ensures row { IfOk result (λ read. row_in (cells_shown row.now) ≡ Some read) }
{
    match cells_of_row(row) {
        Ok(cells) => row_of_cells(alloc, cells),
        Err(error) => Err(fault_of(error)),
    }
}

fn read_rows(alloc: Global, rows: &[Row]) -> Result<Vec<LogRow>, LogFault>
    ensures rows { IfOk result
        (λ read. map (λ r. row_in (cells_shown r)) rows.now ≡ map Some read.items) }
{
    let mut read = Vec::new(alloc);
    for row in rows {
        let Ok(()) = read.push(read_row(alloc, row)?) else {
            return Err(LogFault::Memory);
        };
    }
    Ok(read)
}

// The rows of the log, in some order.
pub(crate) fn read_all<S: Alter>(
    alloc: Global,
    conn: &mut Connection<S>,
) -> Result<Vec<LogRow>, LogFault>
    requires log { HasCleanDisk (state S.Store conn.old) → IsLog (state S.Store conn.old) }
    ensures rows { HasCleanDisk (state S.Store conn.new)
        → IfOk result
        (λ rows. IsPermutation (held_in (state S.Store conn.old).committed.trees) rows.items) }
    ensures same { HasCleanDisk (state S.Store conn.new)
        → OnOk result (IsUnchanged (state S.Store conn.old) (state S.Store conn.new)) }
    ensures crash { Survives (state S.Store conn.old) (state S.Store conn.new) (λ _. ⊥) }
{
    match all_edits(conn) {
        Ok(rows) => read_rows(alloc, &rows),
        Err(error) => Err(fault_of(error)),
    }
}

fn head_of_row(row: &Row) -> Result<(u32, u32, Vec<u8>), Error>
    ensures head { IfOk result
        (λ head. record { format = head.0; writer = head.1; mark = head.2.items }
        ≡ head_shown row.now) }
{
    Ok((row.get(0)?, row.get(1)?, row.get(2)?))
}

// The head that a row shows. `NotANode` if it shows none.
fn read_head_row(row: &Row) -> Result<LogHead, LogFault>
    ensures head { IfOk result (λ head. head ≡ head_shown row.now) }
{
    let (format, writer, mark) = match head_of_row(row) {
        Ok(cells) => cells,
        Err(error) => return Err(fault_of(error)),
    };
    match <[u8; 16]>::try_from(mark.as_slice()) {
        Ok(mark) => Ok(LogHead {
            format,
            writer,
            mark,
        }),
        Err(_) => Err(LogFault::NotANode),
    }
}

// The head of a log that has one. `NotANode` if it has none or several.
pub(crate) fn read_head<S: Alter>(conn: &mut Connection<S>) -> Result<LogHead, LogFault>
    requires log { HasCleanDisk (state S.Store conn.old) → IsLog (state S.Store conn.old) }
    ensures head { HasCleanDisk (state S.Store conn.new)
        → IfOk result (λ head. heads_of (state S.Store conn.old) ≡ head ∷ []) }
    ensures same { HasCleanDisk (state S.Store conn.new)
        → OnOk result (IsUnchanged (state S.Store conn.old) (state S.Store conn.new)) }
    ensures crash { Survives (state S.Store conn.old) (state S.Store conn.new) (λ _. ⊥) }
{
    let rows = match all_heads(conn) {
        Ok(rows) => rows,
        Err(error) => return Err(fault_of(error)),
    };
    let [row] = rows.as_slice() else {
        return Err(LogFault::NotANode);
    };
    read_head_row(row)
}

// The head of a database that is a log, on a fresh connection. `NotANode` if it is none.
pub(crate) fn open_head<S: Alter>(conn: &mut Connection<S>) -> Result<LogHead, LogFault>
    requires opened { HasCleanDisk (state S.Store conn.old) → Opens (state S.Store conn.old) }
    ensures head { IfOk result (λ head. Stands head (state S.Store conn.new)) }
    ensures same { HasCleanDisk (state S.Store conn.new)
        → OnOk result
        ((state S.Store conn.new).committed.trees ≡ (state S.Store conn.old).committed.trees) }
    ensures clean { HasCleanDisk (state S.Store conn.new) → HasCleanDisk (state S.Store conn.old) }
{
    if !is_log(conn.schema()) {
        return Err(LogFault::NotANode);
    }
    read_head(conn)
}
