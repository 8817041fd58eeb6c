//! The peers of a log.
ghost use Rattle.std.specs.Prelude.{◌≡◌, ◌∷◌, [], IfOk, IsPermutation, OnErr, OnOk, map};
ghost use Rattle.sqlite.specs.Held.{state};
ghost use Rattle.sqlite.specs.State.{HasCleanDisk, IsUnchanged, KeepsCommit, Survives};
ghost use Rattle.sqlite_log.specs.Cells.{peer_shown};
ghost use Rattle.sqlite_log.specs.States.{IsInside, IsLog, Meets, peers_of, StandsAs};

use crate::faults::fault_of;
use crate::values::{blob, number};
use edit_log::{LogFault, LogPeer};
use sqlite::{Alter, Connection, Error, ErrorCode, Row, Transaction};
use std::alloc::Global;

// Adds a peer inside a transaction.
fn insert_peer<S: Alter>(tx: &mut Transaction<'_, S>, peer: &LogPeer) -> Result<usize, Error>
    requires inside { HasCleanDisk (state S.Store tx.old.conn.now)
        → IsInside (state S.Store tx.old.conn.now) }
    ensures same_reference { tx.new.conn.ghost_name ≡ tx.old.conn.ghost_name }
    ensures inside { HasCleanDisk (state S.Store tx.new.conn.now)
        → OnOk result (IsInside (state S.Store tx.new.conn.now)) }
    ensures added { HasCleanDisk (state S.Store tx.new.conn.now)
        → OnOk result
        (Meets (state S.Store tx.old.conn.now).now.trees (state S.Store tx.new.conn.now).now.trees
        (peer.now ∷ [])) }
    ensures kept { HasCleanDisk (state S.Store tx.new.conn.now)
        → KeepsCommit (state S.Store tx.old.conn.now) (state S.Store tx.new.conn.now) }
    ensures survives { Survives (state S.Store tx.old.conn.now) (state S.Store tx.new.conn.now)
        (λ _. ⊥) }
{
    tx.execute(
        "INSERT INTO peer (mark, writer, seen) VALUES (?1, ?2, ?3)",
        &[blob(&peer.mark), number(peer.writer), number(peer.seen)],
    )
}

// Adds peers inside a transaction.
fn insert_peers<S: Alter>(tx: &mut Transaction<'_, S>, met: &[LogPeer]) -> Result<(), Error>
    requires inside { HasCleanDisk (state S.Store tx.old.conn.now)
        → IsInside (state S.Store tx.old.conn.now) }
    ensures same_reference { tx.new.conn.ghost_name ≡ tx.old.conn.ghost_name }
    ensures inside { HasCleanDisk (state S.Store tx.new.conn.now)
        → OnOk result (IsInside (state S.Store tx.new.conn.now)) }
    ensures added { HasCleanDisk (state S.Store tx.new.conn.now)
        → OnOk result
        (Meets (state S.Store tx.old.conn.now).now.trees
        (state S.Store tx.new.conn.now).now.trees met.now) }
    ensures kept { HasCleanDisk (state S.Store tx.new.conn.now)
        → KeepsCommit (state S.Store tx.old.conn.now) (state S.Store tx.new.conn.now) }
    ensures survives { Survives (state S.Store tx.old.conn.now) (state S.Store tx.new.conn.now)
        (λ _. ⊥) }
{
    for peer in met {
        insert_peer(tx, peer)?;
    }
    Ok(())
}

// Adds peers, all of them or none, and commits them.
pub(crate) fn add_peers<S: Alter>(conn: &mut Connection<S>, met: &[LogPeer]) -> Result<(), Error>
    requires log { HasCleanDisk (state S.Store conn.old) → IsLog (state S.Store conn.old) }
    ensures log { HasCleanDisk (state S.Store conn.new)
        → OnOk result (IsLog (state S.Store conn.new)) }
    ensures added { HasCleanDisk (state S.Store conn.new)
        → OnOk result
        (Meets (state S.Store conn.old).committed.trees
        (state S.Store conn.new).committed.trees met.now) }
    ensures kept { OnErr result (StandsAs (state S.Store conn.old) (state S.Store conn.new)) }
    ensures crash { Survives (state S.Store conn.old) (state S.Store conn.new)
        (λ trees. Meets (state S.Store conn.old).committed.trees trees met.now) }
{
    if !conn.is_autocommit() {
        return Err(Error::SqliteFailure(ErrorCode::TransactionState));
    }
    let mut tx = conn.transaction();
    insert_peers(&mut tx, met)?;
    tx.commit()
}

// The rows of the table of peers, in some order.
fn all_peers<S: Alter>(conn: &mut Connection<S>) -> Result<Vec<Row>, Error>
    requires log { HasCleanDisk (state S.Store conn.old) → IsLog (state S.Store conn.old) }
    ensures shown { HasCleanDisk (state S.Store conn.new)
        → IfOk result
        (λ rows. IsPermutation (peers_of (state S.Store conn.old)) (map peer_shown rows.items)) }
    ensures same { HasCleanDisk (state S.Store conn.new)
        → OnOk result (IsUnchanged (state S.Store conn.old) (state S.Store conn.new)) }
    ensures crash { Survives (state S.Store conn.old) (state S.Store conn.new) (λ _. ⊥) }
{
    conn.query_all("SELECT mark, writer, seen FROM peer", &[])
}

fn cells_of_peer(row: &Row) -> Result<(Vec<u8>, u32, u32), Error>
    ensures peer { IfOk result
        (λ cells. record { mark = cells.0.items; writer = cells.1; seen = cells.2 }
        ≡ peer_shown row.now) }
{
    Ok((row.get(0)?, row.get(1)?, row.get(2)?))
}

// The peer that a row shows. `NotANode` if it shows none.
fn read_peer(row: &Row) -> Result<LogPeer, LogFault>
    ensures peer { IfOk result (λ peer. peer ≡ peer_shown row.now) }
{
    let (mark, writer, seen) = match cells_of_peer(row) {
        Ok(cells) => cells,
        Err(error) => return Err(fault_of(error)),
    };
    match <[u8; 16]>::try_from(mark.as_slice()) {
        Ok(mark) => Ok(LogPeer { mark, writer, seen }),
        Err(_) => Err(LogFault::NotANode),
    }
}

fn peers_shown(alloc: Global, rows: &[Row]) -> Result<Vec<LogPeer>, LogFault>
    ensures peers { IfOk result (λ peers. peers.items ≡ map peer_shown rows.now) }
{
    let mut peers = Vec::new(alloc);
    for row in rows {
        let Ok(()) = peers.push(read_peer(row)?) else {
            return Err(LogFault::Memory);
        };
    }
    Ok(peers)
}

// The peers of the log, in some order.
pub(crate) fn read_peers<S: Alter>(
    alloc: Global,
    conn: &mut Connection<S>,
) -> Result<Vec<LogPeer>, LogFault>
    requires log { HasCleanDisk (state S.Store conn.old) → IsLog (state S.Store conn.old) }
    ensures peers { HasCleanDisk (state S.Store conn.new)
        → IfOk result (λ peers. IsPermutation (peers_of (state S.Store conn.old)) peers.items) }
    ensures same { HasCleanDisk (state S.Store conn.new)
        → OnOk result (IsUnchanged (state S.Store conn.old) (state S.Store conn.new)) }
    ensures crash { Survives (state S.Store conn.old) (state S.Store conn.new) (λ _. ⊥) }
{
    match all_peers(conn) {
        Ok(rows) => peers_shown(alloc, &rows),
        Err(error) => Err(fault_of(error)),
    }
}
