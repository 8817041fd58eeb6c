//! The log, as a log of edits.
ghost use Rattle.std.specs.Prelude.{◌≡◌};
ghost use Rattle.sqlite.specs.Held.{state};
ghost use Rattle.sqlite.specs.State.{HasCleanDisk};
ghost use Rattle.sqlite_log.specs.States.{held_in, log_lasts, MayLeave, peers_in, Stands};

use crate::adding::add_all;
use crate::faults::fault_of;
use crate::peers::{add_peers, read_peers};
use crate::reading::read_all;
use crate::spelling::note_edits;
use edit_log::{EditLog, LogFault, LogHead, LogPeer, LogRow};
use edit_sums::Edit;
use sqlite::{Alter, Connection};
use std::alloc::Global;

/// A log of edits in an SQLite database. Its files are honest while its disk is clean.
pub struct SqliteLog<S: Alter> {
    pub(crate) alloc: Global,
    pub(crate) conn: Connection<S>,
    pub(crate) head: LogHead,
}

impl<S: Alter + Drop> Drop for SqliteLog<S> {
    fn drop(self) {
        let SqliteLog {
            alloc: _,
            conn: _,
            head: _,
        } = self;
    }
}

impl<S: Alter> EditLog for SqliteLog<S> {
    ghost is_honest = { λ log. HasCleanDisk (state S.Store log.conn) };

    ghost is_running = { λ log. Stands log.head (state S.Store log.conn) };

    ghost head = { λ log. log.head };

    ghost held = { λ log. held_in (state S.Store log.conn).committed.trees };

    ghost peers = { λ log. peers_in (state S.Store log.conn).committed.trees };

    ghost may_leave = { λ log. MayLeave (state S.Store log.conn) };

    ghost lasts = { λ log honest running left may. log_lasts (record {
      view = S.Store.view;
      faults = S.Store.faults;
      recovers = S.Store.recovers;
      is_shielded = S.Store.is_shielded;
      is_step = S.Store.is_step;
      blamed = S.Store.blamed;
      names = S.Store.names;
    }) log.conn S.Store.settled log.head running honest left may };

    fn head(&self) -> LogHead {
        self.head
    }

    fn append(&mut self, edits: &[Edit], time: u32) -> Result<(), LogFault> {
        note_edits(edits);
        match add_all(self.alloc, &mut self.conn, edits, time) {
            Ok(()) => Ok(()),
            Err(error) => Err(fault_of(error)),
        }
    }

    fn read(&mut self, alloc: Global) -> Result<Vec<LogRow>, LogFault> {
        read_all(alloc, &mut self.conn)
    }

    fn note_peers(&mut self, met: &[LogPeer]) -> Result<(), LogFault> {
        match add_peers(&mut self.conn, met) {
            Ok(()) => Ok(()),
            Err(error) => Err(fault_of(error)),
        }
    }

    fn peers(&mut self, alloc: Global) -> Result<Vec<LogPeer>, LogFault> {
        read_peers(alloc, &mut self.conn)
    }
}

impl<S: Alter> SqliteLog<S> {
    // Returns its connection, and drops the rest.
    pub(crate) fn into_conn(self) -> Connection<S>
        ensures conn { result ≡ self.conn }
    {
        let SqliteLog {
            alloc: _,
            conn,
            head: _,
        } = self;
        conn
    }
}
