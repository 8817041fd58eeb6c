//! A log in files.
ghost use Rattle.std.specs.Prelude.{◌≡◌, [], IfOk, OnOk};
ghost use Rattle.sqlite.specs.FileStore as files;
ghost use Rattle.sqlite.specs.Files.{file_state};
ghost use Rattle.sqlite.specs.Recovery.{Image};
ghost use Rattle.sqlite.specs.State.{HasCleanDisk, Opens};
ghost use Rattle.sqlite.specs.View.{IsClean};
ghost use Rattle.sqlite.specs.WalReads.{AreClean};
ghost use Rattle.sqlite_store.specs.Laws.{settled_at};
ghost use Rattle.sqlite_log.specs.Closed.{HoldsLog};
ghost use Rattle.sqlite_log.specs.Found.{FindsLog, IsLeft};
ghost use Rattle.sqlite_log.specs.States.{held_in, log_lasts, MayLeave, peers_in, Stands};

use crate::faults::fault_of;
use crate::log::SqliteLog;
use crate::making::make_log;
use crate::reading::open_head;
use edit_log::{EditLog, LogFault, LogHead, LogPeer, LogRow};
use edit_sums::Edit;
use sqlite::{Connection, FileStore, Files};
use sqlite_disk::Disk;
use std::alloc::Global;

/// A log in an SQLite file and the one that SQLite keeps beside it. It is honest while its disk is clean.
///
/// It is a type of its own so that no crate above has to look into SQLite's types.
pub struct FileLog<D: Disk + Drop> {
    pub(crate) inside: SqliteLog<FileStore<D>>,
}

impl<D: Disk + Drop> Drop for FileLog<D> {
    fn drop(self) {
        let FileLog { inside: _ } = self;
    }
}

impl<D: Disk + Drop> FileLog<D> {
    // Makes a log with this head, no edits and no peers in an empty database.
    pub(crate) fn make(
        alloc: Global,
        mut conn: Connection<FileStore<D>>,
        head: LogHead,
    ) -> Result<FileLog<D>, LogFault>
        requires opened { HasCleanDisk (file_state conn) → Opens (file_state conn) }
        ensures log { IfOk result (λ log. Stands log.inside.head (file_state log.inside.conn)) }
        ensures head { IfOk result (λ log. log.inside.head ≡ head) }
        ensures empty { IfOk result (λ log. HasCleanDisk (file_state log.inside.conn)
            → held_in (file_state log.inside.conn).committed.trees ≡ []) }
        ensures alone { IfOk result (λ log. HasCleanDisk (file_state log.inside.conn)
            → peers_in (file_state log.inside.conn).committed.trees ≡ []) }
    {
        make_log(&mut conn, &head)?;
        Ok(FileLog {
            inside: SqliteLog { alloc, conn, head },
        })
    }

    // The log in a database. `NotANode` if it is none.
    pub(crate) fn find(
        alloc: Global,
        mut conn: Connection<FileStore<D>>,
    ) -> Result<FileLog<D>, LogFault>
        requires opened { HasCleanDisk (file_state conn) → Opens (file_state conn) }
        ensures log { IfOk result (λ log. Stands log.inside.head (file_state log.inside.conn)) }
        ensures same { IfOk result (λ log. HasCleanDisk (file_state log.inside.conn)
            → (file_state log.inside.conn).committed.trees ≡ (file_state conn).committed.trees) }
        ensures clean { IfOk result
            (λ log. HasCleanDisk (file_state log.inside.conn) → HasCleanDisk (file_state conn)) }
    {
        let head = open_head(&mut conn)?;
        Ok(FileLog {
            inside: SqliteLog { alloc, conn, head },
        })
    }

    /// Copies all that was committed into the database file, which needs no file beside it from then on, and returns the two
    /// files. No other process opens them until they are dropped.
    ///
    /// Fails with what the disk refuses. Then the files hold what they held, and the next open finds that.
    pub fn close(self) -> Result<Files<D>, LogFault>
        requires running { Stands self.inside.head (file_state self.inside.conn) }
        ensures alone { IfOk result
            (λ files. AreClean D.Disk files.log files.db
            → HoldsLog D.Disk files self.inside.head
            (held_in (file_state self.inside.conn).committed.trees)
            (peers_in (file_state self.inside.conn).committed.trees)) }
        ensures clean { IfOk result (λ files. AreClean D.Disk files.log files.db
            → HasCleanDisk (file_state self.inside.conn)) }
    {
        let FileLog { inside } = self;
        match inside.into_conn().close_files() {
            Ok(files) => Ok(files),
            Err((error, store)) => {
                drop(store.close());
                Err(fault_of(error))
            }
        }
    }

    /// What an open finds is what a crash left: whatever a crash at this moment leaves of the files of a log, an open that
    /// finds these files finds rows and peers that a crash may leave. It touches no file.
    pub fn found_again<E: Disk + Drop>(self, later: &FileLog<E>) -> FileStore<D>
        ensures found { IsClean (files.view result) → (left : Image)
            → (files.state result).may_leave left → FindsLog left later.now.inside.conn
            → IsLeft self.inside.conn later.now.inside.conn }
    {
        let FileLog { inside } = self;
        inside.into_conn().into_store()
    }
}

impl<D: Disk + Drop> EditLog for FileLog<D> {
    ghost is_honest = { λ log. HasCleanDisk (file_state log.inside.conn) };

    ghost is_running = { λ log. Stands log.inside.head (file_state log.inside.conn) };

    ghost head = { λ log. log.inside.head };

    ghost held = { λ log. held_in (file_state log.inside.conn).committed.trees };

    ghost peers = { λ log. peers_in (file_state log.inside.conn).committed.trees };

    ghost may_leave = { λ log. MayLeave (file_state log.inside.conn) };

    ghost lasts = { λ log honest running left may. log_lasts (record {
      view = files.view;
      faults = files.faults;
      recovers = files.recovers;
      is_shielded = files.is_shielded;
      is_step = files.IsStep;
      blamed = files.blamed;
      names = files.NamesFault;
    }) log.inside.conn
        (λ it. settled_at it D.Disk.seen_may_stay) log.inside.head running honest left may };

    fn head(&self) -> LogHead {
        self.inside.head
    }

    fn append(&mut self, edits: &[Edit], time: u32) -> Result<(), LogFault> {
        self.inside.append(edits, time)
    }

    fn read(&mut self, alloc: Global) -> Result<Vec<LogRow>, LogFault> {
        self.inside.read(alloc)
    }

    fn note_peers(&mut self, met: &[LogPeer]) -> Result<(), LogFault> {
        self.inside.note_peers(met)
    }

    fn peers(&mut self, alloc: Global) -> Result<Vec<LogPeer>, LogFault> {
        self.inside.peers(alloc)
    }
}
