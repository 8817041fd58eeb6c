//! What a close leaves, and what the next open finds of it.
ghost use Rattle.std.specs.Prelude.{[], List};
ghost use Rattle.sqlite.specs.Recovery.{Image};
ghost use Rattle.edit_log.specs.declared.logs.{LogHead.{LogHead}, LogPeer.{LogPeer}, LogRow.{LogRow}};
ghost use Rattle.sqlite_log.specs.Closed.{HasRows, HoldsLog, IsImageOf};
ghost use Rattle.sqlite_log.specs.Found.{FindsLog};

use crate::file_logs::FileLog;
use sqlite::Files;
use sqlite_disk::Disk;

/// What a close left is what an open finds, also after a crash, and also once the file beside the database file is removed.
/// It touches no file.
pub fn found_closed<D: Disk, E: Disk + Drop>(files: &Files<D>, later: &FileLog<E>)
    ensures both { (head : LogHead) (rows : List LogRow) (peers : List LogPeer) (image : Image)
        → HoldsLog D.Disk files.now head rows peers → IsImageOf D.Disk files.now image
        → FindsLog image later.now.inside.conn → HasRows later.now.inside.conn head rows peers }
    ensures alone { (head : LogHead) (rows : List LogRow) (peers : List LogPeer) (image : Image)
        → HoldsLog D.Disk files.now head rows peers → IsImageOf D.Disk files.now image
        → FindsLog (record image { log = [] }) later.now.inside.conn
        → HasRows later.now.inside.conn head rows peers }
{}
