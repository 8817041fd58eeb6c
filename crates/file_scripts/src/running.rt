//! Answers a script at a node that lasts.
ghost use Rattle.std.specs.Prelude.{◌≡◌, [], false, IsErrOf, OnErr, OnOk};
ghost use Rattle.script_pipes.specs.Failures.{FailedSince};
ghost use Rattle.script_worlds.specs.Worlds.{begun};
ghost use Rattle.fleet_script.specs.Ends.{IsAnsweredFrom, IsPrefixFrom, IsUnread};
ghost use Rattle.file_scripts.specs.Kept.{here, IsFoundIn, IsHeldIn};

use crate::homes::LastingHome;
use durable_node::EditLog;
use fleet_script::{KeptFault, run_kept};
use script_pipes::{MAX_SCRIPT_BYTES, Sink, Source};
use std::sync::Wait;
use std::thread::Threads;

/// Reads a whole script, and writes the answers to its commands in a world that begins with the node, named `here`, and what
/// it holds. An answer is written only when the edits of its line stand in the node's log; each block of 64 KiB of answers is
/// committed at once. Further nodes of the script are dropped at the end.
///
/// The faults are those of `run_kept` of `fleet_script`. `Memory` is also the fault where memory runs out before the first
/// line; after `Unkept` the home says what was refused (`refused`), and the node is opened anew.
pub fn run_at<R: AllocGlobal + Threads + Wait + Sync, L: EditLog, S: Source, K: Sink>(
    rt: &R,
    home: &mut LastingHome<L>,
    reader: &mut S,
    writer: &mut K,
) -> Result<(), KeptFault>
    requires whole { home.old.node.is_spent ≡ false }
    requires saved { home.old.node.unsaved ≡ [] }

    // The answers to the whole script are written, and the log comes to what the node holds at the end, whatever crashes.
    ensures ok { OnOk result
        (IsAnsweredFrom
        (begun here home.old.node.replica.writer home.old.node.replica.store) MAX_SCRIPT_BYTES
        (S.remaining reader.old) (K.contents writer.old) (K.contents writer.new)
        (IsHeldIn L.is_honest L.held L.may_leave home.new.node)) }

    // If the script wasn't read, nothing is written, and a read failed or the script is too long.
    ensures read { IsErrOf result KeptFault.Read
        → IsUnread MAX_SCRIPT_BYTES (S.remaining reader.old) (S.failures reader.old)
        (S.failures reader.new) (K.contents writer.old) (K.contents writer.new) }
    ensures unread { IsErrOf result KeptFault.Read → home.new ≡ home.old }

    // On every fault a prefix of the answers to some first lines is written, and whatever crashes, what the next open finds is
    // at least what the node held after these lines.
    ensures prefix { OnErr result
        (IsPrefixFrom (begun here home.old.node.replica.writer home.old.node.replica.store)
        (S.remaining reader.old) (K.contents writer.old) (K.contents writer.new)
        (IsFoundIn L.is_honest L.may_leave home.new.node)) }
    ensures write { IsErrOf result KeptFault.Write
        → FailedSince (K.refusals writer.old) (K.refusals writer.new) }
{
    let here = home.node.replica().try_clone()?;
    run_kept(rt, home, here, reader, writer)
}
