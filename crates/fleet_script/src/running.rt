//! Reads a script, and writes its answers.
ghost use Rattle.std.specs.Prelude.{◌≡◌, IsErrOf, OnErr, OnOk};
ghost use Rattle.script_pipes.specs.Failures.{FailedSince};
ghost use Rattle.script_worlds.specs.Worlds.{ScriptWorld, begun, held};
ghost use Rattle.fleet_script.specs.Ends.{AnswersFrom, IsAnswered, IsAnsweredFrom, IsPrefixFrom, IsPrefixWritten, IsUnread, PrefixFrom};
ghost use Rattle.fleet_script.specs.Holds.{Holds, kept_in};

use crate::faults::ShellFault;
use crate::states::Shell;
use replica_store::Replica;
use script_homes::{Home, KeptFault, Nowhere, give_up};
use script_pipes::{MAX_SCRIPT_BYTES, ReadFault, Sink, Source, read_all};
use script_words::cut_line;
use std::sync::Wait;
use std::thread::Threads;

/// How many bytes of answers are collected before they are written.
const BATCH: usize = 65_536;

/// The name of the node whose edits are kept.
const HERE: &[u8] = b"here";

// Writes the answers to a script, in large blocks. Before each block what the first node holds is kept.
fn answer_all<R: AllocGlobal + Threads + Wait + Sync, H: Home, K: Sink>(
    rt: &R,
    mut shell: Shell,
    home: &mut H,
    script: &[u8],
    writer: &mut K,
) -> Result<(), KeptFault>
    ensures ok { OnOk result
        ((first : ScriptWorld) → Holds (kept_in shell) first → H.holds home.old (held first 0)
        → AnswersFrom first script.now (K.contents writer.old) (K.contents writer.new)
        (H.holds home.new)) }
    ensures prefix { OnErr result
        ((first : ScriptWorld) → Holds (kept_in shell) first → H.holds home.old (held first 0)
        → PrefixFrom first script.now (K.contents writer.old) (K.contents writer.new)
        (H.keeps home.new)) }
    ensures write { IsErrOf result KeptFault.Write
        → FailedSince (K.refusals writer.old) (K.refusals writer.new) }
    ensures read { IsErrOf result KeptFault.Read → ⊥ }
{
    let alloc = rt.alloc();
    let mut pending = Vec::new(alloc);
    let mut rest = script;
    while !rest.is_empty() {
        let (line, later) = cut_line(rest);
        let Ok(answer) = shell.answer_line(rt, line) else {
            return Err(give_up(home, writer, &pending));
        };
        if pending.extend_from_slice(&answer).is_err() {
            return Err(give_up(home, writer, &pending));
        }
        rest = later;
        if pending.len() >= BATCH {
            shell.write_kept(alloc, home, writer, &pending)?;
            pending.clear();
        }
    }
    shell.write_kept(alloc, home, writer, &pending)
}

// What ended a run without a home.
fn without_home(fault: KeptFault) -> ShellFault
    ensures read { result ≡ ShellFault.Read → fault ≡ KeptFault.Read }
    ensures write { result ≡ ShellFault.Write → fault ≡ KeptFault.Write }
{
    match fault {
        KeptFault::Read => ShellFault::Read,
        KeptFault::Write => ShellFault::Write,
        // (without a home nothing is unkept)
        KeptFault::Memory | KeptFault::Unkept => ShellFault::Memory,
    }
}

/// Reads a whole script, and writes the answers to its commands.
///
/// A script has at most 16,777,216 bytes and takes at most 20,000,000 reads. Any reader or writer of std is a source or
/// a sink in a `Watched` that was made for this run. If the writer has a buffer of its own, its owner flushes it.
/// Linear in the bytes of the script, apart from the cost of its commands. May wait for threads, when a command loads
/// by several workers; and as a node does, when a crowd works at one.
pub fn run<R: AllocGlobal + Threads + Wait + Sync, S: Source, K: Sink>(
    rt: &R,
    reader: &mut S,
    writer: &mut K,
) -> Result<(), ShellFault>
    // The answers to the whole script are written.
    ensures ok { OnOk result
        (IsAnswered MAX_SCRIPT_BYTES (S.remaining reader.old) (K.contents writer.old)
        (K.contents writer.new)) }

    // If the script wasn't read, nothing is written, and a read failed or the script is too long.
    ensures read { IsErrOf result ShellFault.Read
        → IsUnread MAX_SCRIPT_BYTES (S.remaining reader.old) (S.failures reader.old)
        (S.failures reader.new) (K.contents writer.old) (K.contents writer.new) }

    // On every fault a prefix of the answers is written.
    ensures prefix { OnErr result (IsPrefixWritten (S.remaining reader.old) (K.contents writer.old)
        (K.contents writer.new)) }
    ensures write { IsErrOf result ShellFault.Write → FailedSince (K.refusals writer.old)
        (K.refusals writer.new) }
{
    let alloc = rt.alloc();
    let script = match read_all(alloc, reader) {
        Ok(script) => script,
        Err(ReadFault::Failed) => return Err(ShellFault::Read),
        Err(ReadFault::Memory) => return Err(ShellFault::Memory),
    };
    match answer_all(rt, Shell::new(alloc), &mut Nowhere, &script, writer) {
        Ok(()) => Ok(()),
        Err(fault) => Err(without_home(fault)),
    }
}

/// Reads a whole script, and writes the answers to its commands in a world that begins with a node named `here`, which holds
/// what the given replica does. What the node holds is kept in a home: an answer is written only when what its line did is
/// kept. Further nodes are dropped at the end; no node gets a writer number that an edit of the replica has.
///
/// Limits and cost are those of `run`, and each block of 64 KiB of answers is kept at once.
pub fn run_kept<R: AllocGlobal + Threads + Wait + Sync, H: Home, S: Source, K: Sink>(
    rt: &R,
    home: &mut H,
    here: Replica,
    reader: &mut S,
    writer: &mut K,
) -> Result<(), KeptFault>
    requires held { H.holds home.old here.store }

    // The answers to the whole script are written, and the home holds what the node does at the end.
    ensures ok { OnOk result
        (IsAnsweredFrom (begun HERE.now here.writer here.store) MAX_SCRIPT_BYTES
        (S.remaining reader.old) (K.contents writer.old) (K.contents writer.new)
        (H.holds home.new)) }

    // If the script wasn't read, nothing is written and nothing is kept, and a read failed or the script is too long.
    ensures read { IsErrOf result KeptFault.Read
        → IsUnread MAX_SCRIPT_BYTES (S.remaining reader.old) (S.failures reader.old)
        (S.failures reader.new) (K.contents writer.old) (K.contents writer.new) }
    ensures unread { IsErrOf result KeptFault.Read → home.new ≡ home.old }

    // On every fault a prefix of the answers to some first lines is written, and what the node holds after these lines is kept.
    ensures prefix { OnErr result
        (IsPrefixFrom (begun HERE.now here.writer here.store) (S.remaining reader.old)
        (K.contents writer.old) (K.contents writer.new) (H.keeps home.new)) }
    ensures write { IsErrOf result KeptFault.Write
        → FailedSince (K.refusals writer.old) (K.refusals writer.new) }
{
    let alloc = rt.alloc();
    match read_all(alloc, reader) {
        Ok(script) => answer_all(rt, Shell::begun(alloc, HERE, here)?, home, &script, writer),
        Err(ReadFault::Failed) => Err(KeptFault::Read),
        Err(ReadFault::Memory) => Err(KeptFault::Memory),
    }
}
