//! Reads a script from standard input and writes its answers to standard output. The exit status is 0 if the script was
//! answered to its end, 1 if a read or a write failed or the script is too long, and 2 if memory ran out.
//!
//! Promise: the script's answers.
//!
//! If the status isn't 0, a line on standard error names the fault. `answer_script` is the whole program but for its
//! pipes.
#![tactic(auto)]

ghost use Rattle.std.specs.{Prelude.{◌≡◌, ◌⊎◌, ◌≤◌}, Process.{exit_status}};
ghost use Rattle.fleet_script.specs.Ends.{IsAnswered, IsPrefixWritten, IsUnread, IsUnwritten};
ghost use Rattle.fleet_shell.specs.Status.{status_of};

use fleet_script::ShellFault;
pub use fleet_script::run;
use script_pipes::{MAX_SCRIPT_BYTES, Sink, Source, Watched};
use std::io;
use std::process::ExitCode;
use std::sync::Wait;
use std::thread::Threads;

/// Writes to standard error what went wrong, if anything did, and returns the exit status.
///
/// If standard error refuses the line, it is lost: there is nowhere left to report that.
fn finish(rt: &impl Eprint, outcome: Result<(), ShellFault>) -> u8
    ensures status { result ≡ status_of outcome }
{
    let (words, status) = match outcome {
        Ok(()) => return 0,
        Err(ShellFault::Read) => ("fleet: read fault", 1),
        Err(ShellFault::Write) => ("fleet: write fault", 1),
        Err(ShellFault::Memory) => ("fleet: out of memory", 2),
    };
    let _ = rt.eprintln(words);
    status
}

/// The whole program: reads a script, writes its answers, writes to standard error what went wrong, if anything did,
/// and returns the exit status.
fn answer_script<R: AllocGlobal + Eprint + Threads + Wait + Sync, S: Source, K: Sink>(
    rt: &R,
    source: &mut S,
    sink: &mut K,
) -> ExitCode
    ensures statuses { exit_status result ≤ 2 }

    // The answers to the whole script are written.
    ensures answered { exit_status result ≡ 0 → IsAnswered MAX_SCRIPT_BYTES (S.remaining source.old)
        (K.contents sink.old) (K.contents sink.new) }

    // A read failed or the script is too long, and nothing is written; or a write failed after a prefix of the answers.
    ensures faulted { exit_status result ≡ 1
        → IsUnread MAX_SCRIPT_BYTES (S.remaining source.old) (S.failures source.old)
        (S.failures source.new) (K.contents sink.old) (K.contents sink.new)
        ⊎ IsUnwritten (S.remaining source.old) (K.refusals sink.old) (K.refusals sink.new)
        (K.contents sink.old) (K.contents sink.new) }

    // Memory ran out after a prefix of the answers.
    ensures starved { exit_status result ≡ 2
        → IsPrefixWritten (S.remaining source.old) (K.contents sink.old) (K.contents sink.new) }
{
    let outcome = run(rt, source, sink);
    ExitCode::from(finish(rt, outcome))
}

fn main(rt: HostRuntime) -> ExitCode {
    answer_script(
        &rt,
        &mut Watched::new(rt.reader()),
        &mut Watched::new(io::writer(&rt)),
    )
}
