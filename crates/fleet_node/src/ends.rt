//! What is done over a file, and how the program ends.
ghost use Rattle.std.specs.Prelude.{◌≡◌, IfOk};
ghost use Rattle.fleet_node.specs.Jobs.{IsJobFor};
ghost use Rattle.fleet_node.specs.Status.{status_of};

use crate::faults::FleetFault;
use crate::requests::{Asked, FileRequest};
use crate::works::{Job, do_job, host_of, now};
use join_law::Version;
use load_places::Place;
use node_commands::{CommandFault, Work, read_digest, read_piece};
use node_files::{compact, create, open};
use script_pipes::Watched;
use sqlite::Unknown;
use std::sync::Wait;
use std::thread::Threads;

fn init(rt: &HostRuntime, file: &str, writer: u32) -> Result<(), CommandFault> {
    create(rt, file, writer, Unknown)?;
    Ok(())
}

// Opens the file, and does a job over it.
fn over_file<W: AllocGlobal + Threads + Wait + Sync>(
    rt: &HostRuntime,
    workers: &W,
    file: &str,
    job: Job<'_>,
) -> Result<(), FleetFault> {
    let node = open(rt, file, Unknown)?;
    do_job(rt, workers, node, job)
}

// What is to be done over a file, with what is read for it. Bytes are read before the file is opened, so that one pipe may
// lead from a file over another one back to it.
fn job_of<'a>(rt: &HostRuntime, asked: &Asked<'a>) -> Result<Job<'a>, FleetFault>
    ensures job { IfOk result (IsJobFor asked.now) }
{
    let alloc = rt.alloc();
    Ok(match *asked {
        Asked::Run => Job::Script,
        Asked::Digest => Job::Work(Work::Digest),
        Asked::Store => Job::Work(Work::Store),
        Asked::Id => Job::Work(Work::Id),
        Asked::Delta => {
            Job::Work(Work::Delta(read_digest(alloc, &mut Watched::new(rt.reader()))?))
        }
        Asked::Take => Job::Work(Work::Take(read_piece(alloc, &mut Watched::new(rt.reader()))?)),
        Asked::Exchange { calls } => Job::Exchange { calls },
        Asked::History { place } => {
            Job::Work(Work::History(Place::parse(alloc, place.as_bytes())?))
        }
        Asked::Log => Job::Work(Work::Log),
        Asked::Peers => Job::Work(Work::Peers),
        Asked::Content {
            place,
            counter,
            writer,
        } => Job::Work(Work::Content {
            place: Place::parse(alloc, place.as_bytes())?,
            version: Version { counter, writer },
        }),
        Asked::Tree { folder, host } => Job::Tree {
            folder,
            host: host_of(alloc, host)?,
        },
    })
}

/// Does what is asked for. Scripts load units by threads of `workers`.
pub fn run<W: AllocGlobal + Threads + Wait + Sync>(
    rt: &HostRuntime,
    workers: &W,
    request: &FileRequest,
) -> Result<(), FleetFault> {
    match *request {
        FileRequest::Init { file, writer } => init(rt, file, writer)?,
        FileRequest::Compact { file } => compact(rt, file, now(rt), Unknown, Unknown)?,
        FileRequest::Over { file, ref asked } => over_file(rt, workers, file, job_of(rt, asked)?)?,
    }
    Ok(())
}

/// Writes to standard error why something was not done, and returns the exit status.
///
/// If standard error refuses the line, it is lost: there is nowhere left to report that.
pub fn finish(rt: &impl Eprint, outcome: Result<(), FleetFault>) -> u8
    ensures status { result ≡ status_of outcome }
{
    match outcome {
        Ok(()) => 0,
        Err(fault) => {
            let _ = eprintln!(rt; "fleet: {fault}");
            1
        }
    }
}
