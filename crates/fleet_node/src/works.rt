//! What is done with an open node, whatever its log.
ghost use Rattle.std.specs.Prelude.{◌≡◌, [], false, IfOk, IfSome, OnOk, option_map};
ghost use Rattle.fleet_node.specs.Jobs.{IsHostOf};
ghost use Rattle.node_commands.specs.Works.{Commits, replica_after};
ghost use Rattle.node_exchange.specs.Later.{IsLater};

use crate::faults::FleetFault;
use durable_node::{EditLog, NodeFault, NodeFile};
use file_scripts::{LastingHome, run_at};
use fleet_script::KeptFault;
use host_trees::tree;
use load_places::HostName;
use node_commands::{CommandFault, Work, do_work};
use node_exchange::{call, respond};
use script_pipes::Watched;
use std::alloc::Global;
use std::io;
use std::random::RandomSource;
use std::rt::Clock;
use std::sync::Wait;
use std::thread::Threads;
use std::time::{SystemTime, UNIX_EPOCH};
use tree_files::write_tree;

/// What is to be done with an open node.
#[derive(Drop)]
pub enum Job<'a> {
    /// Answer the script on standard input.
    Script,
    /// A piece of work, whose answer goes to standard output.
    Work(Work),
    /// Exchange what differs with another node on standard input and output: begin, or let it begin.
    Exchange {
        calls: bool,
    },
    /// Write the unit files into a folder: those that a host sees, or the fleet's.
    Tree {
        folder: &'a str,
        host: Option<HostName>,
    },
}

/// The time in seconds since 1970, or 0 if the clock can't be read.
pub fn now(rt: &impl Clock) -> u32 {
    let Ok(time) = SystemTime::now(rt) else {
        return 0;
    };
    let Ok(since) = time.duration_since(UNIX_EPOCH) else {
        return 0;
    };
    u32::try_from(since.as_secs()).unwrap_or(u32::MAX)
}

/// The host of a tree, if it has one.
pub fn host_of(alloc: Global, host: Option<&str>) -> Result<Option<HostName>, FleetFault>
    ensures host { IfOk result (λ made. IsHostOf (option_map (λ h. h.now) host.entry) made) }
{
    match host {
        Some(name) => Ok(Some(HostName::parse(alloc, name.as_bytes())?)),
        None => Ok(None),
    }
}

// Why a script was not answered to its end. `refused` is what the node's log refused.
fn fault_of(fault: KeptFault, refused: Option<NodeFault>) -> FleetFault {
    match fault {
        KeptFault::Read => FleetFault::Command(CommandFault::Read),
        KeptFault::Write => FleetFault::Command(CommandFault::Write),
        KeptFault::Memory => FleetFault::Memory,
        KeptFault::Unkept => {
            FleetFault::Command(CommandFault::Node(refused.unwrap_or(NodeFault::Disk)))
        }
    }
}

// Answers the script on standard input at the node.
fn answer_script<W: AllocGlobal + Threads + Wait + Sync, L: EditLog + Drop>(
    rt: &HostRuntime,
    workers: &W,
    node: NodeFile<L>,
) -> Result<(), FleetFault>
    requires whole { node.is_spent ≡ false }
    requires saved { node.unsaved ≡ [] }
{
    let mut home = LastingHome::new(node, now(rt));
    let mut source = Watched::new(rt.reader());
    let mut sink = Watched::new(io::writer(rt));
    match run_at(workers, &mut home, &mut source, &mut sink) {
        Ok(()) => Ok(()),
        Err(fault) => Err(fault_of(fault, home.refused())),
    }
}

// Writes the unit files that a host sees, or the fleet's, into a folder.
fn write_files<L: EditLog>(
    rt: &HostRuntime,
    node: &NodeFile<L>,
    folder: &str,
    host: Option<&HostName>,
) -> Result<(), FleetFault> {
    let tree = tree(rt.alloc(), node.replica().store(), host)?;
    write_tree(rt, folder, &tree)?;
    Ok(())
}

// Does a piece of work at the node, and writes its answer to standard output.
fn answer_work<L: EditLog>(
    rt: &HostRuntime,
    node: &mut NodeFile<L>,
    work: &Work,
) -> Result<(), FleetFault>
    ensures replica { OnOk result (node.new.replica ≡ replica_after work.now node.old.replica) }
    ensures committed { L.is_honest node.new.log → OnOk result (Commits work.now
        (L.held node.new.log) (L.may_leave node.new.log) node.new.replica.store) }
{
    let mut sink = Watched::new(io::writer(rt));
    do_work(rt.alloc(), node, work, now(rt), &mut sink)?;
    Ok(())
}

// A seed of prints, which no other exchange has. `Read` if the system gives no random bytes.
fn seed_of(rt: &impl RandomSource) -> Result<u64, FleetFault> {
    let mut bytes = [0; 8];
    match rt.fill_bytes(&mut bytes) {
        Ok(()) => Ok(u64::from_le_bytes(bytes)),
        Err(_) => Err(FleetFault::Command(CommandFault::Read)),
    }
}

// Exchanges what differs with the node that standard input and output lead to.
fn exchange<L: EditLog>(
    rt: &HostRuntime,
    node: &mut NodeFile<L>,
    calls: bool,
) -> Result<(), FleetFault>
    requires whole { node.old.is_spent ≡ false }
    requires saved { node.old.unsaved ≡ [] }
    ensures later { IsLater L.is_honest L.head L.may_leave node.old node.new }
    ensures saved { OnOk result (node.new.unsaved ≡ []) }
{
    let mut source = Watched::new(rt.reader());
    let mut sink = Watched::new(io::writer(rt));
    if calls {
        let seed = seed_of(rt)?;
        call(rt.alloc(), node, seed, now(rt), &mut source, &mut sink)?;
    } else {
        respond(rt.alloc(), node, now(rt), &mut source, &mut sink)?;
    }
    Ok(())
}

/// Does what is to be done with a node that was just opened, and drops it. Scripts load units by threads of `workers`.
pub fn do_job<W: AllocGlobal + Threads + Wait + Sync, L: EditLog + Drop>(
    rt: &HostRuntime,
    workers: &W,
    mut node: NodeFile<L>,
    job: Job<'_>,
) -> Result<(), FleetFault>
    requires whole { node.is_spent ≡ false }
    requires saved { node.unsaved ≡ [] }
{
    match job {
        Job::Script => answer_script(rt, workers, node),
        Job::Work(work) => answer_work(rt, &mut node, &work),
        Job::Exchange { calls } => exchange(rt, &mut node, calls),
        Job::Tree { folder, host } => write_files(rt, &node, folder, host.as_ref()),
    }
}
