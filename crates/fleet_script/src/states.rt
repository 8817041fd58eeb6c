//! The state of the shell.
ghost use Rattle.std.specs.{Prelude.{◌≡◌, ◌<◌, ℕ, List, Some, length}, BTreeMap.{get}, Cmp.Lexicographic.{slice_cmp}, Ordering.{nat_cmp}};

use delta_pieces::Piece;
use fleet_answers::{SnapshotLimit, TrackedReplica};
use plain_values::Bytes;
use profiles::Profile;
use replica_store::Replica;
use script_answers::WorkerCount;
use script_commands::{Fault, LineRefusal};
use std::alloc::Global;
use std::collections::{BTreeMap, BTreeSet};

mod beginnings;
mod changes;
mod exchanges;
mod execution;
mod questions;

/// The answer to a command: its text, or why the command was not executed.
type Rendered = Result<Vec<u8>, Fault>;

/// The current replica of each node, in the order in which the nodes were made; by name the indices of the nodes, from
/// 0, and the current pieces; the writer numbers in use; and the profile by which questions about units are answered.
/// Also the worker count, and what each node may have cached of the last questions, neither of which changes any answer.
pub(crate) struct Shell {
    nodes: Vec<TrackedReplica>,
    numbers: BTreeMap<Bytes, usize>,
    writers: BTreeSet<u32>,
    pieces: BTreeMap<Bytes, Piece>,
    profile: Profile,
    workers: WorkerCount,
    snapshots: SnapshotLimit,

    // Each index is that of a node. If memory runs out while a node is made, a node may be left without a name.
    ghost within: { (name : List ℕ) (at : ℕ) → get (slice_cmp nat_cmp) numbers name ≡ Some at
        → at < length nodes.items },
}

impl Drop for Shell {
    fn drop(self) {
        let Shell {
            nodes: _,
            numbers: _,
            writers: _,
            pieces: _,
            profile: _,
            workers: _,
            snapshots: _,
        } = self;
    }
}

impl Shell {
    ghost use Rattle.std.specs.Prelude.{IfOk, MatchResult};
    ghost use Rattle.fleet_script.specs.Holds.{HasNoNode, IsBlank, IsNodeNamed, kept_in};

    /// A shell without nodes and pieces. Questions about units are answered as their files say alone.
    pub(crate) fn new(alloc: Global) -> Self
        ensures blank { IsBlank (kept_in result) }
    {
        Shell {
            nodes: Vec::new(alloc),
            numbers: BTreeMap::new(alloc),
            writers: BTreeSet::new(alloc),
            pieces: BTreeMap::new(alloc),
            profile: Profile::Files,
            workers: WorkerCount::one(),
            snapshots: SnapshotLimit::new(alloc),
        }
    }

    // The index of the node with a name, or the refusal that there is none.
    fn node_at(&self, alloc: Global, name: &[u8]) -> Result<usize, Fault>
        ensures within { IfOk result (λ at. at < length self.now.nodes.items) }
        ensures found { MatchResult result (λ at. (kept_in self.now).number_of name.now ≡ Some at)
            (HasNoNode (kept_in self.now) name.now) }
    {
        let name = Bytes::from_slice(alloc, name)?;
        match self.numbers.get(&name) {
            Some(at) => Ok(*at),
            None => Err(Fault::Refused(LineRefusal::UnknownNode)),
        }
    }

    // The replica of the node with a name, or the refusal that there is none.
    fn replica(&self, alloc: Global, name: &[u8]) -> Result<&Replica, Fault>
        ensures found { MatchResult result
            (λ replica. IsNodeNamed (kept_in self.now) name.now replica.now)
            (HasNoNode (kept_in self.now) name.now) }
    {
        let at = self.node_at(alloc, name)?;
        Ok(self.nodes[at].replica())
    }
}
