//! Shells that begin with a node, and what is kept of the first node.
ghost use Rattle.std.specs.Prelude.{◌≡◌, ◌⊎◌, ◌==◌, ℕ, IfOk, IsErrOf, OnErr, OnOk, true, cond};
ghost use Rattle.std.specs.{BTreeSet.{contains}, Io.KnownBytes.{Appends}, List.{list_any}, Ordering.{nat_cmp}};
ghost use Rattle.script_pipes.specs.{Failures.{FailedSince}, KnownBytes.{AppendsPrefix}};
ghost use Rattle.script_homes.specs.Homes.{StaysKept};
ghost use Rattle.edit_sums.specs.Sums.{edits_of};
ghost use Rattle.script_worlds.specs.Worlds.{begun};
ghost use Rattle.fleet_script.specs.Holds.{FirstIsHeld, Holds, kept_in};

use crate::states::Shell;
use fleet_answers::{SnapshotLimit, TrackedReplica};
use plain_values::Bytes;
use profiles::Profile;
use replica_store::{Replica, Store};
use script_answers::WorkerCount;
use script_homes::{Home, KeptFault, write_kept};
use script_pipes::Sink;
use std::alloc::{AllocError, Global};
use std::collections::{BTreeMap, BTreeSet};

// A number, and those of the writers of a store's entries.
fn writers_with(number: u32, store: &Store) -> Result<BTreeSet<u32>, AllocError>
    ensures writers { IfOk result (λ writers. (n : ℕ) → contains nat_cmp writers n
        ≡ cond (number == n) true (list_any (λ e. e.version.writer == n) (edits_of store.now))) }
{
    let mut writers = BTreeSet::new(store.allocator());
    writers.insert(number)?;
    let mut left = store.entries();
    while let Some(placed) = left.next_entry() {
        writers.insert(placed.entry().version.writer)?;
    }
    Ok(writers)
}

impl Shell {
    /// A shell with one node, which holds what a replica does.
    pub(crate) fn begun(alloc: Global, name: &[u8], replica: Replica) -> Result<Shell, AllocError>
        ensures begun { IfOk result
            (λ shell. Holds (kept_in shell) (begun name.now replica.writer replica.store)) }
    {
        let writers = writers_with(replica.writer(), replica.store())?;
        let mut numbers = BTreeMap::new(alloc);
        numbers.insert(Bytes::from_slice(alloc, name)?, 0)?;
        let mut nodes = Vec::new(alloc);
        nodes.push(TrackedReplica::new(replica))?;
        Ok(Shell {
            nodes,
            numbers,
            writers,
            pieces: BTreeMap::new(alloc),
            profile: Profile::Files,
            workers: WorkerCount::one(),
            snapshots: SnapshotLimit::new(alloc),
        })
    }

    /// Has a home keep what the first node holds, nothing where there is no node, and then writes the answers so far.
    pub(crate) fn write_kept<H: Home, K: Sink>(
        &self,
        alloc: Global,
        home: &mut H,
        writer: &mut K,
        pending: &[u8],
    ) -> Result<(), KeptFault>
        ensures written { OnOk result
            (Appends (K.contents writer.old) (K.contents writer.new) pending.now) }
        ensures prefix { OnErr result
            (AppendsPrefix (K.contents writer.old) (K.contents writer.new) pending.now) }

        // What the first node holds is kept before an answer is written.
        ensures held { OnOk result
            (FirstIsHeld (kept_in self.now) (H.holds home.old) (H.holds home.new)) }
        ensures first { (writer.new ≡ writer.old)
            ⊎ FirstIsHeld (kept_in self.now) (H.holds home.old) (H.holds home.new) }
        ensures kept { StaysKept (H.keeps home.old) (H.keeps home.new) }
        ensures write { IsErrOf result KeptFault.Write
            → FailedSince (K.refusals writer.old) (K.refusals writer.new) }
        ensures unrefused { OnOk result (K.refusals writer.new ≡ K.refusals writer.old) }
        ensures read { IsErrOf result KeptFault.Read → ⊥ }
    {
        match self.nodes.first() {
            Some(node) => write_kept(home, node.replica().store(), writer, pending),
            None => write_kept(home, &Store::new(alloc), writer, pending),
        }
    }
}
