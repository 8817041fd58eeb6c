//! Nodes that last.
ghost use Rattle.std.specs.Prelude.{◌++◌, ◌≡◌, ◌<◌, ◌^◌, ◌≤◌, ◌+◌, MatchOption, false};
ghost use Rattle.edit_sums.specs.Sums.{high_among, high_of, join, sum_of};
ghost use Rattle.replica_store.specs.Replicas.{next_version};
ghost use Rattle.edit_log.specs.Logs.{edits_in, LeavesJust};

use edit_log::{EditLog, LogHead};
use edit_sums::Edit;
use join_law::Version;
use replica_store::Replica;
use std::marker::Model;

/// The number of the format that this crate reads and writes.
pub const FORMAT: u32 = 1;

/// A counter is below this: what a log holds of one has 63 bits.
pub(crate) const COUNTERS: u64 = 1 << 63;

/// A node whose edits stand in a log. It holds in memory what the log comes to, and what it wrote and took since the last
/// commit.
#[derive(Drop)]
pub struct NodeFile<L: EditLog> {
    pub(crate) log: L,
    pub(crate) replica: Replica,
    // What it wrote and took since the last commit, in this order.
    pub(crate) unsaved: Vec<Edit>,
    // A call was refused by the log.
    pub(crate) is_spent: bool,
}

impl<L: EditLog> Model for NodeFile<L> {
    ghost use Rattle.durable_node.specs.Nodes.{coded_node, IsKept, Node};

    ghost Value = { Node L };

    ghost coded = { coded_node L.code };

    ghost view = { λ n. record {
      log = n.log;
      replica = n.replica;
      unsaved = n.unsaved.items;
      is_spent = n.is_spent;
    } };

    ghost invariant = { λ n. IsKept L.is_honest L.is_running L.held
        (record {
          log = n.log;
          replica = n.replica;
          unsaved = n.unsaved.items;
          is_spent = n.is_spent;
        }) };
}

impl<L: EditLog> NodeFile<L> {
    /// Borrows its replica. If its files are honest, the replica's store is the join of what the log comes to and of what
    /// the node wrote and took since the last commit. So the next version is one above all counters there, as the laws over
    /// all lives have it. A crash leaves what stands in the log (`lasts`).
    pub fn replica(&self) -> &Replica
        ensures replica { result.now ≡ self.now.replica }
        ensures sums { self.now.is_spent ≡ false → L.is_honest self.now.log → result.now.store
            ≡ join (sum_of (edits_in (L.held self.now.log))) (sum_of self.now.unsaved) }
        ensures high { self.now.is_spent ≡ false → L.is_honest self.now.log
            → high_of result.now.store
            ≡ high_among (edits_in (L.held self.now.log) ++ self.now.unsaved) }
        ensures lasts { self.now.is_spent ≡ false → L.is_honest self.now.log
            → LeavesJust (L.held self.now.log) (L.may_leave self.now.log) }
    {
        &self.replica
    }

    /// Returns its log, and drops the rest.
    pub fn into_log(self) -> L
        ensures log { result ≡ self.log }
    {
        let NodeFile {
            log,
            replica: _,
            unsaved: _,
            is_spent: _,
        } = self;
        log
    }

    /// Returns what its log says of itself.
    pub fn head(&self) -> LogHead
        ensures head { result ≡ L.head self.now.log }
    {
        self.log.head()
    }

    /// Borrows what it wrote and took since the last commit.
    pub fn unsaved(&self) -> &[Edit]
        ensures unsaved { result.now ≡ self.now.unsaved }
    {
        &self.unsaved
    }

    /// Returns whether a call was refused by its log, so that it has to be opened anew.
    pub fn is_spent(&self) -> bool
        ensures spent { result ≡ self.now.is_spent }
    {
        self.is_spent
    }
}

// The version of a replica's next edit. None if no log holds its counter.
pub(crate) fn next_version(replica: &Replica) -> Option<Version>
    ensures next { MatchOption result (2 ^ 63 ≤ high_of replica.now.store + 1)
        (λ version. (version ≡ next_version replica.now) × (version.counter < 2 ^ 63)) }
{
    let high = replica.high();
    if high >= COUNTERS - 1 {
        return None;
    }
    Some(Version {
        counter: high + 1,
        writer: replica.writer(),
    })
}
