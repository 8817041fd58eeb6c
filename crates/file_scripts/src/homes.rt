//! A node that lasts, as the home of a script.
ghost use Rattle.std.specs.Prelude.{◌≡◌, None, OnOk};
ghost use Rattle.script_homes.specs.Homes.{IsHeldNext, StaysKept};
ghost use Rattle.file_scripts.specs.{Kept.{IsFoundIn, IsHeldIn}, KeptLaws.{found_from_held}};

use durable_node::{EditLog, NodeFault, NodeFile};
use fleet_script::{Home, Unkept};
use replica_store::Store;

/// A node that lasts, as the home of a script: what the script's node holds is committed to its log.
#[derive(Drop)]
pub struct LastingHome<L: EditLog> {
    pub(crate) node: NodeFile<L>,
    // The time of commits, in seconds since 1970.
    time: u32,
    // Why something was not kept.
    refused: Option<NodeFault>,
}

impl<L: EditLog> LastingHome<L> {
    /// Makes a home of a node. Each commit gets this time, in seconds since 1970.
    pub fn new(node: NodeFile<L>, time: u32) -> LastingHome<L>
        ensures node { result.node ≡ node }
        ensures time { result.time ≡ time }
        ensures whole { result.refused ≡ None }
    {
        LastingHome {
            node,
            time,
            refused: None,
        }
    }

    /// Why something was not kept, if anything was not.
    pub fn refused(&self) -> Option<NodeFault>
        ensures refused { result ≡ self.now.refused }
    {
        self.refused
    }
}

// Joins a store into the node, and commits what was news.
fn kept<L: EditLog>(node: &mut NodeFile<L>, store: &Store, time: u32) -> Result<(), NodeFault>
    ensures held { OnOk result
        (IsHeldNext store.now (IsHeldIn L.is_honest L.held L.may_leave node.old)
        (IsHeldIn L.is_honest L.held L.may_leave node.new)) }
    ensures kept { StaysKept (IsFoundIn L.is_honest L.may_leave node.old)
        (IsFoundIn L.is_honest L.may_leave node.new) }
{
    node.join(store)?;
    node.commit(time)
}

impl<L: EditLog> Home for LastingHome<L> {
    ghost holds = { λ home s. IsHeldIn L.is_honest L.held L.may_leave home.node s };

    ghost keeps = { λ home s. IsFoundIn L.is_honest L.may_leave home.node s };

    ghost lasts = { λ home s held.
        found_from_held L.is_honest L.held L.may_leave home.node s held };

    fn keep(&mut self, store: &Store) -> Result<(), Unkept> {
        match kept(&mut self.node, store, self.time) {
            Ok(()) => Ok(()),
            Err(fault) => {
                self.refused = Some(fault);
                Err(Unkept)
            }
        }
    }

    fn is_bound(&self) -> bool {
        true
    }
}
