//! Bringing any number of replicas together.
ghost use Rattle.std.specs.Prelude.{◌≡◌, ◌∷◌, All, map, OnOk, OnErr};
ghost use Rattle.edit_sums.specs.Sums.{IsStoreBelow};
ghost use Rattle.delta_gossip.specs.Sweeps.{join_of, with_store, AreBetween, IsBetween};

use replica_store::Replica;
use std::alloc::AllocError;

/// Merges every replica into the first, and then the first into every other one: all then hold the join of all stores.
/// For k replicas this takes 2(k - 1) merges, and nothing is copied that is only read.
///
/// Fails only if memory runs out. Each store then lies between its old state and the join of all, and the call can be
/// repeated.
pub fn sweep(replicas: &mut [Replica]) -> Result<(), AllocError>
    ensures joined { OnOk result
        (replicas.new ≡ map (with_store (join_of replicas.old)) replicas.old) }
    ensures between { OnErr result (AreBetween (join_of replicas.old) replicas.old replicas.new) }
    ensures again { OnErr result (join_of replicas.new ≡ join_of replicas.old) }
{
    match replicas.split_first_mut() {
        None => Ok(()),
        Some((first, rest)) => {
            gather(first, rest)?;
            spread(first, rest)
        }
    }
}

// Merges all the others into the first.
fn gather(first: &mut Replica, rest: &[Replica]) -> Result<(), AllocError>
    ensures gathered { OnOk result
        (first.new ≡ with_store (join_of (first.old ∷ rest.now)) first.old) }
    ensures between { OnErr result
        (IsBetween (join_of (first.old ∷ rest.now)) first.old first.new) }
{
    for replica in rest {
        first.merge(replica.store())?;
    }
    Ok(())
}

// Merges the first, which has everything that the others have, into all of them.
fn spread(first: &Replica, rest: &mut [Replica]) -> Result<(), AllocError>
    requires below { All (λ r. IsStoreBelow r.store first.now.store) rest.old }
    ensures spread { OnOk result (rest.new ≡ map (with_store first.now.store) rest.old) }
    ensures between { OnErr result (AreBetween first.now.store rest.old rest.new) }
{
    for replica in rest.iter_mut() {
        replica.merge(first.store())?;
    }
    Ok(())
}
