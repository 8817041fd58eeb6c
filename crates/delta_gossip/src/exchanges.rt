//! Bringing two replicas together.
ghost use Rattle.std.specs.Prelude.{IfOk, OnErr};
ghost use Rattle.delta_gossip.specs.Exchanges.{AreBeingJoined, AreJoined};

use replica_store::Replica;
use std::alloc::AllocError;

/// Brings two replicas together: both then hold the join of their stores. Returns how many places changed in each.
///
/// Merges whole stores, without digests, so the result doesn't depend on unique versions: even if one version belongs
/// to two different edits, both replicas hold the same afterwards. Each map of ranks, folders or names that gets new
/// keys grows once; the stores are passed over twice.
///
/// Fails only if memory runs out. Each store then lies between its old state and the join, and the call can be
/// repeated.
pub fn exchange(a: &mut Replica, b: &mut Replica) -> Result<(u64, u64), AllocError>
    ensures ok { IfOk result (AreJoined a.old b.old a.new b.new) }
    ensures err { OnErr result (AreBeingJoined a.old b.old a.new b.new) }
{
    let first = a.merge(b.store())?;
    let second = b.merge(a.store())?;
    Ok((first, second))
}
