//! Two replicas that are reconciled in one process.
ghost use Rattle.std.specs.Prelude.{◌≡◌, ◌++◌, ◌⊎◌, IfOk, MatchOption, OnOk};
ghost use Rattle.edit_sums.specs.Sums.{edits_of, EntryMap, IsStoreBelow, join};
ghost use Rattle.world_law.specs.Cuts.{AreToldApart};
ghost use Rattle.exchange_session.specs.Runs.{AreDone, Collided, Run, said_of};

use crate::messages::Message;
use crate::replies::{open, reply, take_all, take_one};
use delta_pieces::delta_between;
use replica_store::Replica;
use std::alloc::{AllocError, Global};

// The most turns in which both sides compare ranges. Each turn leaves a part a quarter of its range's versions, so that this
// is more than any store needs that memory holds.
const MOST_TURNS: u32 = 64;

// Has the other side answer a message, and then this one. Returns this side's answer; none once neither has more to say.
fn turn_both(
    alloc: Global,
    seed: u64,
    one: &mut Replica,
    other: &mut Replica,
    message: Message,
) -> Result<Option<Message>, AllocError>
    ensures run { (s t : EntryMap) → Run seed s t one.old.store other.old.store (said_of message) →
        IfOk result (λ next. MatchOption next (AreDone seed s t one.new.store other.new.store)
        (λ told. Run seed s t one.new.store other.new.store (said_of told))) }
    ensures kept { IsStoreBelow one.old.store one.new.store }
    ensures others_kept { IsStoreBelow other.old.store other.new.store }
    ensures writer { one.new.writer ≡ one.old.writer }
    ensures others_writer { other.new.writer ≡ other.old.writer }
{
    let back = reply(alloc, other, seed, message)?;
    if back.is_quiet() {
        take_all(one, back.into_pieces())?;
        return Ok(None);
    }
    let next = reply(alloc, one, seed, back)?;
    if next.is_quiet() {
        take_all(other, next.into_pieces())?;
        return Ok(None);
    }
    Ok(Some(next))
}

// Tells the whole difference to each side.
fn tell_all(alloc: Global, one: &mut Replica, other: &mut Replica) -> Result<(), AllocError>
    ensures joined { OnOk result (AreToldApart (edits_of other.old.store ++ edits_of one.old.store)
        → other.new.store ≡ join other.old.store one.old.store) }
    ensures same { OnOk result (AreToldApart (edits_of one.old.store ++ edits_of other.new.store) →
        one.new.store ≡ join one.old.store other.new.store) }
    ensures kept { IsStoreBelow one.old.store one.new.store }
    ensures others_kept { IsStoreBelow other.old.store other.new.store }
    ensures writer { one.new.writer ≡ one.old.writer }
    ensures others_writer { other.new.writer ≡ other.old.writer }
{
    take_one(other, delta_between(alloc, one, other)?)?;
    take_one(one, delta_between(alloc, other, one)?)
}

/// Has two replicas tell each other what they lack, until neither has anything to say. If no two different edits of one
/// place have one version, both then hold the join of their stores, unless a print was told that was the receiver's own too,
/// though its versions in that range were not the sender's: for a seed by chance, one in 2^64.
///
/// Costs what differs, and a pass over each store in each turn. Fails only if memory runs out; each then lost nothing.
pub fn reconcile(
    alloc: Global,
    seed: u64,
    one: &mut Replica,
    other: &mut Replica,
) -> Result<(), AllocError>
    ensures joined { OnOk result
        (AreToldApart (edits_of one.old.store ++ edits_of other.old.store)
        → Collided seed one.old.store other.old.store
        ⊎ ((one.new.store ≡ join one.old.store other.old.store)
        × (other.new.store ≡ join one.old.store other.old.store))) }
    ensures kept { IsStoreBelow one.old.store one.new.store }
    ensures others_kept { IsStoreBelow other.old.store other.new.store }
    ensures writer { one.new.writer ≡ one.old.writer }
    ensures others_writer { other.new.writer ≡ other.old.writer }
{
    let mut message = open(alloc, one, seed)?;
    for _ in 0..MOST_TURNS {
        match turn_both(alloc, seed, one, other, message)? {
            None => return Ok(()),
            Some(next) => message = next,
        }
    }
    tell_all(alloc, one, other)
}
