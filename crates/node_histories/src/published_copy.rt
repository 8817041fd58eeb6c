//! What a node publishes: a replica, with the history whose sum its store is.
ghost use Rattle.std.specs.{Prelude.{◌≡◌, ◌-◌, ◌<◌, ◌^◌, ◌++◌, ◌∷◌, [], IfOk, IfSome, IfNone}, Arc.{arc_value}};
ghost use mathlib.Core.List.{IsPrefix};
ghost use Rattle.edit_sums.specs.Sums.{changed_places};
ghost use Rattle.replica_store.specs.Replicas.{next_version};
ghost use Rattle.node_histories.specs.declared.events.HistoryEvent.TheVariants.{Opening, Edited, Absorbed};
ghost use Rattle.node_histories.specs.Histories.{store_of, counter_of, replica_of, takes_in, opening_of, all_edits, IsLegal, IsNext};
ghost use Rattle.node_histories.specs.{Books.{head_of}, Codes.{replica-prop, IsLegal-prop}};

use crate::book::{Head, History, NodeName};
use crate::events::{Asked, Takeable};
use crate::prefixes::{HistoryPrefix, Turn};
use delta_pieces::{Piece, take};
use edit_sums::{Content, Edit};
use join_law::Version;
use left_right::Absorb;
use load_places::Place;
use replica_store::Replica;
use std::alloc::{AllocError, Global};
use std::sync::Arc;

/// A replica, a token of the history whose sum it is, and the number of takes. Copies share the replica.
pub struct PublishedCopy {
    replica: Arc<Replica, Global>,
    takes: u64,
    pub seen: History,
    pub ghost kept: { arc_value replica
        ≡ replica_of seen.log } by { replica-prop (arc_value replica) (replica_of seen.log) },
    pub ghost counted: { takes ≡ takes_in seen.log },
    pub ghost legal: { IsLegal (opening_of seen.log) seen.log } by { IsLegal-prop
        (opening_of seen.log) seen.log },
}

impl Drop for PublishedCopy {
    fn drop(self) {
        let PublishedCopy {
            replica: _,
            takes: _,
            seen: _,
        } = self;
    }
}

// The published copy of a replica that is the sum of what the prefix has seen.
fn published_copy_of<N: NodeName>(
    prefix: &HistoryPrefix<N>,
    replica: Arc<Replica, Global>,
) -> PublishedCopy
    requires kept { arc_value replica ≡ replica_of prefix.now }
    ensures log { result.seen.log ≡ prefix.now }
    ensures book { result.seen.book ≡ N.book }
    ensures opening { opening_of result.seen.log ≡ N.opening }
    ensures replica { arc_value replica ≡ replica_of result.seen.log }
{
    PublishedCopy {
        replica,
        takes: prefix.takes(),
        seen: prefix.history(),
    }
}

// Adds the event to the history, and returns the published copy of a replica that has the event already.
fn next_copy<N: NodeName>(
    turn: Turn<N>,
    head: &Head,
    replica: Replica,
) -> Result<PublishedCopy, AllocError>
    requires head { head.now ≡ head_of N.book }
    requires room { takes_in turn.seen < 2 ^ 64 - 1 }
    requires legal { IsNext N.opening.writer (all_edits turn.seen) turn.ask }
    requires kept { replica ≡ replica_of (turn.seen ++ turn.ask ∷ []) }
    ensures log { IfOk result
        (λ published_copy. published_copy.seen.log ≡ turn.seen ++ turn.ask ∷ []) }
    ensures book { IfOk result (λ published_copy. published_copy.seen.book ≡ N.book) }
    ensures opening { IfOk result
        (λ published_copy. opening_of published_copy.seen.log ≡ N.opening) }
    ensures replica { IfOk result (λ published_copy. replica ≡ replica_of published_copy.seen.log) }
{
    let alloc = replica.store().allocator();
    let shared = Arc::new(alloc, replica)?;
    let Some(prefix) = turn.add(head) else {
        return Err(AllocError);
    };
    Ok(published_copy_of(&prefix, shared))
}

impl PublishedCopy {
    /// The published copy of a node that opens over a replica. Fails only if memory runs out.
    pub fn opening(replica: Replica, seen: &History) -> Result<PublishedCopy, AllocError>
        requires opened { seen.now.log ≡ Opening replica ∷ [] }
        ensures seen { IfOk result (λ published_copy. published_copy.seen ≡ seen.now) }
    {
        let alloc = replica.store().allocator();
        Ok(PublishedCopy {
            replica: Arc::new(alloc, replica)?,
            takes: 0,
            seen: seen.again(),
        })
    }

    /// A copy, which shares the replica. Fails only if there are too many copies.
    pub fn try_clone(&self) -> Result<PublishedCopy, AllocError>
        ensures seen { IfOk result (λ published_copy. published_copy.seen ≡ self.now.seen) }
    {
        Ok(PublishedCopy {
            replica: Arc::try_clone(&self.replica)?,
            takes: self.takes,
            seen: self.seen.again(),
        })
    }

    /// The replica that the history gives, borrowed.
    pub fn replica(&self) -> &Replica
        ensures replica { result.now ≡ replica_of self.now.seen.log }
    {
        &self.replica
    }

    /// How many takes its history has. Allocates nothing.
    pub fn takes(&self) -> u64
        ensures takes { result ≡ takes_in self.now.seen.log }
        ensures legal { IsLegal (opening_of self.now.seen.log) self.now.seen.log }
    {
        self.takes
    }

    /// The greatest counter of its history. Allocates nothing.
    pub fn counter(&self) -> u64
        ensures counter { result ≡ counter_of self.now.seen.log }
    {
        self.replica.high()
    }

    /// What the published copy has seen, as a prefix of its node's history. Allocates nothing.
    pub fn prefix<N: NodeName>(&self) -> HistoryPrefix<N>
        requires book { self.now.seen.book ≡ N.book }
        requires opening { opening_of self.now.seen.log ≡ N.opening }
        ensures seen { result ≡ self.now.seen.log }
    {
        HistoryPrefix::of(self.takes, &self.seen)
    }

    /// What the published copy has seen, if it extends this prefix of its node's history. None if it is shorter.
    /// Allocates nothing.
    pub fn onward<N: NodeName>(&self, prefix: &HistoryPrefix<N>) -> Option<HistoryPrefix<N>>
        requires book { self.now.seen.book ≡ N.book }
        ensures seen { IfSome result (λ f. f ≡ self.now.seen.log) }
        ensures goes_on { IfSome result (λ f. IsPrefix prefix.now f) }
        ensures none { IfNone result (takes_in self.now.seen.log < takes_in prefix.now) }
    {
        prefix.onward(self.takes, &self.seen)
    }

    // What the published copy has seen, with the seat's request, which is returned too.
    fn turn_to<N: NodeName, T: Takeable>(&self, seat: u64, what: T) -> (Turn<N>, T)
        requires book { self.now.seen.book ≡ N.book }
        requires opening { opening_of self.now.seen.log ≡ N.opening }
        ensures seen { result.0.seen ≡ self.now.seen.log }
        ensures ask { result.0.ask ≡ T.event seat what }
        ensures what { result.1 ≡ what }
    {
        let asked = Asked { seat, what };
        let turn = self.prefix::<N>().ask(&asked);
        (turn, asked.what)
    }

    /// A published copy with one more edit, under the next version. The history has the edit too. Costs one copy of the
    /// replica, which copies no contents. Fails only if memory runs out; the history is then as it was.
    pub fn with_edit<N: NodeName>(
        &self,
        head: &Head,
        seat: u64,
        place: Place,
        content: Content,
    ) -> Result<(Version, PublishedCopy), AllocError>
        requires book { self.now.seen.book ≡ N.book }
        requires opening { opening_of self.now.seen.log ≡ N.opening }
        requires head { head.now ≡ head_of N.book }
        requires room { takes_in self.now.seen.log < 2 ^ 64 - 1 }
        requires counter { counter_of self.now.seen.log < 2 ^ 64 - 1 }
        ensures version { IfOk result (λ r. r.0 ≡ next_version (replica_of self.now.seen.log)) }
        ensures log { IfOk result (λ r. r.1.seen.log ≡ self.now.seen.log
            ++ Edited seat (record { place = place; version = r.0; content = content }) ∷ []) }
        ensures book { IfOk result (λ r. r.1.seen.book ≡ N.book) }
        ensures opening { IfOk result (λ r. opening_of r.1.seen.log ≡ N.opening) }
    {
        let mut replica = self.replica.try_clone()?;
        let version = Version {
            counter: self.counter() + 1,
            writer: replica.writer(),
        };
        let edit = Edit {
            place,
            version,
            content,
        };
        let (turn, edit) = self.turn_to::<N, Edit>(seat, edit);
        let (place, _, content) = edit.into_parts();
        let Ok(version) = replica.put(place, content) else {
            return Err(AllocError);
        };
        let published_copy = next_copy(turn, head, replica)?;
        Ok((version, published_copy))
    }

    /// A published copy with one more piece, and how many places changed. The history has the piece too. Costs one copy
    /// of the replica, which copies no contents. Fails only if memory runs out; the history is then as it was.
    pub fn with_piece<N: NodeName>(
        &self,
        head: &Head,
        seat: u64,
        piece: Piece,
    ) -> Result<(u64, PublishedCopy), AllocError>
        requires book { self.now.seen.book ≡ N.book }
        requires opening { opening_of self.now.seen.log ≡ N.opening }
        requires head { head.now ≡ head_of N.book }
        requires room { takes_in self.now.seen.log < 2 ^ 64 - 1 }
        ensures changed { IfOk result
            (λ r. r.0 ≡ changed_places (store_of self.now.seen.log) (store_of r.1.seen.log)) }
        ensures log { IfOk result
            (λ r. r.1.seen.log ≡ self.now.seen.log ++ Absorbed seat piece ∷ []) }
        ensures book { IfOk result (λ r. r.1.seen.book ≡ N.book) }
        ensures opening { IfOk result (λ r. opening_of r.1.seen.log ≡ N.opening) }
    {
        let mut replica = self.replica.try_clone()?;
        let (turn, piece) = self.turn_to::<N, Piece>(seat, piece);
        let Ok(changed) = take(&mut replica, piece) else {
            return Err(AllocError);
        };
        let published_copy = next_copy(turn, head, replica)?;
        Ok((changed, published_copy))
    }
}

/// An operation is the next published copy.
impl Absorb<PublishedCopy> for PublishedCopy {
    type State = History;

    ghost state = { λ p. p.seen };

    ghost applied = { λ s p. p.seen };

    fn absorb_first(
        &mut self,
        operation: &PublishedCopy,
        _other: &PublishedCopy,
    ) -> Result<(), AllocError> {
        *self = operation.try_clone()?;
        Ok(())
    }

    fn absorb_second(
        &mut self,
        operation: PublishedCopy,
        _other: &PublishedCopy,
    ) -> Result<(), PublishedCopy> {
        *self = operation;
        Ok(())
    }
}
