//! The keeper of a node, as it lies under the lock.
ghost use Rattle.std.specs.Prelude.{◌≡◌, ◌+◌, ◌<◌, ◌⊎◌, ◌∷◌, [], IfOk, IfSome, IfNone, MatchResult};
ghost use Rattle.node_histories.specs.{declared.events.HistoryEvent.TheVariants.{Opening}, Histories.{IsLegal, opening_of, replica_of}};

use crate::account::Account;
use crate::blank::Blank;
use crate::post::Post;
use crate::seat::Seat;
use node_histories::{Head, HistoryPrefix, NodeName, PublishedCopy};
use replica_store::Replica;
use std::alloc::AllocError;
use std::marker::Model;
use std::sync::Wait;

// Contracts see what it has accepted, what is published and how many seats it gave. At most one take is accepted and
// not published, and the counts are those of each seat's takes.
pub(crate) struct Keeper<N: NodeName> {
    pub(crate) head: Head,
    pub(crate) account: Account<N>,
    pub(crate) post: Post<N>,
    pub(crate) given: usize,
}

impl<N: NodeName> Model for Keeper<N> {
    ghost use Rattle.std.specs.Prelude.{◌≡◌, ◌≤◌, ◌+◌};
    ghost use Rattle.node_histories.specs.{Books.{head_of}, Histories.{takes_in}};
    ghost use Rattle.shared_node.specs.{Codes.{coded_keeper}, Keepers.{KeeperNow}};

    ghost Value = { KeeperNow };

    ghost coded = { coded_keeper };

    ghost view = { λ k. record {
      accepted = k.account.takes;
      shown = k.post.shown;
      given = k.given;
    } };

    ghost invariant = { λ k. (k.head ≡ head_of N.book) × (k.post.due ≡ k.account.takes)
        × (k.account.seats ≡ N.seats)
        × (k.given ≤ N.seats) × (takes_in k.account.takes ≤ takes_in k.post.shown + 1) };
}

impl<N: NodeName> Keeper<N> {
    // The keeper of a node that opens: it has no takes, and gave no seat.
    pub(crate) fn open(blank: Blank) -> Keeper<N>
        requires book { blank.book ≡ N.book }
        requires opening { blank.opening ≡ N.opening }
        requires seats { blank.seats ≡ N.seats }
        ensures accepted { result.accepted ≡ Opening N.opening ∷ [] }
        ensures shown { result.shown ≡ Opening N.opening ∷ [] }
        ensures given { result.given ≡ 0 }
    {
        let Blank {
            head,
            seen,
            writer,
            counts,
        } = blank;
        let counter = writer.published().counter();
        Keeper {
            head,
            account: Account::new(HistoryPrefix::of(0, &seen), counter, counts),
            post: Post::new(writer),
            given: 0,
        }
    }

    // Publishes the pending take, if there is one.
    pub(crate) fn flush<R: Wait>(&mut self, rt: &R) -> Result<(), AllocError>
        ensures accepted { self.new.accepted ≡ self.old.accepted }
        ensures given { self.new.given ≡ self.old.given }
        ensures shown { MatchResult result
            (λ _. self.new.shown ≡ self.old.accepted)
            (λ _. self.new.shown ≡ self.old.shown) }
    {
        self.post.send(rt)
    }

    // A seat that has made no take, of the next number.
    pub(crate) fn seat(&mut self) -> Option<Seat<N>>
        ensures kept { (self.new.shown ≡ self.old.shown) × (self.new.accepted ≡ self.old.accepted) }
        ensures calls { IfSome result (λ s. s.calls ≡ 0) }
        ensures seen { IfSome result (λ s. s.seen ≡ self.old.shown) }
        ensures number { IfSome result (λ s. s.number ≡ self.old.given) }
        ensures within { IfSome result (λ s. s.number < N.seats) }
        ensures legal { IfSome result (λ s. IsLegal N.opening s.seen) }
        ensures given { IfSome result (λ _. self.new.given ≡ self.old.given + 1) }
        ensures none { IfNone result (self.new.given ≡ self.old.given) }
    {
        let number = self.given;
        if number >= self.account.seats() {
            return None;
        }
        let reader = self.post.reader().ok()?;
        self.given += 1;
        Some(Seat {
            reader,
            prefix: self.post.shown(),
            calls: 0,
            number,
        })
    }

    // A copy of the replica that is published.
    pub(crate) fn replica(&self) -> Result<Replica, AllocError>
        ensures replica { IfOk result (λ replica. replica ≡ replica_of self.now.shown) }
    {
        self.post.published_copy().replica().try_clone()
    }

    // Publishes a take that is pending, and copies the replica that is then published.
    pub(crate) fn flushed_replica<R: Wait>(&mut self, rt: &R) -> Result<Replica, AllocError>
        ensures accepted { self.new.accepted ≡ self.old.accepted }
        ensures given { self.new.given ≡ self.old.given }
        ensures shown { MatchResult result
            (λ _. self.new.shown ≡ self.old.accepted)
            (λ _. (self.new.shown ≡ self.old.shown) ⊎ (self.new.shown ≡ self.old.accepted)) }
        ensures replica { IfOk result (λ replica. replica ≡ replica_of self.old.accepted) }
    {
        self.flush(rt)?;
        self.replica()
    }

    // Ends the node, and gives what was published last.
    pub(crate) fn close<R: Wait>(self, rt: &R) -> PublishedCopy
        ensures log { result.seen.log ≡ self.shown }
        ensures book { result.seen.book ≡ N.book }
        ensures opening { opening_of result.seen.log ≡ N.opening }
    {
        let Keeper {
            head: _,
            account: _account,
            post,
            given: _,
        } = self;
        Box::into_inner(post.close(rt))
    }
}
