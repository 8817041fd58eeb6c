//! The takes that a node has accepted, and the counts of them.
ghost use Rattle.std.specs.Prelude.{◌≡◌, ℕ, ◌-◌, ◌<◌, ◌^◌, length, slice_index, IfOk, IfErr};
ghost use Rattle.node_histories.specs.Histories.{counter_of, opening_of, takes_in, takes_of};
ghost use Rattle.shared_node.specs.{Accounts.{IsTakenAfter}, Seats.{Agrees}, Faults.{IsDisagreement}};

use crate::faults::CloseCause;
use crate::seat::Seat;
use node_histories::{HistoryPrefix, NodeName, PublishedCopy};
use std::marker::Model;

// The takes, the greatest counter of their edits, and how many of them each seat made.
pub(crate) struct Account<N: NodeName> {
    prefix: HistoryPrefix<N>,
    counter: u64,
    counts: Vec<u64>,
}

impl<N: NodeName> Drop for Account<N> {
    fn drop(self) {
        let Account {
            prefix: _,
            counter: _,
            counts: _,
        } = self;
    }
}

impl<N: NodeName> Model for Account<N> {
    ghost use Rattle.std.specs.Prelude.{◌≡◌, ℕ, ◌<◌, length, slice_index};
    ghost use Rattle.shared_node.specs.{Accounts.{AccountNow}, Codes.{coded_account}};
    ghost use Rattle.node_histories.specs.Histories.{takes_of, counter_of};

    ghost Value = { AccountNow };

    ghost coded = { coded_account };

    ghost view = { λ a. record { takes = a.prefix; seats = length a.counts.items } };

    ghost invariant = { λ a. (a.counter ≡ counter_of a.prefix)
        × ((s : ℕ) → s < length a.counts.items
        → slice_index a.counts.items s ≡ takes_of s a.prefix) };
}

impl<N: NodeName> Account<N> {
    // An account of a history without takes.
    pub(crate) fn new(prefix: HistoryPrefix<N>, counter: u64, counts: Vec<u64>) -> Account<N>
        requires counter { counter ≡ counter_of prefix }
        requires untaken { (s : ℕ) → s < length counts.items → takes_of s prefix ≡ 0 }
        requires counts { (s : ℕ) → s < length counts.items → slice_index counts.items s ≡ 0 }
        ensures takes { result.takes ≡ prefix }
        ensures seats { result.seats ≡ length counts.items }
    {
        Account {
            prefix,
            counter,
            counts,
        }
    }

    // The takes.
    pub(crate) fn prefix(&self) -> &HistoryPrefix<N>
        ensures prefix { result.now ≡ self.now.takes }
    {
        &self.prefix
    }

    // The number of seats that it counts for.
    pub(crate) fn seats(&self) -> usize
        ensures seats { result ≡ self.now.seats }
    {
        self.counts.len()
    }

    // The greatest counter of the takes.
    pub(crate) fn counter(&self) -> u64
        ensures counter { result ≡ counter_of self.now.takes }
    {
        self.counter
    }

    // Counts one take of this seat: the one that the published copy's history has more.
    pub(crate) fn add(&mut self, seat: usize, published_copy: &PublishedCopy)
        requires published_copy { (published_copy.now.seen.book ≡ N.book)
            × (opening_of published_copy.now.seen.log ≡ N.opening) }
        requires seat { seat < self.old.seats }
        requires room { takes_in self.old.takes < 2 ^ 64 - 1 }
        requires taken { IsTakenAfter self.old.takes seat published_copy.now.seen.log }
        ensures takes { self.new.takes ≡ published_copy.now.seen.log }
        ensures seats { self.new.seats ≡ self.old.seats }
    {
        self.prefix.legal_history();
        self.counts[seat] += 1;
        self.counter = published_copy.counter();
        self.prefix = published_copy.prefix();
    }

    // Compares what the seat knows with what is counted for it.
    pub(crate) fn compare(&self, seat: &Seat<N>) -> Result<(), CloseCause>
        requires seats { self.now.seats ≡ N.seats }
        ensures agrees { IfOk result (λ _. Agrees self.now.takes seat.now) }
        ensures cause { IfErr result IsDisagreement }
    {
        let seen = seat.takes();
        let held = self.prefix.takes();
        if held < seen {
            return Err(CloseCause::Disagree(seen, held));
        }
        seat.prefix.begins(&self.prefix);
        let counted = self.counts[seat.number()];
        if counted == seat.calls {
            Ok(())
        } else {
            Err(CloseCause::Disagree(seat.calls, counted))
        }
    }
}
