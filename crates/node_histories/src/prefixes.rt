//! Tokens of a node's history, with their number of takes.
ghost use Rattle.std.specs.Prelude.{◌≡◌, ◌-◌, ◌<◌, ◌≤◌, ◌^◌, ◌++◌, ◌∷◌, ◌⊎◌, [], IfSome, IfNone};
ghost use mathlib.Core.List.{IsPrefix};
ghost use Rattle.node_histories.specs.{Histories.{IsLegal, IsNext, takes_in, opening_of, all_edits}, Books.{head_of}};

use crate::book::{Add, Asking, Head, History, NodeName, Nothing};
use crate::events::{Asked, Takeable};
use std::marker::{Model, PhantomData};

/// A prefix of the history of the node that N names, as far as it was seen. Contracts see it as its events: the history
/// is valid, and opened over what N says.
pub struct HistoryPrefix<N: NodeName> {
    takes: u64,
    seen: History,
    of: PhantomData<N>,
}

impl<N: NodeName> Drop for HistoryPrefix<N> {
    fn drop(self) {
        let HistoryPrefix {
            takes: _,
            seen: _,
            of: _,
        } = self;
    }
}

impl<N: NodeName> Model for HistoryPrefix<N> {
    ghost use Rattle.std.specs.Prelude.{◌≡◌, List};
    ghost use Rattle.node_histories.specs.{declared.events.HistoryEvent.{HistoryEvent}, Codes.{coded_history}};
    ghost use Rattle.node_histories.specs.Histories.{IsLegal, takes_in};

    ghost Value = { List HistoryEvent };

    ghost coded = { coded_history };

    ghost view = { λ f. f.seen.log };

    ghost invariant = { λ f. (f.takes ≡ takes_in f.seen.log) × (f.seen.book ≡ N.book)
        × IsLegal N.opening f.seen.log };
}

// A prefix to which an event is about to be added.
pub(crate) struct Turn<N: NodeName> {
    takes: u64,
    seen: History,
    offer: Asking,
    of: PhantomData<N>,
}

impl<N: NodeName> Drop for Turn<N> {
    fn drop(self) {
        let Turn {
            takes: _,
            seen: _,
            offer: _,
            of: _,
        } = self;
    }
}

impl<N: NodeName> Model for Turn<N> {
    ghost use Rattle.std.specs.Prelude.{◌≡◌, None};
    ghost use Rattle.node_histories.specs.{Books.{TurnNow}, Codes.{coded_turn}, Histories.{IsLegal, takes_in}};

    ghost Value = { TurnNow };

    ghost coded = { coded_turn };

    ghost view = { λ t. record { seen = t.seen.log; ask = t.offer.ask } };

    ghost invariant = { λ t. (t.takes ≡ takes_in t.seen.log) × (t.seen.book ≡ N.book)
        × IsLegal N.opening t.seen.log × (t.offer.names ≡ t.seen.names) × (t.offer.state ≡ None) };
}

impl<N: NodeName> HistoryPrefix<N> {
    /// The prefix of a token whose number of takes is known. Allocates nothing, like all calls here.
    pub fn of(takes: u64, seen: &History) -> HistoryPrefix<N>
        requires counted { takes ≡ takes_in seen.now.log }
        requires book { seen.now.book ≡ N.book }
        requires legal { IsLegal N.opening seen.now.log }
        ensures log { result ≡ seen.now.log }
    {
        HistoryPrefix {
            takes,
            seen: seen.again(),
            of: PhantomData,
        }
    }

    /// The token of the prefix.
    pub fn history(&self) -> History
        ensures log { result.log ≡ self.now }
        ensures book { result.book ≡ N.book }
        ensures legal { IsLegal N.opening self.now }
    {
        self.seen.again()
    }

    /// How many takes it has.
    pub fn takes(&self) -> u64
        ensures takes { result ≡ takes_in self.now }
        ensures legal { IsLegal N.opening self.now }
    {
        self.takes
    }

    /// A copy.
    pub fn again(&self) -> HistoryPrefix<N>
        ensures same { result ≡ self.now }
    {
        HistoryPrefix {
            takes: self.takes,
            seen: self.seen.again(),
            of: PhantomData,
        }
    }

    /// What it has seen is valid. Does nothing: its contract is a law.
    pub fn legal_history(&self)
        ensures legal { IsLegal N.opening self.now }
    {
        self.history();
    }

    /// Of two prefixes of one history the shorter is a prefix of the longer. Does nothing: its contract is a law.
    pub fn begins(&self, other: &HistoryPrefix<N>)
        requires shorter { takes_in self.now ≤ takes_in other.now }
        ensures begins { IsPrefix self.now other.now }
    {
        let mut both = self.seen.again();
        both.learn(&other.seen);
    }

    /// The prefix of another token of the same history, which extends this one. None if that has fewer takes.
    pub fn onward(&self, takes: u64, seen: &History) -> Option<HistoryPrefix<N>>
        requires counted { takes ≡ takes_in seen.now.log }
        requires book { seen.now.book ≡ N.book }
        requires legal { IsLegal (opening_of seen.now.log) seen.now.log }
        ensures log { IfSome result (λ f. f ≡ seen.now.log) }
        ensures goes_on { IfSome result (λ f. IsPrefix self.now f) }
        ensures none { IfNone result (takes_in seen.now.log < takes_in self.now) }
    {
        if takes < self.takes {
            return None;
        }
        let mut both = self.seen.again();
        both.learn(seen);
        Some(HistoryPrefix::of(takes, seen))
    }

    /// The longer of two prefixes. The other is a prefix of it.
    pub fn longer(&self, other: &HistoryPrefix<N>) -> HistoryPrefix<N>
        ensures this { IsPrefix self.now result }
        ensures that { IsPrefix other.now result }
        ensures one { (result ≡ self.now) ⊎ (result ≡ other.now) }
    {
        if self.takes < other.takes {
            self.begins(other);
            other.again()
        } else {
            other.begins(self);
            self.again()
        }
    }

    // This prefix and the request, whose event comes next.
    pub(crate) fn ask<T: Takeable>(&self, asked: &Asked<T>) -> Turn<N>
        ensures seen { result.seen ≡ self.now }
        ensures ask { result.ask ≡ T.event asked.now.seat asked.now.what }
    {
        Turn {
            takes: self.takes,
            seen: self.seen.again(),
            offer: self.seen.plain::<Nothing, Asked<T>, Add>(asked),
            of: PhantomData,
        }
    }
}

impl<N: NodeName> Turn<N> {
    // Adds the event to all that was seen, by one atomic step on the log's first word. Adds nothing if the history is
    // longer.
    pub(crate) fn add(self, head: &Head) -> Option<HistoryPrefix<N>>
        requires head { head.now ≡ head_of N.book }
        requires room { takes_in self.seen < 2 ^ 64 - 1 }
        requires legal { IsNext N.opening.writer (all_edits self.seen) self.ask }
        ensures added { IfSome result (λ f. f ≡ self.seen ++ self.ask ∷ []) }
    {
        let Turn {
            takes,
            mut seen,
            mut offer,
            of,
        } = self;
        let mut pen = seen.no_pen();
        let found = head.compare_exchange::<Add, Nothing>(
            takes,
            takes + 1,
            &mut seen,
            &mut offer,
            &mut pen,
        );
        if found == takes {
            Some(HistoryPrefix {
                takes: takes + 1,
                seen,
                of,
            })
        } else {
            None
        }
    }
}
