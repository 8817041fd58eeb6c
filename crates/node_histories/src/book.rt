//! The log of a node's history, and the name of a node.
ghost use Rattle.std.specs.Prelude.{◌≡◌, ◌∷◌, []};
ghost use Rattle.node_histories.specs.{declared.events.HistoryEvent.TheVariants.{Opening}, Books.{head_of}};

use crate::events::{Asked, HistoryEvent, Takeable};
use logbook::{Gain, Offer, Opening as Opens, Plain, Play, Rule, Seen, Start, Word};
use replica_store::Replica;
use std::marker::Brand;

/// The log's invariant: its first word is the number of takes, and the history is valid.
pub struct Law;

impl Rule<HistoryEvent, u64> for Law {
    ghost use Rattle.std.specs.Prelude.{[]};
    ghost use base.Fml.{ftrue};
    ghost use Rattle.node_histories.specs.Books.{IsKept};

    ghost holds = { λ cells log. IsKept cells log };

    ghost first = { [] };

    ghost hinted = { λ n log. Unit {0} };

    ghost shows = { λ log. [] };

    ghost keeps = { λ names log. ftrue };

    ghost moves = { λ ask before after answer. Unit {0} };
}

// Callers pass nothing.
pub(crate) struct Nothing;

impl Gain<HistoryEvent, u64> for Nothing {
    ghost use base.Fml.{ftrue};

    ghost after = { λ names about answer. ftrue };
}

// A step that adds an event.
pub(crate) struct Add;

impl Play<HistoryEvent, u64> for Add {
    ghost use Rattle.node_histories.specs.Books.{Adds};

    ghost then = { Adds };
}

impl<T: Takeable> Plain<Asked<T>, HistoryEvent, u64> for Add {
    ghost use Rattle.std.specs.Prelude.{None};

    ghost ask = { λ a. T.event a.seat a.what };

    ghost state = { λ a. None };
}

// The history opens with the replica.
pub(crate) struct Opened;

impl Opens<Replica, HistoryEvent> for Opened {
    ghost use Rattle.std.specs.Prelude.{◌∷◌, []};
    ghost use Rattle.node_histories.specs.declared.events.HistoryEvent.TheVariants.{Opening};

    ghost log = { λ count replica. Opening replica ∷ [] };
}

/// A token of a prefix of a history. It has no bytes.
pub type History = Seen<HistoryEvent, u64, Law>;

/// The first word of a node's log: how many takes its history has.
pub type Head = Word<HistoryEvent, u64, Law>;

pub(crate) type Asking = Offer<HistoryEvent, u64, Law, Nothing>;

/// Identifies a node: its history log, its number of seats, and what it opened over. It has no functions. Code that
/// works with a node is generic over this name. `std::marker::Brand` calls it with a fresh one, so the compiler refuses
/// seats and tokens of other nodes.
pub trait NodeName {
    ghost use Rattle.std.specs.Prelude.{ℕ};
    ghost use Rattle.logbook.specs.Pages.{Book};
    ghost use Rattle.replica_store.specs.Replicas.{Replicated};

    ghost book: { Book };

    ghost seats: { ℕ };

    // What the node opened over.
    ghost opening: { Replicated };
}

impl NodeName for Brand {
    ghost use Rattle.std.specs.FinMap as finmap;

    ghost book = { record { number = 0; log_name = 0; cells_name = 0 } };

    ghost seats = { 1 };

    ghost opening = { record { store = finmap.empty; writer = 0 } };
}

/// A log that was just opened: its first word, and a token of its history, which has only the opening.
pub struct Name {
    pub head: Head,
    pub seen: History,
    pub ghost head_is: { head ≡ head_of seen.book },
}

impl Name {
    /// Opens a log over a replica. Allocates nothing.
    pub fn new(replica: &Replica) -> Name
        ensures log { result.seen.log ≡ Opening replica.now ∷ [] }
    {
        let (seen, mut pens) = Seen::open_row::<Replica, Opened>(replica, Start::alone(), 2);
        let mut pen = pens.take();
        Name {
            head: Word::tracked(0, &mut pen),
            seen,
        }
    }
}
