//! The invariant of the published copies, and what each seat knows of them.
ghost use Rattle.std.specs.Prelude.{◌≡◌, true, false, []};
ghost use Rattle.shared_node.specs.ReaderViews.{Knows, Shows, nothing};

use atomic_table::{Join, Split};
use crossbeam_utils::rule::{Outcome, Protocol};
use left_right::reader::{Reader, Reading};
use left_right::writer::Writer;
use node_histories::{HistoryEvent, PublishedCopy};
use std::collections::LinkedList;

/// What a reader sees: which node's history, and how much of it. No value of it is ever made.
pub struct ReaderView {
    pub known: bool,
    pub number: u64,
    pub log_name: u64,
    pub cells_name: u64,
    pub seen: LinkedList<HistoryEvent>,
}

/// What is published belongs to the history log that each seat knows, and begins with what that seat has seen.
pub struct Published;

impl Protocol<PublishedCopy, ReaderView> for Published {
    ghost holds = { λ p. Knows p.seen.book p.seen.log };

    ghost first = { nothing };
}

/// What a reader learns when it enters, and the writer when it publishes.
pub(crate) struct Sees;

impl Outcome<PublishedCopy, ReaderView> for Sees {
    ghost then = { λ v x y w. Shows v y.seen.book y.seen.log w };
}

/// After a split both parts know what the whole knew.
pub(crate) struct Same;

impl Split<ReaderView> for Same {
    ghost left = { λ v. v };

    ghost right = { λ v. v };
}

/// A new seat knows what it is given.
pub(crate) struct Takes;

impl Join<ReaderView> for Takes {
    ghost both = { λ v w. w };

    ghost spent = { nothing };
}

pub(crate) type CopyReader = Reader<PublishedCopy, ReaderView, Published>;

pub(crate) type CopyReading = Reading<PublishedCopy, ReaderView, Published>;

pub(crate) type CopyWriter = Writer<PublishedCopy, PublishedCopy, ReaderView, Published>;
