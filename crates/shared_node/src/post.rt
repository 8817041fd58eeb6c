//! The publishing side of a node.
ghost use Rattle.std.specs.Prelude.{◌≡◌, drop, MatchResult, IfOk, OnOk, None};
ghost use mathlib.Core.List.{IsPrefix};
ghost use Rattle.left_right.specs.Sides.{view};
ghost use Rattle.node_histories.specs.Histories.{IsLegal, opening_of, takes_in};
ghost use Rattle.shared_node.specs.ReaderViews.{latest, newest, reader_view_of};

use crate::reader_view::{CopyReader, CopyWriter, Same, Sees, Takes};
use core::mem::replace_with;
use node_histories::{HistoryPrefix, NodeName, PublishedCopy};
use std::alloc::AllocError;
use std::marker::{Model, PhantomData};
use std::sync::Wait;

// The two published copies, and a copy that is accepted but not in the writer's log yet.
pub(crate) struct Post<N: NodeName> {
    writer: CopyWriter,
    pending: Option<PublishedCopy>,
    of: PhantomData<N>,
}

impl<N: NodeName> Model for Post<N> {
    ghost use Rattle.std.specs.Prelude.{◌≡◌, drop};
    ghost use mathlib.Core.List.{IsPrefix};
    ghost use Rattle.left_right.specs.Sides.{view as reader_view};
    ghost use Rattle.node_histories.specs.Histories.{opening_of};
    ghost use Rattle.shared_node.specs.{Posts.{PostNow}, Codes.{coded_post}, ReaderViews.{newest, reader_view_of}};

    ghost Value = { PostNow };

    ghost coded = { coded_post };

    ghost view = { λ p. record {
      shown = p.writer.desk.shown.value.seen.log;
      due = (newest (λ q. q.seen) p.writer.desk.shown.value.seen
          (drop p.writer.behind p.writer.log.items) p.pending).log;
    } };

    ghost invariant = { λ p.
        (reader_view p.writer.desk.place ≡ reader_view_of N.book p.writer.desk.shown.value.seen.log)
        × (p.writer.desk.shown.value.seen.book ≡ N.book)
        × ((newest (λ q. q.seen) p.writer.desk.shown.value.seen
        (drop p.writer.behind p.writer.log.items) p.pending).book ≡ N.book)
        × (opening_of p.writer.desk.shown.value.seen.log ≡ N.opening)
        × (opening_of (newest (λ q. q.seen) p.writer.desk.shown.value.seen
        (drop p.writer.behind p.writer.log.items) p.pending).log ≡ N.opening)
        × IsPrefix p.writer.desk.shown.value.seen.log
        (newest (λ q. q.seen) p.writer.desk.shown.value.seen
        (drop p.writer.behind p.writer.log.items) p.pending).log };
}

/// A token of a published history, which other seats of the node can learn. Contracts see it as the history's events.
pub struct Told<N: NodeName> {
    prefix: HistoryPrefix<N>,
}

impl<N: NodeName> Drop for Told<N> {
    fn drop(self) {
        let Told { prefix: _ } = self;
    }
}

impl<N: NodeName> Model for Told<N> {
    ghost use Rattle.std.specs.Prelude.{List};
    ghost use Rattle.node_histories.specs.{declared.events.HistoryEvent.{HistoryEvent}, Codes.{coded_history}};

    ghost Value = { List HistoryEvent };

    ghost coded = { coded_history };

    ghost view = { λ t. t.prefix };
}

impl<N: NodeName> Told<N> {
    // The prefix of the history.
    pub(crate) fn prefix(&self) -> &HistoryPrefix<N>
        ensures prefix { result.now ≡ self.now }
    {
        &self.prefix
    }

    /// How many takes the history has. Allocates nothing.
    pub fn takes(&self) -> u64
        ensures takes { result ≡ takes_in self.now }
        ensures legal { IsLegal N.opening self.now }
    {
        self.prefix.takes()
    }
}

// Publishes all that is in the writer's log at once.
pub(crate) fn publish<R: Wait>(writer: CopyWriter, rt: &R) -> (CopyWriter, Result<(), AllocError>)
    requires book { (latest (λ p. p.seen) writer.desk.shown.value.seen
        (drop writer.behind writer.log.items)).book ≡ writer.desk.shown.value.seen.book }
    requires goes_on { IsPrefix writer.desk.shown.value.seen.log (latest
        (λ p. p.seen) writer.desk.shown.value.seen (drop writer.behind writer.log.items)).log }
    ensures values { MatchResult result.1
        (λ _. (result.0.desk.shown.value.seen
        ≡ latest (λ p. p.seen) writer.desk.shown.value.seen (drop writer.behind writer.log.items))
        × (latest (λ p. p.seen) result.0.desk.shown.value.seen
        (drop result.0.behind result.0.log.items)
        ≡ result.0.desk.shown.value.seen))
        (λ _. (result.0.desk.shown.value.seen ≡ writer.desk.shown.value.seen)
        × (latest (λ p. p.seen) result.0.desk.shown.value.seen
        (drop result.0.behind result.0.log.items)
        ≡ latest (λ p. p.seen) writer.desk.shown.value.seen
        (drop writer.behind writer.log.items))) }
    ensures reader_view { MatchResult result.1
        (λ _. view result.0.desk.place
        ≡ reader_view_of result.0.desk.shown.value.seen.book result.0.desk.shown.value.seen.log)
        (λ _. view result.0.desk.place ≡ view writer.desk.place) }
{
    writer.publish_as::<Sees, R>(rt)
}

// Appends the pending copy, if there is one, to the writer's log. The copy stays pending if memory runs out.
fn hand(writer: &mut CopyWriter, pending: &mut Option<PublishedCopy>) -> Result<(), AllocError>
    ensures desk { writer.new.desk ≡ writer.old.desk }
    ensures due { newest (λ p. p.seen) writer.new.desk.shown.value.seen
        (drop writer.new.behind writer.new.log.items) pending.new
        ≡ newest (λ p. p.seen) writer.old.desk.shown.value.seen
        (drop writer.old.behind writer.old.log.items) pending.old }
    ensures handed { OnOk result (pending.new ≡ None) }
{
    let Some(published_copy) = pending.take() else {
        return Ok(());
    };
    match writer.append(published_copy) {
        Ok(()) => Ok(()),
        Err(published_copy) => {
            *pending = Some(published_copy);
            Err(AllocError)
        }
    }
}

impl<N: NodeName> Post<N> {
    // A publishing side with nothing to publish.
    pub(crate) fn new(writer: CopyWriter) -> Post<N>
        requires book { writer.desk.shown.value.seen.book ≡ N.book }
        requires due { latest (λ p. p.seen) writer.desk.shown.value.seen
            (drop writer.behind writer.log.items) ≡ writer.desk.shown.value.seen }
        requires opening { opening_of writer.desk.shown.value.seen.log ≡ N.opening }
        requires reader_view { view writer.desk.place
            ≡ reader_view_of writer.desk.shown.value.seen.book writer.desk.shown.value.seen.log }
        ensures shown { result.shown ≡ writer.desk.shown.value.seen.log }
        ensures due { result.due ≡ writer.desk.shown.value.seen.log }
    {
        Post {
            writer,
            pending: None,
            of: PhantomData,
        }
    }

    // Publishes what is due. On `Err` nothing was published.
    pub(crate) fn send<R: Wait>(&mut self, rt: &R) -> Result<(), AllocError>
        ensures due { self.new.due ≡ self.old.due }
        ensures shown { MatchResult result
            (λ _. self.new.shown ≡ self.old.due)
            (λ _. self.new.shown ≡ self.old.shown) }
    {
        hand(&mut self.writer, &mut self.pending)?;
        replace_with(&mut self.writer, rt, publish)
    }

    // Makes this copy the next to publish.
    pub(crate) fn put(&mut self, published_copy: PublishedCopy)
        requires book { published_copy.seen.book ≡ N.book }
        requires opening { opening_of published_copy.seen.log ≡ N.opening }
        requires goes_on { IsPrefix self.old.due published_copy.seen.log }
        ensures due { self.new.due ≡ published_copy.seen.log }
        ensures shown { self.new.shown ≡ self.old.shown }
    {
        self.pending = Some(published_copy);
    }

    // The published copy.
    pub(crate) fn published_copy(&self) -> &PublishedCopy
        ensures log { result.now.seen.log ≡ self.now.shown }
        ensures book { result.now.seen.book ≡ N.book }
        ensures opening { opening_of result.now.seen.log ≡ N.opening }
    {
        self.writer.published()
    }

    // The published history.
    pub(crate) fn shown(&self) -> HistoryPrefix<N>
        ensures shown { result ≡ self.now.shown }
        ensures legal { IsLegal N.opening result }
    {
        self.published_copy().prefix()
    }

    // A token of the published history.
    pub(crate) fn issue(&self) -> Told<N>
        ensures shown { result ≡ self.now.shown }
        ensures legal { IsLegal N.opening result }
    {
        Told {
            prefix: self.shown(),
        }
    }

    // A reader that has seen what is published.
    pub(crate) fn reader(&mut self) -> Result<CopyReader, AllocError>
        ensures same { self.new ≡ self.old }
        ensures reader_view { IfOk result
            (λ r. view r.place ≡ reader_view_of N.book self.old.shown) }
    {
        let mut reader = self.writer.factory().reader()?;
        let note = self.writer.tell::<Same>();
        reader.learn::<Takes>(note);
        Ok(reader)
    }

    // Waits for the readers, and returns the copy that was published last.
    pub(crate) fn close<R: Wait>(self, rt: &R) -> Box<PublishedCopy>
        ensures log { result.value.seen.log ≡ self.shown }
        ensures book { result.value.seen.book ≡ N.book }
        ensures opening { opening_of result.value.seen.log ≡ N.opening }
    {
        let Post {
            writer,
            pending: _pending,
            of: _,
        } = self;
        writer.take(rt)
    }
}
