//! What a node opens over.
ghost use Rattle.std.specs.Prelude.{◌≡◌, ℕ, ◌<◌, ◌≤◌, ◌∷◌, [], length, drop, slice_index, IfOk, IfErr};
ghost use Rattle.left_right.specs.Sides.{view};
ghost use Rattle.node_histories.specs.declared.events.HistoryEvent.TheVariants.{Opening};
ghost use Rattle.shared_node.specs.{ReaderViews.{latest, reader_view_of}, BlankFaults.{AtBlankFault}};

use crate::post::publish;
use crate::reader_view::CopyWriter;
use left_right::writer::Writer;
use node_histories::{Head, History, Name, PublishedCopy};
use replica_store::Replica;
use std::alloc::{AllocError, Global};
use std::marker::Model;
use std::sync::Wait;
use thiserror::Error;

/// The most seats of a node; a node has at least 1.
pub const MOST_SEATS: usize = 64;

/// All parts of a node that has no name yet. Contracts see the history log of the later node, the replica that the
/// blank was made from, and the number of seats. Not `Drop`: `Node::open` takes it.
pub struct Blank {
    pub(crate) head: Head,
    pub(crate) seen: History,
    pub(crate) writer: CopyWriter,
    pub(crate) counts: Vec<u64>,
}

impl Model for Blank {
    ghost use Rattle.std.specs.Prelude.{◌≡◌, ℕ, ◌<◌, ◌∷◌, [], length, drop, slice_index};
    ghost use Rattle.left_right.specs.Sides.{view as reader_view};
    ghost use Rattle.node_histories.specs.{declared.events.HistoryEvent.TheVariants.{Opening}, Books.{head_of}, Histories.{opening_of}};
    ghost use Rattle.shared_node.specs.{Blanks.{BlankNow}, Codes.{coded_blank}, ReaderViews.{latest, reader_view_of}};

    ghost Value = { BlankNow };

    ghost coded = { coded_blank };

    ghost view = { λ b. record {
      book = b.seen.book;
      opening = opening_of b.seen.log;
      seats = length b.counts.items;
    } };

    ghost invariant = { λ b.
        (b.seen.log ≡ Opening (opening_of b.seen.log) ∷ [])
        × (b.head ≡ head_of b.seen.book)
        × ((s : ℕ) → s < length b.counts.items → slice_index b.counts.items s ≡ 0)
        × (b.writer.desk.shown.value.seen ≡ b.seen)
        × (latest (λ p. p.seen) b.writer.desk.shown.value.seen
        (drop b.writer.behind b.writer.log.items)
        ≡ b.writer.desk.shown.value.seen)
        × (reader_view b.writer.desk.place
        ≡ reader_view_of b.writer.desk.shown.value.seen.book b.writer.desk.shown.value.seen.log) };
}

/// Why there is no blank.
#[derive(Debug, Drop, Error)]
pub enum BlankFault {
    /// A1: the number of seats isn't 1 to 64.
    #[error("A1 Seats")]
    Seats,
    /// Memory ran out. Returns the replica.
    #[error("out of memory")]
    Memory(Replica),
}

// The two copies. The first is the published one.
fn shown_pair<R: Wait>(
    rt: &R,
    alloc: Global,
    seen: &History,
    replica: &Replica,
    seats: usize,
) -> Result<CopyWriter, AllocError>
    requires seats { (0 < seats) × (seats ≤ 64) }
    requires opened { seen.now.log ≡ Opening replica.now ∷ [] }
    ensures shown { IfOk result (λ w. w.desk.shown.value.seen ≡ seen.now) }
    ensures due { IfOk result
        (λ w. latest (λ p. p.seen) w.desk.shown.value.seen (drop w.behind w.log.items)
        ≡ w.desk.shown.value.seen) }
    ensures reader_view { IfOk result (λ w. view w.desk.place
        ≡ reader_view_of w.desk.shown.value.seen.book w.desk.shown.value.seen.log) }
{
    let first = PublishedCopy::opening(replica.try_clone()?, seen)?;
    let second = first.try_clone()?;
    let writer = Writer::new(alloc, first, second, seats)?;
    let (writer, done) = publish(writer, rt);
    match done {
        Ok(()) => Ok(writer),
        Err(fault) => {
            drop(writer.take(rt));
            Err(fault)
        }
    }
}

// A count of 0 for each seat.
fn zeros(alloc: Global, seats: usize) -> Result<Vec<u64>, AllocError>
    ensures len { IfOk result (λ v. length v.items ≡ seats) }
    ensures zeros { IfOk result (λ v. (s : ℕ) → s < length v.items → slice_index v.items s ≡ 0) }
{
    Vec::from_elem(alloc, 0u64, seats)
}

// All parts of a node of this replica. Copies the replica, without its contents.
fn blank_of<R: Wait>(rt: &R, replica: &Replica, seats: usize) -> Result<Blank, AllocError>
    requires seats { (0 < seats) × (seats ≤ 64) }
    ensures opening { IfOk result (λ blank. blank.opening ≡ replica.now) }
    ensures seats { IfOk result (λ blank. blank.seats ≡ seats) }
{
    let alloc = replica.store().allocator();
    let Name { head, seen } = Name::new(replica);
    let counts = zeros(alloc, seats)?;
    let writer = shown_pair(rt, alloc, &seen, replica, seats)?;
    Ok(Blank {
        head,
        seen,
        writer,
        counts,
    })
}

impl Blank {
    /// Makes all parts of a node over this replica, with this many seats. May wait. Costs one copy of the replica,
    /// which copies no contents.
    ///
    /// `Seats` exactly if the number of seats isn't 1 to 64. Otherwise fails only if memory runs out, and then returns
    /// the replica.
    pub fn new<R: Wait>(rt: &R, replica: Replica, seats: usize) -> Result<Blank, BlankFault>
        ensures opening { IfOk result (λ blank. blank.opening ≡ replica) }
        ensures seats { IfOk result (λ blank. (blank.seats ≡ seats) × (0 < seats) × (seats ≤ 64)) }
        ensures fault { IfErr result (AtBlankFault replica seats) }
    {
        if seats == 0 || seats > MOST_SEATS {
            return Err(BlankFault::Seats);
        }
        match blank_of(rt, &replica, seats) {
            Ok(blank) => Ok(blank),
            Err(_) => Err(BlankFault::Memory(replica)),
        }
    }
}
