//! Seats at a node, and views of what it publishes.
ghost use Rattle.std.specs.Prelude.{◌≡◌, ◌<◌, true, IfOk, IfErr};
ghost use mathlib.Core.List.{IsPrefix};
ghost use Rattle.left_right.specs.Sides.{view as reader_view};
ghost use Rattle.node_histories.specs.Histories.{IsLegal, store_of, takes_in};
ghost use Rattle.shared_node.specs.{Seats.{SeatNow}, Codes.{coded_seat}, ReaderViews.{book_of}};

use crate::post::Told;
use crate::reader_view::{CopyReader, CopyReading, Sees};
use node_histories::{HistoryPrefix, NodeName};
use replica_store::Store;
use std::marker::Model;

/// One thread's place at the node that N names: the thread edits, absorbs and views through it. Contracts see what the
/// seat has seen of the node's history, how many takes it made, and its number. A lost seat can't be replaced; its node
/// can then only be ended.
pub struct Seat<N: NodeName> {
    pub(crate) reader: CopyReader,
    pub(crate) prefix: HistoryPrefix<N>,
    pub(crate) calls: u64,
    pub(crate) number: usize,
}

impl<N: NodeName> Drop for Seat<N> {
    fn drop(self) {
        let Seat {
            reader: _,
            prefix: _,
            calls: _,
            number: _,
        } = self;
    }
}

impl<N: NodeName> Model for Seat<N> {
    ghost Value = { SeatNow };

    ghost coded = { coded_seat };

    ghost view = { λ s. record { seen = s.prefix; calls = s.calls; number = s.number } };

    ghost invariant = { λ s. ((reader_view s.reader.place).known ≡ true)
        × (book_of (reader_view s.reader.place) ≡ N.book)
        × (s.number < N.seats) };
}

/// What a seat sees. Publishing waits for a view that is held.
pub struct View<N: NodeName> {
    reading: CopyReading,
    prefix: HistoryPrefix<N>,
    calls: u64,
    number: usize,
}

impl<N: NodeName> Model for View<N> {
    ghost Value = { SeatNow };

    ghost coded = { coded_seat };

    ghost view = { λ s. record { seen = s.prefix; calls = s.calls; number = s.number } };

    ghost invariant = { λ s. ((reader_view s.reading.place).known ≡ true)
        × (book_of (reader_view s.reading.place) ≡ N.book)
        × (s.reading.part.value.seen.log ≡ s.prefix) × (s.number < N.seats) };
}

/// A7: there was nothing to enter, since the node has ended. Returns the seat as it was.
#[derive(Drop)]
pub struct NoEntry<N: NodeName> {
    pub seat: Seat<N>,
}

impl<N: NodeName> Seat<N> {
    /// How many takes of the node the seat has seen. Allocates nothing.
    pub fn takes(&self) -> u64
        ensures takes { result ≡ takes_in self.now.seen }
        ensures legal { IsLegal N.opening self.now.seen }
    {
        self.prefix.takes()
    }

    /// How many takes it made that were answered or are pending. Allocates nothing.
    pub fn calls(&self) -> u64
        ensures calls { result ≡ self.now.calls }
    {
        self.calls
    }

    /// Its number at the node, from 0. Allocates nothing.
    pub fn number(&self) -> usize
        ensures number { result ≡ self.now.number }
        ensures within { result < N.seats }
    {
        self.number
    }

    /// A view of what is published now, whose history begins with all that the seat has seen. Takes no lock, doesn't
    /// wait, and allocates nothing; its time doesn't grow with the store. Publishing waits while the view is held.
    ///
    /// Fails if the node has ended; the seat is then as it was.
    pub fn view(self) -> Result<View<N>, NoEntry<N>>
        ensures seen { IfOk result (λ v. IsPrefix self.seen v.seen) }
        ensures legal { IfOk result (λ v. IsLegal N.opening v.seen) }
        ensures same { IfOk result (λ v. (v.calls ≡ self.calls) × (v.number ≡ self.number)) }
        ensures seat { IfErr result (λ fault. fault.seat ≡ self) }
    {
        let Seat {
            reader,
            prefix,
            calls,
            number,
        } = self;
        let reading = match reader.enter_as::<Sees>() {
            Ok(reading) => reading,
            Err(reader) => {
                let seat = Seat {
                    reader,
                    prefix,
                    calls,
                    number,
                };
                return Err(NoEntry { seat });
            }
        };
        let Some(shown) = reading.get().onward(&prefix) else {
            let seat = Seat {
                reader: reading.leave(),
                prefix,
                calls,
                number,
            };
            return Err(NoEntry { seat });
        };
        Ok(View {
            reading,
            prefix: shown,
            calls,
            number,
        })
    }

    /// Learns a token: from now on the seat has seen what it had seen before and the token's history. Takes no lock,
    /// doesn't wait, and allocates nothing.
    pub fn learn(&mut self, token: &Told<N>)
        ensures seen { IsPrefix self.old.seen self.new.seen }
        ensures token { IsPrefix token.now self.new.seen }
        ensures same { (self.new.calls ≡ self.old.calls) × (self.new.number ≡ self.old.number) }
    {
        self.prefix = self.prefix.longer(token.prefix());
    }
}

impl<N: NodeName> View<N> {
    /// The published store, borrowed: the sum of a valid history of the node. Allocates nothing.
    pub fn store(&self) -> &Store
        ensures sum { result.now ≡ store_of self.now.seen }
        ensures legal { IsLegal N.opening self.now.seen }
    {
        self.prefix.legal_history();
        self.reading.get().replica().store()
    }

    /// How many takes of the node the view shows. Allocates nothing.
    pub fn takes(&self) -> u64
        ensures takes { result ≡ takes_in self.now.seen }
    {
        self.prefix.takes()
    }

    /// Returns the seat, which has seen what the view shows. Takes no lock, doesn't wait, and allocates nothing.
    pub fn leave(self) -> Seat<N>
        ensures same { result ≡ self }
    {
        let View {
            reading,
            prefix,
            calls,
            number,
        } = self;
        let reader = reading.leave();
        Seat {
            reader,
            prefix,
            calls,
            number,
        }
    }
}
