//! What a line has besides its node.
use join_law::Version;
use node_histories::NodeName;
use replica_store::{Place, Store};
use shared_node::{Seat, Told};
use std::alloc::Global;
use std::fmt::Display;
use worked_lines::Answer;

/// The seats that a node gave, by number, the last token that it returned, and the answers so far.
pub struct Bench<N: NodeName> {
    pub seats: Vec<Option<Seat<N>>>,
    pub token: Option<Told<N>>,
    pub out: Answer,
}

impl<N: NodeName> Drop for Bench<N> {
    fn drop(self) {
        let Bench {
            seats: _,
            token: _,
            out: _,
        } = self;
    }
}

impl<N: NodeName> Bench<N> {
    /// A bench without seats.
    pub fn new(alloc: Global) -> Self {
        Bench {
            seats: Vec::new(alloc),
            token: None,
            out: Answer::new(alloc),
        }
    }

    /// Takes out the seat at a place, until it is put back.
    pub fn lend(&mut self, place: usize) -> Option<Seat<N>> {
        self.seats.get_mut(place)?.take()
    }

    /// Puts back a seat that was taken out.
    pub fn put_back(&mut self, place: usize, seat: Seat<N>) {
        if let Some(slot) = self.seats.get_mut(place) {
            *slot = Some(seat);
        }
    }

    /// The seat at a place, unless it is taken out.
    pub fn seat(&mut self, place: usize) -> Option<&mut Seat<N>> {
        self.seats.get_mut(place)?.as_mut()
    }

    /// Writes an answer.
    pub fn write(&mut self, answer: &str) {
        self.out.line(answer.as_bytes());
    }

    /// Writes a name and a number.
    pub fn write_number(&mut self, name: &str, number: u64) {
        let line = format!(in self.out.alloc; "{name} {number}");
        self.out.line_made(line);
    }

    /// Writes what a value prints.
    pub fn write_value<T: Display>(&mut self, value: &T) {
        self.write("");
        self.out.print(value);
    }
}

/// Writes the number of takes, and the versions and names of what a store holds, unless memory runs out for the list of
/// its places.
pub fn append_store(out: &mut Answer, takes: u64, store: &Store) {
    out.write_made(format!(in out.alloc; "takes {takes}"));
    match store.list() {
        Ok(places) => append_places(out, store, &places),
        Err(fault) => out.write_made(Err(fault)),
    }
}

// Writes what a store holds at each of these places.
fn append_places(out: &mut Answer, store: &Store, places: &[Place]) {
    for place in places {
        append_held(out, store, place);
    }
}

// Writes what a store holds at a place.
fn append_held(out: &mut Answer, store: &Store, place: &Place) {
    if let Some(entry) = store.get(place) {
        out.write(b" ");
        out.write(place.path.name());
        out.write(b" ");
        append_version(out, entry.version);
    }
}

/// Writes a version.
pub fn append_version(out: &mut Answer, version: Version) {
    out.print(&version.counter);
    out.write(b".");
    out.print(&version.writer);
}
