//! The events of a world.
ghost use Rattle.std.specs.Prelude.{◌≡◌};

use edit_sums::Edit;
use load_places::Place;
use std::marker::Model;

/// A list of places.
#[derive(Debug)]
pub struct Places {
    items: Vec<Place>,
}

impl Drop for Places {
    fn drop(self) {
        let Places { items: _ } = self;
    }
}

impl Model for Places {
    ghost use Rattle.std.specs.Prelude.{List};
    ghost use Rattle.load_places.specs.Places.{PlaceParts};

    ghost Value = { List PlaceParts };

    ghost view = { λ p. p.items.items };
}

impl Places {
    /// Makes a list of these places. Allocates nothing.
    pub fn new(items: Vec<Place>) -> Places
        ensures places { result ≡ items.items }
    {
        Places { items }
    }

    /// Borrows the places.
    pub fn as_slice(&self) -> &[Place]
        ensures places { result.now ≡ self.now }
    {
        &self.items
    }
}

/// An event in a world. Nodes, asks and pieces have indices from 0; asks and pieces are counted in the order of their
/// events. An event that names something that doesn't exist is ignored, and gets no index.
#[derive(Debug)]
pub enum Event {
    /// A node writes an edit into its own store.
    Put {
        node: usize,
        edit: Edit,
    },
    /// A node makes an ask: its digest, which has the version that it holds at each place.
    Ask {
        node: usize,
    },
    /// A node cuts a piece for an ask, at these places or at all: the entries whose version is greater than the ask's,
    /// or whose place isn't in the ask.
    Cut {
        node: usize,
        ask: usize,
        places: Option<Places>,
    },
    /// A piece is given to a node.
    Give {
        piece: usize,
        node: usize,
    },
}

impl Drop for Event {
    fn drop(self) {
        match self {
            Event::Put { node: _, edit: _ } => (),
            Event::Ask { node: _ } => (),
            Event::Cut {
                node: _,
                ask: _,
                places: _,
            } => (),
            Event::Give { piece: _, node: _ } => (),
        }
    }
}
