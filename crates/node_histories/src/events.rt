//! The events of a node's history.
use delta_pieces::Piece;
use edit_sums::Edit;
use replica_store::Replica;

/// An event of a history. The first is what the node opened over; the others are takes, each with the number of the
/// seat that made it. Code makes no value of it: it occurs only in contracts.
pub enum HistoryEvent {
    /// The replica that the node opened over.
    Opening(Replica),
    /// A seat's edit.
    Edited(u64, Edit),
    /// A piece that a seat absorbed.
    Absorbed(u64, Piece),
}

// What a seat may request, and the event that it becomes.
pub(crate) trait Takeable {
    ghost use Rattle.std.specs.Prelude.{ℕ};
    ghost use Rattle.node_histories.specs.declared.events.HistoryEvent.{HistoryEvent};

    ghost event: { ℕ → Self → HistoryEvent };
}

impl Takeable for Edit {
    ghost use Rattle.node_histories.specs.declared.events.HistoryEvent.TheVariants.{Edited};

    ghost event = { Edited };
}

impl Takeable for Piece {
    ghost use Rattle.node_histories.specs.declared.events.HistoryEvent.TheVariants.{Absorbed};

    ghost event = { Absorbed };
}

// A request, with the seat that makes it.
#[derive(Drop)]
pub(crate) struct Asked<T> {
    pub(crate) seat: u64,
    pub(crate) what: T,
}
