//! What a node takes from others.
ghost use Rattle.std.specs.Prelude.{◌≡◌, ◌↔◌, ◌++◌, ◌⊎◌, ◌^◌, ◌≤◌, IfOk, IsErrOf, OnErr, OnOk, true};
ghost use Rattle.std.specs.Option.{option_copied};
ghost use Rattle.edit_sums.specs.Sums.{changed_places, edit_of, high_of, IsStoreBelow, join};
ghost use Rattle.durable_node.specs.News.{is_news, news_of};

use crate::faults::NodeFault;
use crate::nodes::{COUNTERS, NodeFile};
use delta_pieces::{Piece, take};
use edit_log::EditLog;
use edit_sums::{Edit, Entry};
use replica_store::{Placed, Replica, Store};
use std::alloc::AllocError;

// Whether an entry is greater than what is held at its place, or nothing is held there.
fn is_news(held: Option<&Entry>, entry: &Entry) -> bool
    ensures news { result ≡ is_news (option_copied held.entry) entry.now }
{
    match held {
        None => true,
        Some(held) => held.cmp(entry).is_lt(),
    }
}

// A copy of an entry as an edit, which shares its bytes.
pub(crate) fn edit_at(placed: &Placed<'_>) -> Result<Edit, AllocError>
    ensures edit { IfOk result (λ edit. edit ≡ edit_of placed.now) }
{
    let Entry { version, content } = placed.entry().try_clone()?;
    Ok(Edit {
        place: placed.place()?,
        version,
        content,
    })
}

// The entries of another store that are news to a store, as edits, in place order.
fn news_of(store: &Store, other: &Store) -> Result<Vec<Edit>, AllocError>
    ensures news { IfOk result (λ news. news.items ≡ news_of store.now other.now) }
{
    let mut both = other.entries_zipped(store);
    let mut news = Vec::new(store.allocator());
    while let Some((placed, held)) = both.next_entry() {
        if is_news(held, placed.entry()) {
            news.push(edit_at(&placed)?)?;
        }
    }
    Ok(news)
}

// A replica that holds what another store holds too, and how many places that changes.
fn joined(replica: &Replica, other: &Store) -> Result<(Replica, u64), AllocError>
    ensures joined { IfOk result
        (λ both. both.0 ≡ record replica.now { store = join replica.now.store other.now }) }
    ensures changed { IfOk result (λ both. both.1 ≡ changed_places replica.now.store both.0.store) }
{
    let mut next = replica.try_clone()?;
    let changed = next.merge(other)?;
    Ok((next, changed))
}

impl<L: EditLog> NodeFile<L> {
    /// Joins a piece into the replica alone, and returns how many places changed: the next commit logs what was news.
    ///
    /// Fails with `Counter` exactly if the piece has a counter of 2^63 or more, and with `Memory` only if memory runs out.
    /// Then it changes nothing.
    pub fn take(&mut self, piece: &Piece) -> Result<u64, NodeFault>
        ensures joined { OnOk result
            (self.new.replica
            ≡ record self.old.replica { store = join self.old.replica.store piece.now }) }
        ensures changed { IfOk result
            (λ changed. changed ≡ changed_places self.old.replica.store self.new.replica.store) }
        ensures unsaved { OnOk result
            (self.new.unsaved ≡ self.old.unsaved ++ news_of self.old.replica.store piece.now) }
        ensures counter { IsErrOf result NodeFault.Counter ↔ (2 ^ 63 ≤ high_of piece.now) }
        ensures err { OnErr result (self.new ≡ self.old) }
        ensures log { self.new.log ≡ self.old.log }
        ensures whole { self.new.is_spent ≡ self.old.is_spent }
    {
        self.join(piece.store())
    }

    /// Joins a store into the replica alone, as `take` does a piece: the faults are those of `take`.
    pub fn join(&mut self, other: &Store) -> Result<u64, NodeFault>
        ensures joined { OnOk result
            (self.new.replica
            ≡ record self.old.replica { store = join self.old.replica.store other.now }) }
        ensures changed { IfOk result
            (λ changed. changed ≡ changed_places self.old.replica.store self.new.replica.store) }
        ensures unsaved { OnOk result
            (self.new.unsaved ≡ self.old.unsaved ++ news_of self.old.replica.store other.now) }
        ensures counter { IsErrOf result NodeFault.Counter ↔ (2 ^ 63 ≤ high_of other.now) }
        ensures err { OnErr result (self.new ≡ self.old) }
        ensures log { self.new.log ≡ self.old.log }
        ensures whole { self.new.is_spent ≡ self.old.is_spent }
    {
        if other.high() >= COUNTERS {
            return Err(NodeFault::Counter);
        }
        let mut news = news_of(self.replica.store(), other)?;
        let (next, changed) = joined(&self.replica, other)?;
        self.unsaved.append(&mut news)?;
        self.replica = next;
        Ok(changed)
    }

    /// Joins a piece into the replica alone, as `take` does, but copies nothing of the replica: costs what the piece has,
    /// and a search for each of its places.
    ///
    /// Fails with `Counter` exactly if the piece has a counter of 2^63 or more, and changes nothing. Fails with `Memory` only
    /// if memory runs out: then it changes nothing, or the node is spent, and what stands in its log is as it was.
    pub fn absorb(&mut self, piece: Piece) -> Result<u64, NodeFault>
        ensures joined { OnOk result
            (self.new.replica
            ≡ record self.old.replica { store = join self.old.replica.store piece }) }
        ensures changed { IfOk result
            (λ changed. changed ≡ changed_places self.old.replica.store self.new.replica.store) }
        ensures unsaved { OnOk result
            (self.new.unsaved ≡ self.old.unsaved ++ news_of self.old.replica.store piece) }
        ensures counter { IsErrOf result NodeFault.Counter ↔ (2 ^ 63 ≤ high_of piece) }
        ensures above { 2 ^ 63 ≤ high_of piece → self.new ≡ self.old }
        ensures kept { OnErr result ((self.new.is_spent ≡ true) ⊎ (self.new ≡ self.old)) }
        ensures log { self.new.log ≡ self.old.log }
        ensures whole { OnOk result (self.new.is_spent ≡ self.old.is_spent) }
        ensures writer { self.new.replica.writer ≡ self.old.replica.writer }
        ensures held { IsStoreBelow self.old.replica.store self.new.replica.store }
    {
        if piece.store().high() >= COUNTERS {
            return Err(NodeFault::Counter);
        }
        let mut news = news_of(self.replica.store(), piece.store())?;
        self.unsaved.append(&mut news)?;
        match take(&mut self.replica, piece) {
            Ok(changed) => Ok(changed),
            Err(_) => {
                self.is_spent = true;
                Err(NodeFault::Memory)
            }
        }
    }
}
