//! What the entries of another store change.
ghost use Rattle.std.specs.{Prelude.{◌≡◌, [], IfOk, IsOk}, Option.{option_copied}};
ghost use Rattle.std.specs.FinMap as finmap;
ghost use Rattle.path_maps.specs.{Changes.{ascends, additions, is_ascending, news_zipped}, Zipped.{zipped}};

use crate::stores::Store;
use edit_sums::Entry;
use load_places::Place;
use std::alloc::AllocError;

/// How many places the entries of another store change, and at how many of them nothing is held yet.
#[derive(Clone, Copy)]
pub struct Changes {
    pub changed: u64,
    pub added: usize,
}

/// Counts what joining another store changes. Reads both side by side. Allocates nothing.
pub fn count_changes(store: &Store, other: &Store) -> Changes
    ensures changed { result.changed ≡ ascends store.now (finmap.entries other.now) }
    ensures added { result.added ≡ additions store.now (finmap.entries other.now) }
{
    let mut both = other.entries_zipped(store);
    let mut changes = Changes {
        changed: 0,
        added: 0,
    };
    while let Some((placed, held)) = both.next_entry() {
        match held {
            None => {
                changes.changed += 1;
                changes.added += 1;
            }
            Some(entry) => {
                if entry.cmp(placed.entry()).is_lt() {
                    changes.changed += 1;
                }
            }
        }
    }
    changes
}

/// The places that joining another store changes, in place order. Reads both side by side. Allocates only when the list
/// grows, and fails only if memory runs out. Copies no bytes.
pub fn find_news(store: &Store, other: &Store) -> Result<Vec<Place>, AllocError>
    ensures places { IfOk result (λ places. places.items
        ≡ news_zipped (zipped (finmap.get store.now) (finmap.entries other.now))) }
    ensures without_memory { news_zipped (zipped (finmap.get store.now) (finmap.entries other.now))
        ≡ [] → IsOk result }
{
    let mut both = other.entries_zipped(store);
    let mut places = Vec::new(store.allocator());
    while let Some((placed, held)) = both.next_entry() {
        if is_news(held, placed.entry()) {
            places.push(placed.place()?)?;
        }
    }
    Ok(places)
}

// Whether an entry is greater than what is held at its place, or nothing is held there.
fn is_news(held: Option<&Entry>, entry: &Entry) -> bool
    ensures news { result ≡ is_ascending (option_copied held.entry) entry.now }
{
    match held {
        None => true,
        Some(held) => held.cmp(entry).is_lt(),
    }
}
