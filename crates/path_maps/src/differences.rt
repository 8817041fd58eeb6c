//! The places of a store at which an older store shows something else.
ghost use Rattle.std.specs.{Prelude.{◌≡◌, [], IfOk, IsOk}, Option.{option_copied}};
ghost use Rattle.std.specs.FinMap as finmap;
ghost use Rattle.path_maps.specs.{Zipped.{zipped}, Changes.{additions}, Together.{differ, differing_zipped, shown_zipped}};

use crate::places::Placed;
use crate::stores::Store;
use edit_sums::Entry;
use load_places::Place;
use std::alloc::AllocError;

/// The places of a store at which an older store shows something else, in order, and how many places the store holds
/// that the older one doesn't.
#[derive(Drop)]
pub(crate) struct Unlike {
    pub(crate) places: Vec<Place>,
    pub(crate) added: usize,
}

/// Finds the places of `store` at which it shows something else than `older`. Reads both side by side and compares
/// contents, not versions. Places that only `older` holds are not looked at. Allocates only when the list grows, and
/// fails only if memory runs out. Copies no bytes.
pub(crate) fn find_unlike(store: &Store, older: &Store) -> Result<Unlike, AllocError>
    ensures places { IfOk result (λ found. found.places.items
        ≡ differing_zipped (zipped (finmap.get older.now) (finmap.entries store.now))) }
    ensures added { IfOk result
        (λ found. found.added ≡ additions older.now (finmap.entries store.now)) }
    ensures without_memory { differing_zipped
        (zipped (finmap.get older.now) (finmap.entries store.now)) ≡ [] → IsOk result }
{
    let mut both = store.entries_zipped(older);
    let mut found = Unlike {
        places: Vec::new(store.allocator()),
        added: 0,
    };
    while let Some((placed, held)) = both.next_entry() {
        if held.is_none() {
            found.added += 1;
        }
        if differs(&placed, held) {
            found.places.push(placed.place()?)?;
        }
    }
    Ok(found)
}

// Whether an entry shows something else than what an older store holds at its place. Compares contents, not versions.
fn differs(placed: &Placed<'_>, held: Option<&Entry>) -> bool
    ensures differs { result ≡ differ (shown_zipped (placed.now, option_copied held.entry)) }
{
    match held {
        Some(entry) => placed.entry().content != entry.content,
        None => placed.visible().is_some(),
    }
}
