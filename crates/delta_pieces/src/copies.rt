//! Copies of entries, collected in a store.
ghost use Rattle.std.specs.Prelude.{◌≡◌, map, take, drop, IfOk, OnOk};
ghost use Rattle.edit_sums.specs.Sums.{edit_of, sum_of, with_edit};

use edit_sums::{Edit, Entry};
use replica_store::{Entries, Placed, Store};
use std::alloc::{AllocError, Global};

// Joins a copy of an entry, which shares the entry's bytes.
pub fn join_copy(store: &mut Store, placed: &Placed) -> Result<(), AllocError>
    ensures ok { OnOk result (store.new ≡ with_edit store.old (edit_of placed.now)) }
{
    let Entry { version, content } = placed.entry().try_clone()?;
    store.join_edit(Edit {
        place: placed.place()?,
        version,
        content,
    })
}

// Takes up to `most` entries from the iterator, and returns copies of them as a store. Costs a search for each.
pub fn gather(alloc: Global, entries: &mut Entries, most: usize) -> Result<Store, AllocError>
    ensures gathered { IfOk result (λ store. store ≡ sum_of (map edit_of (take most entries.old))) }
    ensures left { OnOk result (entries.new ≡ drop most entries.old) }
{
    let mut store = Store::new(alloc);
    let mut left = most;
    while left > 0 {
        let Some(placed) = entries.next_entry() else {
            return Ok(store);
        };
        join_copy(&mut store, &placed)?;
        left -= 1;
    }
    Ok(store)
}
