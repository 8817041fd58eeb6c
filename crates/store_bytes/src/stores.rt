//! Stores and pieces as bytes.
ghost use Rattle.std.specs.Prelude.{◌≡◌, ◌++◌, IfOk, Ok, OnOk};
ghost use Rattle.std.specs.FinMap as finmap;
ghost use Rattle.edit_sums.specs.Sums.{edit_of, EntryMap, with_edit};
ghost use Rattle.byte_fields.specs.Reading.{Gives};
ghost use Rattle.store_bytes.specs.{Bytes.{entries_in, HasSpelling, id_of, scopes_of, spelling_of}, ListSpelling.{covered, pairs}, Spelling.{entry, path, scope}};

use crate::entry_reader::EntryReader;
use crate::heads::{head_of, put_sum, sum_of};
use crate::scopes::put_scopes;
use byte_fields::DecodeFault;
use delta_pieces::Piece;
use edit_sums::{Edit, Entry};
use load_places::Place;
use path_maps::Store;
use std::alloc::{AllocError, Global};

/// Returns the bytes of a store: its one spelling, which any store that is the same has too. Linear in what it holds.
/// Fails only if memory runs out.
pub fn store_to_bytes(store: &Store) -> Result<Vec<u8>, AllocError>
    ensures bytes { IfOk result (λ bytes. bytes.items ≡ spelling_of 1 store.now) }
    ensures spelled { IfOk result (λ _. HasSpelling store.now) }
{
    bytes_of(1, store)
}

/// Returns the store whose bytes these are. Fails with `Memory` if memory runs out, else with the first fault that is met
/// from the start, where the checksum is tested before the list; trailing bytes are a fault too. O(n log n).
pub fn store_from_bytes(alloc: Global, bytes: &[u8]) -> Result<Store, DecodeFault>
    // The bytes are the spelling of the store, each byte of it.
    ensures found { IfOk result (λ store. HasSpelling store × (bytes.now ≡ spelling_of 1 store)) }
    // The spelling of a store is read as that store, unless memory runs out.
    ensures only { (s : EntryMap) → HasSpelling s → bytes.now ≡ spelling_of 1 s
        → Gives (λ store. store) result (Ok s) }
    // Which fault it is.
    ensures exact { Gives (λ store. finmap.entries store) result (entries_in 1 bytes.now) }
{
    read_store(alloc, 1, bytes)
}

/// Returns the identity of a store: the checksum that ends its bytes, which are made and dropped. Linear in what it
/// holds. Fails only if memory runs out.
pub fn store_id(store: &Store) -> Result<[u8; 32], AllocError>
    ensures id { IfOk result (λ id. id ≡ id_of store.now) }
{
    let covered = covered_of(1, store)?;
    Ok(sum_of(&covered))
}

/// Returns the bytes of a piece: its one spelling, which any piece that is the same has too. Linear in what it holds.
/// Fails only if memory runs out.
pub fn piece_to_bytes(piece: &Piece) -> Result<Vec<u8>, AllocError>
    ensures bytes { IfOk result (λ bytes. bytes.items ≡ spelling_of 2 piece.now) }
    ensures spelled { IfOk result (λ _. HasSpelling piece.now) }
{
    bytes_of(2, piece.store())
}

/// Returns the piece whose bytes these are. The faults are those of `store_from_bytes`. O(n log n).
pub fn piece_from_bytes(alloc: Global, bytes: &[u8]) -> Result<Piece, DecodeFault>
    // The bytes are the spelling of the piece, each byte of it.
    ensures found { IfOk result (λ piece. HasSpelling piece × (bytes.now ≡ spelling_of 2 piece)) }
    // The spelling of a piece is read as that piece, unless memory runs out.
    ensures only { (s : EntryMap) → HasSpelling s → bytes.now ≡ spelling_of 2 s
        → Gives (λ piece. piece) result (Ok s) }
    // Which fault it is.
    ensures exact { Gives (λ piece. finmap.entries piece) result (entries_in 2 bytes.now) }
{
    match read_store(alloc, 2, bytes) {
        Ok(store) => Ok(Piece::from_store(store)),
        Err(fault) => Err(fault),
    }
}

// Returns the bytes of a store as a value of this kind.
fn bytes_of(kind: u8, store: &Store) -> Result<Vec<u8>, AllocError>
    ensures bytes { IfOk result (λ bytes. bytes.items ≡ spelling_of kind store.now) }
    ensures spelled { IfOk result (λ _. HasSpelling store.now) }
{
    let mut out = covered_of(kind, store)?;
    put_sum(&mut out)?;
    Ok(out)
}

// Returns the bytes of a store without their checksum.
fn covered_of(kind: u8, store: &Store) -> Result<Vec<u8>, AllocError>
    ensures covered { IfOk result
        (λ bytes. bytes.items ≡ covered scope (pairs path entry) kind (scopes_of store.now)) }
    ensures spelled { IfOk result (λ _. HasSpelling store.now) }
{
    let mut out = head_of(store.allocator(), kind)?;
    put_store(&mut out, store)?;
    Ok(out)
}

/// Appends the entries of a store by scope. Fails only if memory runs out; part of them may then be there.
pub fn put_store(out: &mut Vec<u8>, store: &Store) -> Result<(), AllocError>
    ensures written { OnOk result
        (out.new.items ≡ out.old.items ++ pairs scope (pairs path entry) (scopes_of store.now)) }
    ensures spelled { OnOk result (HasSpelling store.now) }
{
    let list = entries_of(store)?;
    put_scopes(out, &list)?;
    Ok(())
}

// Returns copies of all entries in place order, which share their bytes.
fn entries_of(store: &Store) -> Result<Vec<(Place, Entry)>, AllocError>
    ensures entries { IfOk result (λ list. list.items ≡ finmap.entries store.now) }
{
    let mut list = Vec::with_capacity(store.allocator(), store.len())?;
    let mut entries = store.entries();
    while let Some(placed) = entries.next_entry() {
        list.push((placed.place()?, placed.entry().try_clone()?))?;
    }
    Ok(list)
}

// Returns the store that bytes of this kind spell.
fn read_store(alloc: Global, kind: u8, bytes: &[u8]) -> Result<Store, DecodeFault>
    ensures found { IfOk result
        (λ store. HasSpelling store × (bytes.now ≡ spelling_of kind store)) }
    ensures only { (s : EntryMap) → HasSpelling s → bytes.now ≡ spelling_of kind s
        → Gives (λ store. store) result (Ok s) }
    ensures exact { Gives (λ store. finmap.entries store) result (entries_in kind bytes.now) }
{
    gather(alloc, kind, bytes)
}

// Joins the entries that bytes of this kind spell.
fn gather(alloc: Global, kind: u8, bytes: &[u8]) -> Result<Store, DecodeFault>
    ensures read { Gives (λ store. finmap.entries store) result (entries_in kind bytes.now) }
{
    let mut entries = EntryReader::open(alloc, kind, bytes)?;
    let mut store = Store::new(alloc);
    while let Some(pair) = entries.next()? {
        join_pair(&mut store, pair)?;
    }
    Ok(store)
}

// Joins an entry at its place.
fn join_pair(store: &mut Store, pair: (Place, Entry)) -> Result<(), AllocError>
    ensures joined { OnOk result (store.new ≡ with_edit store.old (edit_of pair)) }
{
    let (place, entry) = pair;
    let Entry { version, content } = entry;
    store.join_edit(Edit {
        place,
        version,
        content,
    })
}
