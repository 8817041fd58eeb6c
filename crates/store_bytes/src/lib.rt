//! Stores, pieces and digests as bytes. Each has one string of bytes, and no other string is read as it; docs/FORMAT.md
//! says which, so that another program can write and read them.
//!
//! Promise: one spelling each; bytes are read exactly; a decoder in pieces.
//!
//! Before the list of a value stand a head and its kind, after it the SHA-256 of all before (FIPS 180-4). A store's and a
//! piece's entries are grouped by scope, so that each host is named once.
//!
//! - `store_to_bytes`, `store_from_bytes`, `store_id`; `piece_to_bytes`, `piece_from_bytes`; `digest_to_bytes`,
//!   `digest_from_bytes`: whole values. `bytes_are_one_to_one` is their law.
//! - `Decoder`: is fed bytes as they come, and then read one by one by an `EntryReader` or a `VersionReader`.
//! - `head_of`, `put_sum`, `open`; `put_place`, `place_of`; `put_versions`, `version_above`; `put_store`, `scope_head_of`,
//!   `entry_above`: the parts that a value of another kind is made of.
//! - `DecodeFault` and `SpellingFault`: why bytes can't be read.
#![tactic(auto)]

mod decoder;
mod digests;
mod entry_reader;
mod heads;
mod laws;
mod reading;
mod scopes;
mod stores;
mod version_reader;
mod writing;

pub use byte_fields::{DecodeFault, SpellingFault};
pub use decoder::Decoder;
pub use digests::{digest_from_bytes, digest_to_bytes, put_versions};
pub use entry_reader::{EntryReader, entry_above, scope_head_of};
pub use heads::{head_of, open, put_sum};
pub use laws::bytes_are_one_to_one;
pub use reading::place_of;
pub use stores::{
    piece_from_bytes, piece_to_bytes, put_store, store_from_bytes, store_id, store_to_bytes,
};
pub use version_reader::{VersionReader, version_above};
pub use writing::put_place;
