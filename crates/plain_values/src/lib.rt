//! Basic values that all layers use: byte strings, lists, shared values, and the traits `TryClone` and `Key`. Copying a
//! byte string is cheap: up to 22 bytes are stored inline, and copies of a longer string share its bytes.
//!
//! Promise: the store is its map.
//!
//! - `Bytes`: a byte string, of which keys, contents, texts and names are made; `SharedBytes`: one whose bytes are
//!   always shared.
//! - `Items`: a list that contracts see as its elements; `Shared`: any value, shared by its copies.
//! - `TryClone`: values whose copy may fail if memory runs out; `Key`: those with a total order.
//! - `copied` and `append_copies`: copies of lists of such values.
//! - `order` and `same`: comparison of byte slices, several bytes at a time.
#![tactic(auto)]

mod bytes;
mod items;
mod keys;
mod lists;
mod orders;
mod shared;
mod sharing;
mod short;

pub use bytes::Bytes;
pub use items::Items;
pub use keys::{Key, TryClone};
pub use lists::{append_copies, copied};
pub use orders::{order, same};
pub use shared::SharedBytes;
pub use sharing::Shared;
