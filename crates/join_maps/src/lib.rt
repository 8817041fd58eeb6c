//! Maps whose values have a join (`join_law`), joined key by key. Such a map has a join itself, so maps of maps have one.
//!
//! Promise: merge is the least upper bound; a refused merge lies between.
//!
//! A map holds one pair in itself, or sorted pairs in runs (`chunked_pairs`).
//!
//! - `JoinMap`: the map; `Pairs`, a cursor over its pairs; `Sought`, a key that is looked for in another form.
//! - `Addition` (`AddValue`, `AddAt`): joins one value at a key, at any depth of maps of maps.
//! - `ChangeAt`: changes the value at a key, in place.
#![tactic(auto)]

mod additions;
mod changes;
mod copies;
mod held;
mod maps;
mod meetings;
mod merges;
mod passes;
mod runs;
mod walks;

pub use additions::{AddAt, AddValue, Addition};
pub use changes::ChangeAt;
pub use chunked_pairs::{Pairs, Sought};
pub use maps::JoinMap;
