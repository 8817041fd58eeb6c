//! What replicas send each other: digests, which have the version at each place, and pieces (deltas), which have
//! entries. A piece cut for a digest has what the digest's owner lacks: entries with a greater version than the digest
//! has, and entries at places that aren't in the digest.
//!
//! Promise: pieces are exact; a refused merge lies between; what was consumed comes back.
//!
//! Both are plain values: a digest may be out of date, and a piece may be split, delayed, lost or taken twice, because
//! taking a piece joins it into the store (Shapiro, Preguica, Baquero, Zawirski, "Conflict-free Replicated Data Types",
//! 2011).
//!
//! - `digest`, `digest_at`: make a `Digest` of a replica.
//! - `delta_for`, `delta_at`, `delta_between`, `delta_between_at`: cut a `Piece`.
//! - `take`: joins a piece into a replica.
#![tactic(auto)]

mod asks;
mod copies;
mod cuts;
mod digests;
mod newer;
mod pieces;
mod takes;

pub use asks::{digest, digest_at};
pub use cuts::{delta_at, delta_between, delta_between_at, delta_for};
pub use digests::Digest;
pub use join_law::Rest;
pub use pieces::Piece;
pub use takes::{TakeFault, take};
