//! Shared lemmas on lists, orders and Boolean tests. The crate has no code: everything is in `specs/`.
//!
//! Promise: none of its own; the laws of most others rest on it.
//!
//! The lemmas are about membership in a list, lists sorted in strictly ascending order, insertion into a sorted list,
//! binary search, the first element that has an answer, filters, splits at an index, the lines of a text, and
//! comparisons.
#![tactic(auto)]
