//! Ranges of places, and their prints. A print is a number of 64 bits that is made of the places and versions in a range:
//! replicas with the same versions there have the same print, and others as good as never.
//!
//! Promise: what is answered in an exchange is what a world cuts.
//!
//! So what differs is found by ranges: one whose prints are unequal is cut into parts, until few enough versions are left in
//! it to be told one by one (Meyer, "Range-Based Set Reconciliation", 2023).
//!
//! - `Range`: its bounds are places; the lower one is in it and the upper one isn't.
//! - `versions`: the versions of a store in place order, each a `PlaceVersion`, which is borrowed.
//! - `within`: the versions in a range, out of all in place order.
//! - `parts`: cuts a range into parts with as many versions each.
//! - `print`: the print of some versions.
//! - `range_laws`: a print is the sum of those of parts; at places of a range the part of an ask does what the ask does.
#![tactic(auto)]

mod cuts;
mod laws;
mod place_versions;
mod prints;
mod ranges;

pub use cuts::parts;
pub use laws::range_laws;
pub use place_versions::{PlaceVersion, versions};
pub use prints::print;
pub use ranges::{Range, within};
