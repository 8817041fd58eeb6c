//! Fields of a byte format: single bytes, numbers of few bytes, and strings with their lengths. Each value has one
//! spelling, and other bytes are refused by name.
//!
//! Promise: one spelling each; bytes are read exactly.
//!
//! A field is read from the start of bytes, and returned with the bytes after it. Numbers are written as in LEB128
//! (DWARF 5, 7.6), in their shortest form alone.
//!
//! - `reading`, `writing`: the fields.
//! - `faults`: `SpellingFault`, what is wrong with bytes, and `DecodeFault`, which may also be out of memory.
//! - `laws`: what is written is read back, and what is read was written so. `specs/Composing` makes records of fields.
#![tactic(auto)]

mod faults;
mod laws;
mod reading;
mod writing;

pub use faults::{DecodeFault, SpellingFault};
pub use laws::fields_read_back;
pub use reading::{byte_of, long_string_of, number_of, short_string_of};
pub use writing::{put_long_string, put_number, put_short_string};
