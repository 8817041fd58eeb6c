//! What a unit's name and its effective values say by themselves: the values of keys, whether the unit has default
//! dependencies, and which units texts name. Nothing is implied here yet; who implies asks.
//!
//! Promise: units are exact.
//!
//! - `facts`: the values of a key in the section of a unit's type.
//! - `built_in`: units without a file. `defaults`: default dependencies.
//! - `names`: units that texts name. `texts`: parts of texts.
#![tactic(auto)]

mod built_in;
mod defaults;
mod facts;
mod names;
mod texts;

pub use built_in::{is_built_in, is_perpetual, perpetual_units};
pub use defaults::has_defaults;
pub use facts::{
    boolean_in, has_in, is_among, is_one_of, last_in, section_of, values_in, words_in, yes_in,
};
pub use names::{first_other, last_named, named, served_service, sister};
pub use texts::{before_first, before_last, between};
