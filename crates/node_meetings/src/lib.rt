//! Whom a node meets: what it says of itself to a peer, whether it may meet who answers, and whom it then knows. Two files of
//! one number are not to meet, since both give out the same versions.
//!
//! Promise: two files of one number are refused.
//!
//! - `hello_of`: what a node says of itself; `may_meet`: whether who says so may be met; `news_of`: what is noted of a meeting.
//! - `meeting_laws`: of two that may not meet both refuse.
#![tactic(auto)]

mod laws;
mod meeting;

pub use laws::meeting_laws;
pub use meeting::{hello_of, may_meet, news_of};
