//! The words of calls and of timers.
#![tactic(auto)]

mod call;
mod data_word;
mod requester;
mod timer;
mod words;

pub use call::{call_of, call_of_any};
pub use data_word::data_of;
pub use timer::{timer_of, timer_of_any};
