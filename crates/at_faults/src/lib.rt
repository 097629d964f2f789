//! The bytes of a schedule, and why they are none: they can't be read, or a line of them breaks a rule.
#![tactic(auto)]

mod fault;
mod input;
mod rule;

pub use fault::{Fault, LineFault, Unreadable};
pub use input::{MAX_LEN, check_length, read_at_most, read_bytes};
pub use rule::Rule;
