//! The lines on standard error, one for each reason, and why a play ends before its last event.
#![tactic(auto)]

mod diagnostics;
mod input;
mod number_set;
mod sentence;
mod stop;

pub use diagnostics::Diagnostics;
pub use input::{end_unopened, tell_input};
pub use stop::{Stop, write_fault, write_stop};
