//! Schedules of events as text: the setup that the first lines say, and the event of each line after them.
#![tactic(auto)]

mod cutting;
mod draft;
mod event_line;
pub mod laws;
mod reading;
mod schedule;
mod whole;

pub use at_faults::{Fault, LineFault, Rule, Unreadable};
pub use cutting::cut_line;
pub use draft::{Draft, is_passed_over};
pub use reading::read_line;
pub use schedule::{fault_at, read_setup};
pub use whole::{NumberedEvent, Schedule, read_schedule};
