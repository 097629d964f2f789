//! A schedule whose nodes are driven over UDP, from its text to what is printed.
#![tactic(auto)]

mod command;
mod driving;
mod program;

pub use command::drive_source;
pub use program::{drive_file, drive_opened, drive_stream};
