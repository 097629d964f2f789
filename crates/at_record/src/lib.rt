//! The recording of a schedule: it is played, and a capture of all that its events sent is written.
#![tactic(auto)]

mod command;
mod playing;
mod program;
mod records;

pub use command::record_source;
pub use program::record_text;
