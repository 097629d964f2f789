//! The play of a schedule: it is looked through, played, and what comes of each event is printed.
#![tactic(auto)]

mod command;
mod ending;
pub mod laws;
mod playing;
mod playing_events;
mod playing_held;
mod playing_text;
mod program;
mod sent;

pub use command::play_source;
pub use program::{play_file, play_opened, play_text};
pub use sent::write_sent;
