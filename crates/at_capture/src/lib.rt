//! What `capture` prints of a capture: a line for each frame, and under it the datagram that the frame carries and the
//! frame that it answers.
#![tactic(auto)]

mod asked;
mod capture_printer;
mod command;
mod datagram_lines;
mod ending;
mod frame;
mod frame_lines;
mod frames;
mod question;
mod roles;
mod stations;
mod tally;
mod time;

pub use capture_printer::CapturePrinter;
pub use frame::Frame;
pub use tally::{FrameVerdict, Tally};
