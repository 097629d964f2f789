//! Recordings: classic captures of the datagrams that are sent on a cable, each in a frame of EtherTalk.
#![tactic(auto)]

mod frame;
pub mod laws;
mod moment;
mod recording;

pub use moment::Moment;
pub use recording::{write_front, write_record};
