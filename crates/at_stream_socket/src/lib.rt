//! The socket of a node for streams: its calls, its timers, and what segments do there.
#![tactic(auto)]

mod calls;
mod carrying;
mod hearing;
pub mod laws;
mod reading;
mod socket;

pub use carrying::carried;
pub use socket::{STREAM_SOCKET, StreamSocket};
