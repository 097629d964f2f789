//! Packets of the AppleTalk Transaction Protocol (ATP) as they are on the wire.
#![tactic(auto)]

mod fault;
mod frame;
pub mod laws;
mod numbers;
mod packet;
mod sending;
mod words;

pub use fault::AtpFault;
pub use frame::{Frame, HEADER_LEN, MAX_DATA, PACKET_LEN, decode, encode};
pub use numbers::owner;
pub use packet::Packet;
pub use sending::send;
pub use words::{ranges_of, ranges_of_bytes};
