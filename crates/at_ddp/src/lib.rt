//! Datagrams of AppleTalk's Datagram Delivery Protocol (DDP), and what all layers above share. These are addresses,
//! short strings, lists that contracts compare, and the outbox with what a node sends.
#![tactic(auto)]

mod address;
mod bytes;
mod datagram;
mod fault;
pub mod laws;
mod listed;
mod numbers;
mod outbox;
mod pascal;
mod protocol;
mod sending;
mod sum;
mod text;

pub use address::Address;
pub use bytes::Bytes;
pub use datagram::{Datagram, HEADER_LEN, MAX_DATA, decode, encode};
pub use fault::DdpFault;
pub use listed::Listed;
pub use numbers::first_free;
pub use outbox::Outbox;
pub use pascal::Pascal;
pub use protocol::{ADSP, ATP, NBP};
pub use sum::rotating_sum;
pub use text::same_text;
