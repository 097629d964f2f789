//! Segments of the AppleTalk Data Stream Protocol (ADSP) as they are on the wire.
#![tactic(auto)]

mod fault;
pub mod laws;
mod order;
mod reading;
mod segment;
mod sending;
mod writing;

pub use fault::AdspFault;
pub use order::before;
pub use reading::decode;
pub use segment::{Body, HEADER_LEN, MAX_DATA, OPENING_LEN, OpenKind, SEGMENT_LEN, Segment};
pub use sending::send;
pub use writing::encode;
