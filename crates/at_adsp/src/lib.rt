//! Streams of the AppleTalk Data Stream Protocol (ADSP): segments, ends and a node's ends, and the laws of a network of
//! them.
#![tactic(auto)]

pub mod laws;

pub use at_adsp_ends::{EndChange, Ends, Item, MAX_ENDS, Phase, Remote, Rooms, StreamFault, Tick};
pub use at_adsp_frame::{
    AdspFault, Body, HEADER_LEN, MAX_DATA, OpenKind, SEGMENT_LEN, Segment, before, decode, encode,
    send,
};
