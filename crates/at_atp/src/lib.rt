//! Transactions of the AppleTalk Transaction Protocol (ATP): packets, the requester and the responder, and the laws of
//! a network of them.
#![tactic(auto)]

pub mod laws;

pub use at_atp_frame::{
    AtpFault, Frame, HEADER_LEN, MAX_DATA, PACKET_LEN, Packet, decode, encode, ranges_of,
    ranges_of_bytes, send,
};
pub use at_atp_requester::{Ending, RequestProgress, Requester, Retry};
pub use at_atp_responder::{Key, NewRequest, Reception, Responder};
