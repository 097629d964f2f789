//! What the frames of captures carry: EtherTalk, LocalTalk, LocalTalk over UDP, and datagrams with the short header.
#![tactic(auto)]

mod carried;
mod cooked;
mod ethernet;
mod ethertalk;
mod frame;
mod ip;
pub mod laws;
mod llap;
mod llc;
mod numbers;
mod short;
mod short_fault;

pub use carried::{Carried, Carrier, Header, Reason, Station, Stations};
pub use ethertalk::{ETHERTALK_HEADER_LEN, MAX_ETHERTALK, ethertalk_header};
pub use frame::{
    LINKTYPE_ETHERNET, LINKTYPE_LINUX_COOKED, LINKTYPE_LINUX_COOKED_2, LINKTYPE_LOCALTALK,
    LINKTYPE_RAW_IP, LINKTYPE_RAW_IPV4, datagram_in,
};
pub use short::{SHORT_HEADER_LEN, decode_short};
pub use short_fault::ShortFault;
