//! The part of a node that speaks ATP: the sockets for transactions, the socket at which a router tells zones, and the
//! reading of a zone table, which is a user of the transactions.
#![tactic(auto)]

mod atp_part;
mod hearing;
pub mod laws;
mod page_taking;
mod standing;
mod turning;
mod zone_reading;
mod zone_socket;

pub use atp_part::AtpPart;
pub use zone_socket::{ZONE_SOCKET, ZoneSocket};
