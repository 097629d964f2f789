//! The socket of a node for names: its own names, its lookups and claims of names, and the relay of a router.
#![tactic(auto)]

mod carrying;
mod claim;
mod claiming;
mod hearing;
pub mod laws;
mod neighbour;
mod socket;
mod step;

pub use carrying::carried;
pub use claim::Claim;
pub use neighbour::Neighbour;
pub use socket::{NAME_SOCKET, NameSocket};
pub use step::{Finished, Heard};
