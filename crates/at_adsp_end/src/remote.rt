//! The end at the other side, which an address and an identifier name together.
use at_ddp::Address;

/// The end at the other side of a connection.
#[derive(Clone, Copy, PartialEq, Eq)]
pub struct Remote {
    /// The address of its socket.
    pub address: Address,
    /// Its connection identifier.
    pub id: u16,
}
