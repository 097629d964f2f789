//! Where a datagram comes from or goes to.
/// A socket of a node of a network: where datagrams come from and go to. Node 255 means every node of the network.
#[derive(Clone, Copy, Debug, PartialEq, Eq, Hash)]
pub struct Address {
    pub net: u16,
    pub node: u8,
    pub socket: u8,
}
