//! Where a node is on its cable, and which datagrams are for it.
ghost use Rattle.std.specs.Prelude.{◌≡◌, ◌||◌};
ghost use Rattle.at_event.specs.Seats.{at_socket, is_for_all, is_mine};

use at_ddp::{Address, NBP};

/// The node number that means every node.
const EVERY_NODE: u8 = 255;

/// Where a node is on its cable.
#[derive(Clone, Copy)]
pub struct Seat {
    /// The number of its network.
    pub net: u16,
    /// Its own number, 1 to 254.
    pub number: u8,
    /// The number of the cable's router, if there is one.
    pub router: Option<u8>,
}

impl Seat {
    /// The address of a socket of this node.
    pub fn at(self, socket: u8) -> Address
        ensures { result ≡ record { net = self.net; node = self.number; socket = socket } }
    {
        self.there(self.number, socket)
    }

    /// The address of a socket of a node on this node's network.
    pub fn there(self, node: u8, socket: u8) -> Address
        ensures { result ≡ at_socket self node socket }
    {
        Address {
            net: self.net,
            node,
            socket,
        }
    }

    /// Whether a datagram of a protocol to this address is for the node.
    pub fn is_for(self, kind: u8, to: Address) -> bool
        ensures { result ≡ (is_for_all self kind to || is_mine self to) }
    {
        self.is_for_all(kind, to) || self.is_mine(to)
    }

    fn is_for_all(self, kind: u8, to: Address) -> bool
        ensures { result ≡ is_for_all self kind to }
    {
        kind == NBP && ((to.net == self.net || to.net == 0) && to.node == EVERY_NODE)
    }

    // Whether an address is one of the node's own.
    fn is_mine(self, to: Address) -> bool
        ensures { result ≡ is_mine self to }
    {
        (to.net == self.net || to.net == 0) && to.node == self.number
    }
}
