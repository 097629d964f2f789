//! A node of the cable, as the router knows it. The router relays a lookup in the zone of the node that asks.
use at_ddp::Pascal;

/// A node of the cable, as the router knows it.
#[derive(Debug, Drop)]
pub struct Neighbour {
    /// 1 to 254.
    pub node: u8,
    /// The zone that the node is in.
    pub zone: Pascal,
}
