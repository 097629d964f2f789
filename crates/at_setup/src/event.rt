//! The events of a world.
use at_ddp::Bytes;
use at_event::{Call, Timer};
use std::alloc::{Allocator, Global};

/// An event of a world.
#[derive(Drop)]
pub enum Event<A: Allocator = Global> {
    /// A node's user makes a call.
    Call { node: u8, call: Call<A> },
    /// The datagram of this number comes to a node, for the first time or again.
    Deliver { datagram: u64, node: u8 },
    /// A timer of a node fires.
    Timer { node: u8, timer: Timer },
    /// Bytes that no node sent come to a node.
    Forge { node: u8, bytes: Bytes<A> },
}
