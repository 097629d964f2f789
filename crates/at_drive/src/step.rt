//! The steps of a drive.
ghost use Rattle.std.specs.Prelude.{◌≡◌};

use at_event::{Call, Timer};
use std::alloc::{Allocator, Global};

/// A step of a drive.
#[derive(Drop)]
pub enum Step<A: Allocator = Global> {
    /// A node's user makes a call.
    Call { node: u8, call: Call<A> },
    /// A timer of a node fires.
    Timer { node: u8, timer: Timer },
    /// A node takes a datagram that waits for it on the cable, if one does.
    Poll { node: u8 },
}

impl<A: Allocator> Step<A> {
    ghost use Rattle.at_drive.specs.Steps.{node_of};

    /// The number of the node that takes the step.
    pub fn node(&self) -> u8
        ensures { result ≡ node_of self.now }
    {
        match self {
            Step::Call { node, .. } | Step::Timer { node, .. } | Step::Poll { node } => *node,
        }
    }
}
