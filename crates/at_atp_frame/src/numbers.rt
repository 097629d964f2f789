//! The transaction number that a packet carries, and who drew it: the side that asks, whichever way the packet goes.
ghost use Rattle.std.specs.Prelude.{◌≡◌};
ghost use Rattle.at_atp_frame.specs.Frames.{content, number_of, owner};

use crate::frame::Frame;
use at_ddp::Address;

impl Frame<'_> {
    /// The number of the transaction that the packet is of.
    pub fn tid(&self) -> u16
        ensures { result ≡ number_of (content self.now) }
    {
        match self {
            Frame::Request { tid, .. } => *tid,
            Frame::Response { tid, .. } => *tid,
            Frame::Release { tid } => *tid,
        }
    }
}

/// The requester that drew the transaction number of a packet that was sent from one address to another.
pub fn owner(from: Address, to: Address, frame: &Frame<'_>) -> Address
    ensures { result ≡ owner from to (content frame.now) }
{
    match frame {
        Frame::Request { .. } => from,
        Frame::Response { .. } => to,
        Frame::Release { .. } => from,
    }
}
