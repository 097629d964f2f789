//! A packet of ATP that came to a socket of a node, with its sender and the seat of the node.
ghost use Rattle.std.specs.Prelude.{◌≡◌, IfOk, IfErr, IsOkAnd};
ghost use Rattle.at_atp_frame.specs.Fault.{IsFirstFault};
ghost use Rattle.at_atp_frame.specs.Frames.{Content, Spells, content};

use at_atp::{AtpFault, Frame};
use at_ddp::Address;
use at_event::Seat;
use at_packet::AtpPacket;

/// A packet that came to a socket of a node.
#[derive(Clone, Copy)]
pub struct Incoming<'a> {
    /// Where the node stands.
    pub seat: Seat,
    /// Who sent the packet.
    pub from: Address,
    pub frame: Frame<'a>,
}

impl<'a> Incoming<'a> {
    /// The packet of a datagram that came to a node.
    pub fn of(seat: Seat, packet: &AtpPacket<'a>) -> Result<Incoming<'a>, AtpFault>
        ensures seat { IfOk result (λ p. p.seat ≡ seat) }
        ensures from { IfOk result (λ p. p.from ≡ packet.now.from) }
        ensures found { IfOk result (λ p. Spells packet.now.data_ (content p.frame)) }
        ensures only { (f : Content) → Spells packet.now.data_ f
            → IsOkAnd result (λ p. content p.frame ≡ f) }
        ensures fault { IfErr result (λ fault. IsFirstFault fault packet.now.data_) }
    {
        let from = packet.datagram().from;
        match packet.frame() {
            Ok(frame) => Ok(Incoming { seat, from, frame }),
            Err(fault) => Err(fault),
        }
    }
}
