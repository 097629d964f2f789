//! Received bytes, read once: the datagram at their front, and the packet of its protocol in its data.
#![tactic(auto)]

ghost use Rattle.std.specs.Prelude.{◌≡◌};
ghost use Rattle.at_ddp.specs.Datagram.{content};
ghost use Rattle.at_packet.specs.Bodies.{IsBody, datagram_of};

use at_ddp::{ADSP, ATP, Datagram, NBP};

mod adsp;
mod atp;
mod nbp;
mod packet;

pub use adsp::AdspPacket;
pub use atp::AtpPacket;
pub use nbp::NbpPacket;
pub use packet::Packet;

/// A datagram with what its data is decoded as, by the protocol that its header names.
#[derive(Drop)]
pub enum Body<'a> {
    Atp(AtpPacket<'a>),
    Nbp(NbpPacket<'a>),
    Adsp(AdspPacket<'a>),
    /// A datagram of another protocol.
    Other(Datagram<'a>),
}

impl<'a> Body<'a> {
    /// Decodes the data of a datagram by its protocol.
    pub fn of(datagram: Datagram<'a>) -> Body<'a>
        ensures datagram { datagram_of result ≡ content datagram.entry }
        ensures protocol { IsBody result }
    {
        match datagram.kind {
            ATP => Body::Atp(AtpPacket::of(datagram)),
            NBP => Body::Nbp(NbpPacket::of(datagram)),
            ADSP => Body::Adsp(AdspPacket::of(datagram)),
            _ => Body::Other(datagram),
        }
    }

    pub fn datagram(&self) -> Datagram<'a>
        ensures { content result ≡ datagram_of self.now }
    {
        match self {
            Body::Atp(packet) => packet.datagram(),
            Body::Nbp(packet) => packet.datagram(),
            Body::Adsp(packet) => packet.datagram(),
            Body::Other(datagram) => *datagram,
        }
    }
}
