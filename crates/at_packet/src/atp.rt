//! A datagram whose data was decoded as ATP.
ghost use Rattle.std.specs.Prelude.{◌≡◌, IfOk, IfErr, IsOkAnd};
ghost use Rattle.at_ddp.specs.Datagram.{content as written};
ghost use Rattle.at_atp_frame.specs.Fault.{IsFirstFault};
ghost use Rattle.at_atp_frame.specs.Frames.{Content, Spells, content};

use at_atp_frame::{AtpFault, Frame, decode};
use at_ddp::Datagram;
use std::marker::Model;

/// A datagram with the ATP packet that its data spells, or with the first fault of its data.
#[derive(Drop)]
pub struct AtpPacket<'a> {
    datagram: Datagram<'a>,
    frame: Result<Frame<'a>, AtpFault>,
}

impl<'a> Model for AtpPacket<'a> {
    ghost use Rattle.at_ddp.specs.Datagram.{Content, content};
    ghost use Rattle.at_packet.specs.Bodies.Atp.{IsFrame};

    ghost Value = { Content };

    ghost view = { λ p. content p.datagram };

    ghost invariant = { λ p. IsFrame p.datagram.data_.now p.frame };
}

impl<'a> AtpPacket<'a> {
    /// Decodes the data of a datagram.
    pub fn of(datagram: Datagram<'a>) -> AtpPacket<'a>
        ensures { result ≡ written datagram.entry }
    {
        let frame = decode(datagram.data_);
        AtpPacket { datagram, frame }
    }

    pub fn datagram(&self) -> Datagram<'a>
        ensures { written result ≡ self.now }
    {
        self.datagram
    }

    /// The packet that is all of the datagram's data, or the first fault of the data.
    pub fn frame(&self) -> Result<Frame<'a>, AtpFault>
        ensures found { IfOk result (λ f. Spells self.now.data_ (content f)) }
        ensures only { (f : Content) → Spells self.now.data_ f → IsOkAnd result (λ g. content g ≡ f) }
        ensures fault { IfErr result (λ fault. IsFirstFault fault self.now.data_) }
    {
        self.frame
    }
}
