//! A datagram whose data was decoded as ADSP.
ghost use Rattle.std.specs.Prelude.{◌≡◌, IfOk, IfErr, IsOkAnd};
ghost use Rattle.at_ddp.specs.Datagram.{content as written};
ghost use Rattle.at_adsp_frame.specs.Fault.{IsFirstFault};
ghost use Rattle.at_adsp_frame.specs.Segments.{Content, Spells, content};

use at_adsp_frame::{AdspFault, Segment, decode};
use at_ddp::Datagram;
use std::marker::Model;

/// A datagram with the segment that its data spells, or with the first fault of its data.
#[derive(Drop)]
pub struct AdspPacket<'a> {
    datagram: Datagram<'a>,
    segment: Result<Segment<'a>, AdspFault>,
}

impl<'a> Model for AdspPacket<'a> {
    ghost use Rattle.at_ddp.specs.Datagram.{Content, content};
    ghost use Rattle.at_packet.specs.Bodies.Adsp.{IsSegment};

    ghost Value = { Content };

    ghost view = { λ p. content p.datagram };

    ghost invariant = { λ p. IsSegment p.datagram.data_.now p.segment };
}

impl<'a> AdspPacket<'a> {
    /// Decodes the data of a datagram.
    pub fn of(datagram: Datagram<'a>) -> AdspPacket<'a>
        ensures { result ≡ written datagram.entry }
    {
        let segment = decode(datagram.data_);
        AdspPacket { datagram, segment }
    }

    pub fn datagram(&self) -> Datagram<'a>
        ensures { written result ≡ self.now }
    {
        self.datagram
    }

    /// The segment that is all of the datagram's data, or the first fault of the data.
    pub fn segment(&self) -> Result<Segment<'a>, AdspFault>
        ensures found { IfOk result (λ s. Spells self.now.data_ (content s)) }
        ensures only { (s : Content) → Spells self.now.data_ s → IsOkAnd result (λ t. content t ≡ s) }
        ensures fault { IfErr result (λ fault. IsFirstFault fault self.now.data_) }
    {
        self.segment
    }
}
