//! A datagram whose data was decoded as NBP.
ghost use Rattle.std.specs.Prelude.{◌≡◌, List, ℕ, length, IfOk, IfErr, IsOkAnd, IsErrOf};
ghost use Rattle.at_ddp.specs.Datagram.{content as written};
ghost use Rattle.at_nbp.specs.Fault.{IsFirstFault};
ghost use Rattle.at_nbp.specs.Packets.{BeginsWith, Content, HasCount, packet_content};
ghost use Rattle.at_nbp.specs.declared.fault.NbpFault.{NbpFault as Fault};
ghost use Rattle.at_packet.specs.Bodies.Nbp.{IsNames};

use at_ddp::Datagram;
use at_nbp::{NbpFault, Packet, decode};
use std::marker::Model;

/// A datagram with the NBP packet at the front of its data, or with the first fault of its data.
#[derive(Drop)]
pub struct NbpPacket<'a> {
    datagram: Datagram<'a>,
    packet: Result<Packet<'a>, NbpFault>,
}

impl<'a> Model for NbpPacket<'a> {
    ghost use Rattle.at_ddp.specs.Datagram.{Content, content};
    ghost use Rattle.at_packet.specs.Bodies.Nbp.{IsNames};

    ghost Value = { Content };

    ghost view = { λ p. content p.datagram };

    ghost invariant = { λ p. IsNames p.datagram.data_.now p.packet };
}

impl<'a> NbpPacket<'a> {
    /// Decodes the data of a datagram.
    pub fn of(datagram: Datagram<'a>) -> NbpPacket<'a>
        ensures { result ≡ written datagram.entry }
    {
        let packet = decoded(datagram.data_);
        NbpPacket { datagram, packet }
    }

    pub fn datagram(&self) -> Datagram<'a>
        ensures { written result ≡ self.now }
    {
        self.datagram
    }

    /// The packet at the front of the datagram's data, or the first fault of the data. Bytes after it are ignored.
    pub fn packet(&self) -> Result<&Packet<'a>, NbpFault>
        ensures found { IfOk result (λ p. (rest : List ℕ) × BeginsWith self.now.data_ (packet_content p.now) rest) }
        ensures counted { IfOk result (λ p. HasCount p.now.function (length p.now.tuples)) }
        ensures only { (p : Content) (rest : List ℕ) → BeginsWith self.now.data_ p rest
            → IsOkAnd result (λ q. packet_content q.now ≡ p) }
        ensures fault { IfErr result (λ fault. IsFirstFault fault self.now.data_) }
        ensures refused { (fault : Fault) → IsFirstFault fault self.now.data_ → IsErrOf result fault }
    {
        match &self.packet {
            Ok(packet) => Ok(packet),
            Err(fault) => Err(*fault),
        }
    }
}

fn decoded(bytes: &[u8]) -> Result<Packet<'_>, NbpFault>
    ensures { IsNames bytes.now result }
{
    match decode(bytes) {
        Ok((packet, _)) => Ok(packet),
        Err(fault) => Err(fault),
    }
}
