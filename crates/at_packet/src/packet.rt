//! Received bytes, with the datagram at their front and its packet.
ghost use Rattle.std.specs.Prelude.{◌≡◌, List, ℕ, IfOk, IfErr, IsOkAnd};
ghost use Rattle.at_ddp.specs.Datagram.{BeginsWith, Content};
ghost use Rattle.at_ddp.specs.Fault.{IsFirstFault};
ghost use Rattle.at_packet.specs.Bodies.{IsBody, IsDecoded, datagram_of};

use crate::Body;
use at_ddp::{DdpFault, decode};
use std::marker::Model;

/// Received bytes with the datagram that they begin with, and with its packet. Each layer is decoded once, whoever asks
/// for it.
#[derive(Drop)]
pub struct Packet<'a> {
    bytes: &'a [u8],
    body: Result<Body<'a>, DdpFault>,
}

impl<'a> Model for Packet<'a> {
    ghost use Rattle.std.specs.Prelude.{List, ℕ};
    ghost use Rattle.at_packet.specs.Bodies.{IsDecoded};

    ghost Value = { List ℕ };

    ghost view = { λ p. p.bytes.now };

    ghost invariant = { λ p. IsDecoded p.bytes.now p.body };
}

impl<'a> Packet<'a> {
    /// Decodes the datagram at the front of the bytes, and its data by its protocol.
    pub fn of(bytes: &'a [u8]) -> Packet<'a>
        ensures { result ≡ bytes.now }
    {
        let body = decoded(bytes);
        Packet { bytes, body }
    }

    /// The datagram at the front with its packet, or the first fault of the bytes.
    pub fn body(&self) -> Result<&Body<'a>, DdpFault>
        ensures found { IfOk result (λ b. (rest : List ℕ) × BeginsWith self.now (datagram_of b.now) rest) }
        ensures protocol { IfOk result (λ b. IsBody b.now) }
        ensures only { (d : Content) (rest : List ℕ) → BeginsWith self.now d rest
            → IsOkAnd result (λ b. datagram_of b.now ≡ d) }
        ensures fault { IfErr result (λ fault. IsFirstFault fault self.now) }
    {
        match &self.body {
            Ok(body) => Ok(body),
            Err(fault) => Err(*fault),
        }
    }
}

fn decoded(bytes: &[u8]) -> Result<Body<'_>, DdpFault>
    ensures { IsDecoded bytes.now result }
{
    match decode(bytes) {
        Ok((datagram, _)) => Ok(Body::of(datagram)),
        Err(fault) => Err(fault),
    }
}
