//! What proofs take from the types of bytes and of packets: each byte is under 256.
ghost use Rattle.std.specs.List.{AllByRecursion};
ghost use Rattle.at_ddp.specs.Datagram.{AreBytes};
ghost use Rattle.at_atp_frame.specs.Packets.{AreWords};

use crate::packet::Packet;
use std::alloc::Allocator;

/// Every byte is under 256. The body is empty: the type of the bytes is the proof.
pub fn ranges_of_bytes(_bytes: &[u8])
    ensures { AreBytes _bytes.now }
{}

/// Every byte of every packet is under 256. The body only visits the packets.
pub fn ranges_of<A: Allocator>(packets: &[Packet<A>])
    ensures { AllByRecursion AreWords packets.now }
{
    if let [packet, rest @ ..] = packets {
        packet.ranges();
        ranges_of(rest);
    }
}
