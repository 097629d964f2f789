//! Memory for the copy of an answer. It is taken as the request comes, so that the answer is kept without asking.
ghost use Rattle.std.specs.Prelude.{◌≡◌, ◌≤◌, length, true, vec_len, vec_capacity};
ghost use Rattle.at_atp_responder.specs.Records.{fit};

use crate::answering::PACKETS;
use at_atp_frame::{MAX_DATA, Packet};
use at_ddp::{Bytes, Listed};
use std::alloc::{AllocError, Allocator};
use std::marker::Model;

/// Memory for a copy of any answer.
#[derive(Drop)]
pub(crate) struct AnswerRoom<A: Allocator> {
    list: Vec<Packet<A>, A>,
    places: Vec<PacketRoom<A>, A>,
}

impl<A: Allocator> Model for AnswerRoom<A> {
    ghost use Rattle.std.specs.Prelude.{◌≡◌, ◌≤◌, vec_len, vec_capacity};

    ghost Value = { Unit {0} };

    ghost view = { λ r. tt };

    ghost invariant = { λ r. (vec_len r.list ≡ 0) × (8 ≤ vec_capacity r.list) × (8 ≤ vec_len r.places) };
}

// Memory for the data of one packet.
#[derive(Drop)]
struct PacketRoom<A: Allocator> {
    bytes: Vec<u8, A>,
    ghost empty: { vec_len bytes ≡ 0 },
    ghost holds: { 578 ≤ vec_capacity bytes },
}

impl<A: Allocator> PacketRoom<A> {
    // A copy of the packet, at this place.
    fn copy(self, packet: &Packet<A>) -> Packet<A>
        requires { length packet.now.data_ ≤ 578 }
        ensures { result ≡ packet.now }
    {
        let mut bytes = self.bytes;
        bytes.extend_from_slice(packet.data_()).unwrap();
        Packet::new(packet.user(), Bytes::from_vec(bytes))
    }
}

impl<A: Allocator + Copy> AnswerRoom<A> {
    // Takes the memory.
    pub(crate) fn new(alloc: A) -> Result<AnswerRoom<A>, AllocError> {
        let list = Vec::with_capacity(alloc, PACKETS)?;
        let mut places = Vec::with_capacity(alloc, PACKETS)?;
        for _ in 0..PACKETS {
            let bytes = Vec::with_capacity(alloc, MAX_DATA)?;
            places.push_reserved(PacketRoom { bytes });
        }
        Ok(AnswerRoom { list, places })
    }

    // A copy of the packets. This needs no memory.
    pub(crate) fn copy(self, packets: &[Packet<A>]) -> Listed<Packet<A>, A>
        requires few { length packets.now ≤ 8 }
        requires fits { fit packets.now ≡ true }
        ensures { result ≡ packets.now }
    {
        let mut list = self.list;
        let mut places = self.places;
        for packet in packets {
            let place = places.pop().unwrap();
            list.push_reserved(place.copy(packet));
        }
        Listed::from_vec(list)
    }
}
