//! The packets that came for a transaction, each in its place, and which are still wanted.
ghost use Rattle.std.specs.Prelude.{◌≡◌, ◌+◌, ◌≤◌, ◌<◌, ◌^◌, length, is_some, Some, IfOk};
ghost use Rattle.std.specs.Prelude.{None, replicate, vec_capacity, vec_len};
ghost use Rattle.at_atp_requester.specs.Answers.{AnswerPart, is_wanted, bitmap_of, whole, with_part, gathered};
ghost use Rattle.at_atp_frame.specs.Packets.{Packet};

use at_atp_frame::Packet;
use at_ddp::Bytes;
use std::alloc::{AllocError, Allocator};
use std::marker::Model;

/// A packet that came, and whether the answer ends with it.
#[derive(Drop)]
pub(crate) struct Part<A: Allocator> {
    eom: bool,
    packet: Packet<A>,
}

impl<A: Allocator> Model for Part<A> {
    ghost use Rattle.at_atp_requester.specs.Answers.{AnswerPart};

    ghost Value = { AnswerPart };

    ghost view = { λ p. record { eom = p.eom; packet = p.packet } };
}

impl<A: Allocator> Part<A> {
    pub(crate) fn copy_of(
        alloc: A,
        eom: bool,
        user: [u8; 4],
        bytes: &[u8],
    ) -> Result<Part<A>, AllocError>
        ensures { IfOk result (λ p. p ≡ record { eom = eom; packet = record { user = user; data_ = bytes.now } }) }
    {
        let packet = Packet::new(user, Bytes::copy_of(alloc, bytes)?);
        Ok(Part { eom, packet })
    }

    fn ends_answer(&self) -> bool
        ensures { result ≡ self.now.eom }
    {
        self.eom
    }

    fn into_packet(self) -> Packet<A>
        ensures { result ≡ self.packet }
    {
        self.packet
    }
}

// The places of a new transaction, in the room of an earlier one: nothing came for any.
pub(crate) fn no_parts<A: Allocator>(
    room: Vec<Option<Part<A>>, A>,
    wanted: u8,
) -> Result<Vec<Option<Part<A>>, A>, AllocError>
    ensures { IfOk result (λ v. v.items ≡ replicate wanted None) }
{
    let mut parts = room;
    parts.clear();
    parts.reserve(wanted as usize)?;
    for _i in 0..wanted {
        parts.push(None)?;
    }
    Ok(parts)
}

// Whether the packet with this sequence number is still wanted.
pub(crate) fn is_wanted<A: Allocator>(parts: &[Option<Part<A>>], sequence_number: u8) -> bool
    ensures { result ≡ is_wanted parts.now sequence_number }
{
    match parts {
        [] => false,
        [first, rest @ ..] => {
            if sequence_number == 0 {
                return first.is_none();
            }
            match first {
                None => is_wanted(rest, sequence_number - 1),
                Some(part) => !part.ends_answer() && is_wanted(rest, sequence_number - 1),
            }
        }
    }
}

// The packets still wanted, as a bitmap.
pub(crate) fn bitmap_of<A: Allocator>(parts: &[Option<Part<A>>]) -> u8
    requires { length parts.now ≤ 8 }
    ensures bitmap { result ≡ bitmap_of parts.now }
    ensures fits { result < 2 ^ length parts.now }
{
    match parts {
        [] => 0,
        [first, rest @ ..] => match first {
            None => 1 + 2 * bitmap_of(rest),
            Some(part) if part.ends_answer() => 0,
            Some(_) => 2 * bitmap_of(rest),
        },
    }
}

// Whether the answer is there.
fn are_whole<A: Allocator>(parts: &[Option<Part<A>>]) -> bool
    ensures { result ≡ is_some (whole parts.now) }
{
    match parts {
        [] => true,
        [first, rest @ ..] => match first {
            None => false,
            Some(part) => part.ends_answer() || are_whole(rest),
        },
    }
}

// Whether the answer is there once the packet with this sequence number has come.
pub(crate) fn completes<A: Allocator>(
    parts: &[Option<Part<A>>],
    sequence_number: u8,
    eom: bool,
) -> bool
    requires { sequence_number < length parts.now }
    ensures { (part : AnswerPart) → part.eom ≡ eom
        → result ≡ is_some (whole (with_part parts.now sequence_number part)) }
{
    match parts {
        [] => false,
        [first, rest @ ..] => {
            if sequence_number == 0 {
                return eom || are_whole(rest);
            }
            match first {
                None => false,
                Some(part) => part.ends_answer() || completes(rest, sequence_number - 1, eom),
            }
        }
    }
}

// Moves the packets of an answer to the end of the list, which has room for them.
pub(crate) fn gather<A: Allocator>(
    mut parts: Vec<Option<Part<A>>, A>,
    mut packets: Vec<Packet<A>, A>,
) -> Vec<Packet<A>, A>
    requires { vec_len packets + length parts.items ≤ vec_capacity packets }
    ensures { result.items ≡ gathered packets.items parts.items }
{
    while !parts.is_empty() {
        let Some(part) = parts.remove(0) else {
            return packets;
        };
        let ends = part.ends_answer();
        packets.push(part.into_packet()).unwrap();
        if ends {
            return packets;
        }
    }
    packets
}
