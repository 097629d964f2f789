//! What segments do at the socket for streams.
ghost use Rattle.std.specs.Prelude.{◌≡◌, ℕ, IfSome, Some, false};
ghost use Rattle.at_adsp_frame.specs.Fault.{number_of};
ghost use Rattle.at_adsp_frame.specs.declared.fault.AdspFault.TheVariants.{NoMemory};
ghost use Rattle.at_event.specs.Outcomes.{Comes, refused_as};
ghost use Rattle.at_event.specs.Services.{is_asked};
ghost use Rattle.at_stream_socket.specs.Hearing.{HearsStreams, Makes};

use crate::socket::{STREAM_SOCKET, StreamSocket, told_by};
use at_adsp_ends::laws::what_is_ignored_does_nothing;
use at_adsp_frame::AdspFault;
use at_ddp::{ADSP, Outbox};
use at_event::{Report, Seat};
use at_packet::AdspPacket;
use std::alloc::{AllocError, Allocator};

impl<A: Allocator + Copy> StreamSocket<A> {
    /// Takes a datagram of ADSP that is for this node.
    pub fn hear(&mut self, seat: Seat, packet: &AdspPacket<'_>, out: &mut Outbox<A>) -> Report<A>
        ensures comes { Comes (HearsStreams seat self.old packet.now) self.old out.old.items result self.new
            out.new.items }
        ensures not_asked { is_asked result ≡ false }
    {
        let datagram = packet.datagram();
        if datagram.to.socket != STREAM_SOCKET {
            return Report::Ignored;
        }
        let segment = match packet.segment() {
            Ok(segment) => segment,
            Err(fault) => return faulty(fault),
        };
        // So what is ignored needs no memory.
        what_is_ignored_does_nothing();
        out.send_from(seat.at(STREAM_SOCKET), ADSP);
        match self.ends.receive(datagram.from, &segment, out) {
            Ok(step) => told_by(step),
            Err(AllocError) => Report::NoMemory,
        }
    }

    /// The identifier of the end that a datagram of ADSP for this node will make, if memory does not run out.
    pub fn made_by(&self, packet: &AdspPacket<'_>) -> Option<u16>
        ensures found { IfSome result (λ id. Makes self.now packet.now id) }
        ensures only { (id : ℕ) → Makes self.now packet.now id → result ≡ Some id }
    {
        let datagram = packet.datagram();
        if datagram.to.socket != STREAM_SOCKET {
            return None;
        }
        match packet.segment() {
            Ok(segment) => self.ends.made_by(datagram.from, &segment),
            Err(_) => None,
        }
    }
}

// The report of a datagram without a segment.
fn faulty<A: Allocator>(fault: AdspFault) -> Report<A>
    ensures report { result ≡ refused_as (number_of fault) }
    ensures not_asked { is_asked result ≡ false }
{
    match fault.number() {
        Some(number) => Report::Refused(number),
        None => Report::NoMemory,
    }
}
