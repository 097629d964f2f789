//! The part of a node that speaks NBP: its socket for names, and what packets do there.
ghost use Rattle.std.specs.Prelude.{◌≡◌, Option, false};
ghost use Rattle.at_name_socket.specs.NameSockets.{opening};
ghost use Rattle.at_node.specs.NameHearing.{HearsNames, told_by};
ghost use Rattle.at_event.specs.Outcomes.{Comes};
ghost use Rattle.at_event.specs.Services.{is_asked};

use at_ddp::{Listed, NBP, Outbox, Pascal};
use at_event::{NameReport, Report, Seat};
use at_name_socket::{Heard, NAME_SOCKET, NameSocket, Neighbour};
use at_packet::NbpPacket;
use at_transaction_socket::refused;
use std::alloc::Allocator;
use std::marker::Model;

// The part of a node that speaks NBP.
#[derive(Drop)]
pub(crate) struct NamePart<A: Allocator> {
    pub(crate) socket: NameSocket<A>,
}

impl<A: Allocator> Model for NamePart<A> {
    ghost use Rattle.at_name_socket.specs.NameSockets.{SocketState};

    ghost Value = { SocketState };

    ghost view = { λ p. p.socket };
}

impl<A: Allocator + Copy> NamePart<A> {
    pub(crate) fn new(
        alloc: A,
        seat: Seat,
        zone: Option<Pascal>,
        neighbours: Option<Listed<Neighbour, A>>,
    ) -> NamePart<A>
        ensures { result ≡ opening seat.net seat.number seat.router zone neighbours }
    {
        NamePart {
            socket: NameSocket::new(alloc, seat.net, seat.number, seat.router, zone, neighbours),
        }
    }

    // Takes a datagram of NBP that is for this node.
    pub(crate) fn hear(
        &mut self,
        seat: Seat,
        packet: &NbpPacket<'_>,
        out: &mut Outbox<A>,
    ) -> Report<A>
        ensures comes { Comes (HearsNames seat self.old packet.now) self.old out.old.items result self.new
            out.new.items }
        ensures not_asked { is_asked result ≡ false }
    {
        let datagram = packet.datagram();
        if datagram.to.socket != NAME_SOCKET {
            return Report::Ignored;
        }
        out.send_from(seat.at(NAME_SOCKET), NBP);
        match self.socket.hear(packet, out) {
            Ok(heard) => told_by(heard),
            Err(fault) => refused(fault.number()),
        }
    }
}

// The report of what came of a packet.
fn told_by<A: Allocator>(heard: Heard) -> Report<A>
    ensures report { result ≡ told_by heard }
    ensures not_asked { is_asked result ≡ false }
{
    match heard {
        Heard::Ignored => Report::Ignored,
        Heard::Relayed => Report::Names(NameReport::Relayed),
        Heard::Answered(count) => Report::Names(NameReport::Matched(count)),
        Heard::Kept(count) => Report::Names(NameReport::Added(count)),
    }
}
