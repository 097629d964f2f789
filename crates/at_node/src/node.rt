//! A node: what it is made of, and which of its parts has each call, each timer and each packet. What a part does is in
//! the files below.
ghost use Rattle.std.specs.Prelude.{◌≡◌};
ghost use Rattle.at_adsp_ends.specs.Tables.{AreRooms};
ghost use Rattle.at_node.specs.Limits.{IsWithin};
ghost use Rattle.at_node.specs.Nodes.{HearsMine, opening, called, timed};
ghost use Rattle.at_event.specs.Outcomes.{Comes, IsStep};
ghost use Rattle.at_event.specs.Services.{Serves};
ghost use Rattle.at_event.specs.declared.service.Reply.{Reply};
ghost use Rattle.at_packet.specs.Bodies.{IsBody, datagram_of};

use crate::name_part::NamePart;
use crate::settings::Settings;
use at_ddp::Outbox;
use at_event::{Call, NameTimer, Report, Seat, Service, Timer};
use at_packet::Body;
use at_session::Session;
use at_stream_socket::StreamSocket;
use at_zone_socket::AtpPart;
use std::alloc::{Allocator, Global};
use std::marker::Model;

mod names;
mod session;
mod streams;
mod transactions;
mod zones;

/// A node of a cable.
#[derive(Drop)]
pub struct Node<A: Allocator = Global> {
    pub(crate) seat: Seat,
    pub(crate) atp: AtpPart<A>,
    pub(crate) names: NamePart<A>,
    pub(crate) streams: StreamSocket<A>,
    // What the node's user was told.
    pub(crate) session: Session<A>,
}

impl<A: Allocator> Model for Node<A> {
    ghost use Rattle.at_node.specs.Nodes.{NodeState};

    ghost Value = { NodeState };

    ghost view = { λ n. record {
      seat = n.seat;
      atp = n.atp;
      names = n.names;
      streams = n.streams;
      session = n.session;
    } };
}

impl<A: Allocator + Copy> Node<A> {
    /// A node at this seat, before anything happened.
    pub fn new(alloc: A, settings: Settings<A>) -> Node<A>
        requires { AreRooms settings.rooms }
        ensures { result ≡ opening settings.seat settings.zone settings.tables settings.neighbours settings.rooms }
    {
        let Settings {
            seat,
            zone,
            tables,
            neighbours,
            rooms,
        } = settings;
        Node {
            seat,
            atp: AtpPart::new(alloc, tables),
            names: NamePart::new(alloc, seat, zone, neighbours),
            streams: StreamSocket::new(alloc, rooms),
            session: Session::new(alloc),
        }
    }

    /// The node keeps to its limits. The body only visits its parts.
    pub fn limits(&self)
        ensures { IsWithin self.now }
    {
        self.atp.limits();
        self.names.socket.limits();
        self.streams.limits();
    }

    /// The node's number, 1 to 254.
    pub fn number(&self) -> u8
        ensures { result ≡ self.now.seat.number }
    {
        self.seat.number
    }

    /// The number of the network that the node is on.
    pub fn net(&self) -> u16
        ensures { result ≡ self.now.seat.net }
    {
        self.seat.net
    }

    /// Plays a call by the node's user. What the node sends goes to the end of the outbox.
    pub fn call(&mut self, call: &Call<A>, out: &mut Outbox<A>) -> Report<A>
        ensures { IsStep (called self.old call.now) self.old out.old.items result self.new out.new.items }
    {
        match call {
            Call::Transactions(call) => self.call_transactions(call, out),
            Call::Zones(call) => self.call_zones(call, out),
            Call::Names(call) => self.call_names(call, out),
            Call::Streams(call) => self.call_streams(call, out),
            Call::Session(call) => self.call_session(call),
        }
    }

    /// Plays a timer that fires. What the node sends goes to the end of the outbox.
    pub fn timer(&mut self, timer: Timer, out: &mut Outbox<A>) -> Report<A>
        ensures { IsStep (timed self.old timer) self.old out.old.items result self.new out.new.items }
    {
        match timer {
            Timer::Transactions(timer) => self.transaction_timer(timer, out),
            Timer::Names(NameTimer::Lookup { id }) => self.names.ask_again(self.seat, id, out),
            Timer::Streams(timer) => self.stream_timer(timer, out),
        }
    }

    // Takes a datagram that is for this node: the part that speaks its protocol does.
    pub(crate) fn hear_mine<S: Service<A>>(
        &mut self,
        service: &mut S,
        body: &Body<'_>,
        out: &mut Outbox<A>,
    ) -> Report<A>
        requires { IsBody body.now }
        ensures { (said : Reply A)
            × Comes (HearsMine said self.old (datagram_of body.now)) self.old out.old.items result self.new
            out.new.items
            × Serves S.serves result said service.old service.new }
    {
        match body {
            Body::Atp(packet) => self.hear_atp(service, packet, out),
            Body::Nbp(packet) => self.hear_names(service, packet, out),
            Body::Adsp(packet) => self.hear_streams(service, packet, out),
            Body::Other(_) => Report::Ignored,
        }
    }
}
