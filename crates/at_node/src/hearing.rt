//! What a node does with received bytes.
ghost use Rattle.at_event.specs.Outcomes.{Comes};
ghost use Rattle.at_event.specs.Services.{Serves};
ghost use Rattle.at_event.specs.declared.service.Reply.{Reply};
ghost use Rattle.at_node.specs.Hearing.{HearsIt, Hears};
ghost use Rattle.at_packet.specs.Bodies.{IsBody, datagram_of};

use crate::node::Node;
use at_ddp::Outbox;
use at_event::{Report, Service};
use at_packet::{Body, Packet};
use at_transaction_socket::refused;
use std::alloc::Allocator;

impl<A: Allocator + Copy> Node<A> {
    /// Takes received bytes. What the node sends goes to the end of the outbox. A new request for the service is
    /// delivered to it.
    pub fn receive<S: Service<A>>(
        &mut self,
        service: &mut S,
        bytes: &[u8],
        out: &mut Outbox<A>,
    ) -> Report<A>
        ensures { (said : Reply A)
            × Comes (Hears said self.old bytes.now) self.old out.old.items result self.new out.new.items
            × Serves S.serves result said service.old service.new }
    {
        self.hear(service, &Packet::of(bytes), out)
    }

    /// Takes received bytes that were decoded before.
    pub fn hear<S: Service<A>>(
        &mut self,
        service: &mut S,
        packet: &Packet<'_>,
        out: &mut Outbox<A>,
    ) -> Report<A>
        ensures { (said : Reply A)
            × Comes (Hears said self.old packet.now) self.old out.old.items result self.new out.new.items
            × Serves S.serves result said service.old service.new }
    {
        match packet.body() {
            Ok(body) => self.hear_body(service, body, out),
            Err(fault) => refused(fault.number()),
        }
    }

    // Takes a datagram, if it is for this node.
    fn hear_body<S: Service<A>>(
        &mut self,
        service: &mut S,
        body: &Body<'_>,
        out: &mut Outbox<A>,
    ) -> Report<A>
        requires { IsBody body.now }
        ensures { (said : Reply A)
            × Comes (HearsIt said self.old (datagram_of body.now)) self.old out.old.items result self.new out.new.items
            × Serves S.serves result said service.old service.new }
    {
        let datagram = body.datagram();
        if !self.seat.is_for(datagram.kind, datagram.to) {
            return Report::Ignored;
        }
        self.hear_mine(service, body, out)
    }
}
