//! What a node does for names: its calls and its packets.
ghost use Rattle.std.specs.Prelude.{◌≡◌};
ghost use Rattle.at_ddp.specs.Protocols.{nbp_kind};
ghost use Rattle.at_event.specs.Outcomes.{Comes, IsStep};
ghost use Rattle.at_event.specs.Services.{Serves};
ghost use Rattle.at_event.specs.declared.service.Reply.{Reply};
ghost use Rattle.at_node.specs.Nodes.{HearsMine, called};
ghost use Rattle.at_node.specs.Numbers.{name_draw};

use crate::node::Node;
use crate::numbers::Draw;
use at_ddp::Outbox;
use at_event::{Call, NameCall, Report, Service};
use at_nbp::is_no_name;
use at_packet::NbpPacket;
use std::alloc::Allocator;

impl<A: Allocator + Copy> Node<A> {
    pub(crate) fn call_names(&mut self, call: &NameCall, out: &mut Outbox<A>) -> Report<A>
        ensures { IsStep (called self.old (Call.Names call.now)) self.old out.old.items result self.new out.new.items }
    {
        match call {
            NameCall::Find { object, kind, zone } => {
                let pattern = self.session.pattern(object, kind, zone);
                self.names.find(self.seat, pattern, out)
            }
            NameCall::Claim {
                object,
                kind,
                socket,
            } => self.names.claim(self.seat, object, kind, *socket, out),
            NameCall::Finish { id } => self.finish(*id),
            NameCall::Register {
                object,
                kind,
                socket,
            } => self.names.register(object, kind, *socket),
            NameCall::Unregister { object, kind } => self.names.unregister(object, kind),
        }
    }

    // Takes a datagram of NBP that is for this node. The service hears nothing of it.
    pub(crate) fn hear_names<S: Service<A>>(
        &mut self,
        service: &mut S,
        packet: &NbpPacket<'_>,
        out: &mut Outbox<A>,
    ) -> Report<A>
        requires { packet.now.kind ≡ nbp_kind }
        ensures { (said : Reply A)
            × Comes (HearsMine said self.old packet.now) self.old out.old.items result self.new out.new.items
            × Serves S.serves result said service.old service.new }
    {
        self.names.hear(self.seat, packet, out)
    }

    pub(crate) fn draw_of_names(&self, call: &NameCall) -> Option<Draw>
        ensures { result ≡ name_draw self.now call.now }
    {
        match call {
            NameCall::Find { .. } => self.next_lookup(),
            NameCall::Claim { object, kind, .. } => {
                if is_no_name(object, kind) {
                    return None;
                }
                self.next_lookup()
            }
            _ => None,
        }
    }
}
