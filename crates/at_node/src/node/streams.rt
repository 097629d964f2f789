//! What a node does for streams: its calls, its timers and its packets.
ghost use Rattle.std.specs.Prelude.{◌≡◌};
ghost use Rattle.at_ddp.specs.Protocols.{adsp_kind};
ghost use Rattle.at_event.specs.Outcomes.{Comes, IsStep};
ghost use Rattle.at_event.specs.Services.{Serves};
ghost use Rattle.at_event.specs.declared.service.Reply.{Reply};
ghost use Rattle.at_node.specs.Nodes.{HearsMine, called, timed};
ghost use Rattle.at_node.specs.Numbers.{stream_draw};

use crate::node::Node;
use crate::numbers::Draw;
use at_adsp_ends::Tick;
use at_ddp::Outbox;
use at_event::{Call, Report, Service, StreamCall, StreamTimer, Timer};
use at_packet::AdspPacket;
use std::alloc::Allocator;

impl<A: Allocator + Copy> Node<A> {
    pub(crate) fn call_streams(&mut self, call: &StreamCall<A>, out: &mut Outbox<A>) -> Report<A>
        ensures { IsStep (called self.old (Call.Streams call.now)) self.old out.old.items result self.new
            out.new.items }
    {
        match call {
            StreamCall::Open { index } => self.open(*index, out),
            StreamCall::Listen { on } => self.streams.listen(*on),
            StreamCall::Connect { node, socket } => {
                let to = self.seat.there(*node, *socket);
                self.streams.connect(self.seat, to, out)
            }
            StreamCall::Write { id, items } => {
                self.streams.write(self.seat, *id, items.as_slice(), out)
            }
            StreamCall::Read { id, count } => self.streams.read(self.seat, *id, *count, out),
            StreamCall::Reset { id } => self.streams.reset(self.seat, *id, out),
            StreamCall::Close { id } => self.streams.close(self.seat, *id, out),
        }
    }

    pub(crate) fn stream_timer(&mut self, timer: StreamTimer, out: &mut Outbox<A>) -> Report<A>
        ensures { IsStep (timed self.old (Timer.Streams timer)) self.old out.old.items result self.new out.new.items }
    {
        match timer {
            StreamTimer::Resend { id } => self.streams.tick(self.seat, id, Tick::Retransmit, out),
            StreamTimer::Probe { id } => self.streams.tick(self.seat, id, Tick::Probe, out),
        }
    }

    // Takes a datagram of ADSP that is for this node. The service hears nothing of it.
    pub(crate) fn hear_streams<S: Service<A>>(
        &mut self,
        service: &mut S,
        packet: &AdspPacket<'_>,
        out: &mut Outbox<A>,
    ) -> Report<A>
        requires { packet.now.kind ≡ adsp_kind }
        ensures { (said : Reply A)
            × Comes (HearsMine said self.old packet.now) self.old out.old.items result self.new out.new.items
            × Serves S.serves result said service.old service.new }
    {
        self.streams.hear(self.seat, packet, out)
    }

    pub(crate) fn draw_of_streams(&self, call: &StreamCall<A>) -> Option<Draw>
        ensures { result ≡ stream_draw self.now call.now }
    {
        match call {
            StreamCall::Connect { .. } => self.next_end(),
            StreamCall::Open { index } => {
                self.session.address_at(*index)?;
                self.next_end()
            }
            _ => None,
        }
    }
}
