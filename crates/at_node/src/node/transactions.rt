//! What a node does for transactions: its calls, its timers and its packets.
ghost use Rattle.std.specs.Prelude.{◌≡◌};
ghost use Rattle.at_ddp.specs.Protocols.{atp_kind};
ghost use Rattle.at_event.specs.Outcomes.{Comes, IsStep};
ghost use Rattle.at_event.specs.Services.{Serves};
ghost use Rattle.at_event.specs.declared.service.Reply.{Reply};
ghost use Rattle.at_node.specs.Nodes.{HearsMine, called, timed};
ghost use Rattle.at_node.specs.Numbers.{transaction_draw};

use crate::node::Node;
use crate::numbers::Draw;
use at_atp::MAX_DATA;
use at_ddp::Outbox;
use at_event::{Call, Report, Service, Timer, TransactionCall, TransactionTimer};
use at_packet::AtpPacket;
use at_transaction_socket::Question;
use std::alloc::Allocator;

impl<A: Allocator + Copy> Node<A> {
    pub(crate) fn call_transactions(
        &mut self,
        call: &TransactionCall<A>,
        out: &mut Outbox<A>,
    ) -> Report<A>
        ensures { IsStep (called self.old (Call.Transactions call.now)) self.old out.old.items result self.new
            out.new.items }
    {
        match call {
            TransactionCall::Ask {
                node,
                socket,
                user,
                data_,
                wanted,
                exactly_once,
                retries,
            } => {
                let question = Question {
                    to: self.seat.there(*node, *socket),
                    user: *user,
                    bytes: data_.as_slice(),
                    wanted: wanted.get(),
                    exactly_once: *exactly_once,
                    retries: *retries,
                };
                self.atp.ask(self.seat, &question, out)
            }
            TransactionCall::Answer { key, packets } => {
                self.atp.answer(self.seat, *key, packets.as_slice(), out)
            }
        }
    }

    pub(crate) fn transaction_timer(
        &mut self,
        timer: TransactionTimer,
        out: &mut Outbox<A>,
    ) -> Report<A>
        ensures { IsStep (timed self.old (Timer.Transactions timer)) self.old out.old.items result self.new
            out.new.items }
    {
        match timer {
            TransactionTimer::Retry { tid } => self.atp.retry(self.seat, tid, out),
            TransactionTimer::Release { own, key } => self.atp.expire(own, key),
        }
    }

    // Takes a datagram of ATP that is for this node. If it ends a reading with a zone list, that is kept.
    pub(crate) fn hear_atp<S: Service<A>>(
        &mut self,
        service: &mut S,
        packet: &AtpPacket<'_>,
        out: &mut Outbox<A>,
    ) -> Report<A>
        requires { packet.now.kind ≡ atp_kind }
        ensures { (said : Reply A)
            × Comes (HearsMine said self.old packet.now) self.old out.old.items result self.new out.new.items
            × Serves S.serves result said service.old service.new }
    {
        let mut list = None;
        let report = self.atp.hear(self.seat, service, packet, &mut list, out);
        let old = self.session.keep_list(&report, list);
        self.atp.keep_room(old);
        report
    }

    pub(crate) fn draw_of_transactions(&self, call: &TransactionCall<A>) -> Option<Draw>
        ensures { result ≡ transaction_draw self.now call.now }
    {
        match call {
            TransactionCall::Ask { data_, .. } => {
                if data_.as_slice().len() > MAX_DATA {
                    return None;
                }
                self.next_draw()
            }
            TransactionCall::Answer { .. } => None,
        }
    }
}
