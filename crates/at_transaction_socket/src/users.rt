//! What any user of transactions does with the socket that asks: it begins one, finds the one that a packet ends, takes
//! that packet, or takes it and begins the next one in one step, and learns of a retry that its transaction failed.
ghost use Rattle.std.specs.Prelude.{◌≡◌, ◌≢◌, ◌↔◌, ◌<◌, ◌≤◌, length, ◌++◌, ◌∷◌, [], map, None, Some};
ghost use Rattle.std.specs.Prelude.{IfOk, IfErr, IfSome, IsOk, IsSome, OnErr, IsErrOf, is_some, false};
ghost use Rattle.at_ddp.specs.Protocols.{atp_kind};
ghost use Rattle.at_atp_frame.specs.Frames.{content, spelled, spelled_all};
ghost use Rattle.at_atp_requester.specs.Requests.{Retried, next_number, beginning, begun, finishes, request_by};
ghost use Rattle.at_atp_requester.specs.Requests.{heard, retried};
ghost use Rattle.at_transaction_socket.specs.LastPackets.{IsLast};
ghost use Rattle.at_transaction_socket.specs.TransactionSockets.{asking};
ghost use Rattle.at_event.specs.Outcomes.{posted, sent_by};

use crate::incoming::Incoming;
use crate::requester_socket::Question;
use crate::transaction_socket::{REQUESTER_SOCKET, TransactionSocket};
use at_atp::{AtpFault, Ending, Retry};
use at_ddp::{ATP, Outbox};
use at_event::Seat;
use std::alloc::{AllocError, Allocator};

/// A packet that ends an open transaction, until the sockets change.
#[derive(Clone, Copy)]
pub struct LastPacket<'a> {
    pub packet: Incoming<'a>,
    // The transaction that it ends.
    ending: Ending,
}

impl<A: Allocator + Copy> TransactionSocket<A> {
    /// Begins a transaction, and sends its request. Returns its number.
    pub fn begin(
        &mut self,
        seat: Seat,
        question: &Question<'_>,
        out: &mut Outbox<A>,
    ) -> Result<u16, AtpFault>
        requires some { 1 ≤ question.now.wanted }
        requires few { question.now.wanted ≤ 8 }
        ensures drawn { IfOk result (λ tid. next_number self.old.requester ≡ Some tid) }
        ensures state { IfOk result (λ tid. self.new ≡ record self.old {
          requester = begun self.old.requester (beginning tid question.now.to question.now.user question.now.bytes.now
              question.now.wanted question.now.exactly_once question.now.retries);
        }) }
        ensures sent { IfOk result
            (λ tid. out.new.items ≡ out.old.items ++ map posted
            (sent_by (asking seat.net seat.number) atp_kind
            ((
              question.now.to,
              spelled
                  (request_by (beginning tid question.now.to question.now.user question.now.bytes.now
                  question.now.wanted question.now.exactly_once question.now.retries)),
            ) ∷ []))) }
        ensures fits { IfOk result (λ tid. length question.now.bytes.now ≤ 578) }
        ensures too_long { IsErrOf result AtpFault.AtpTooLong ↔ (578 < length question.now.bytes.now) }
        ensures full { IsErrOf result AtpFault.Full ↔ ((length question.now.bytes.now ≤ 578)
            × (next_number self.old.requester ≡ None)) }
        ensures memory { IfErr result (λ fault. fault ≢ AtpFault.AtpTooLong → fault ≢ AtpFault.Full
            → fault ≡ AtpFault.NoMemory) }
        ensures unchanged { OnErr result (self.new ≡ self.old) }
        ensures nothing_sent { OnErr result (out.new.items ≡ out.old.items) }
    {
        let Question {
            to,
            user,
            bytes,
            wanted,
            exactly_once,
            retries,
        } = *question;
        out.send_from(seat.at(REQUESTER_SOCKET), ATP);
        self.requester
            .begin(to, user, bytes, wanted, exactly_once, retries, out)
    }

    /// The packet with the at-least-once transaction that it would end, if it ends one.
    pub fn ending<'a>(&self, packet: &Incoming<'a>) -> Option<LastPacket<'a>>
        ensures ends { is_some result ≡ finishes A self.now.requester packet.now.from (content packet.now.frame) }
        ensures last { IfSome result (λ l. IsLast A self.now.requester l) }
        ensures same { IfSome result (λ l. l.packet ≡ packet.now) }

        // Then a number is free for the next one.
        ensures free { IsSome result → IsSome (next_number
            (heard {A = A} self.now.requester packet.now.from (content packet.now.frame)).after) }
    {
        let ending = self.requester.ending(packet.from, &packet.frame)?;
        Some(LastPacket {
            packet: *packet,
            ending,
        })
    }

    /// Takes the packet that ends a transaction, and keeps nothing of the answer. This needs no memory.
    pub fn close(&mut self, last: &LastPacket<'_>)
        requires { IsLast A self.old.requester last.now }
        ensures state { self.new ≡ record self.old {
          requester = (heard {A = A} self.old.requester last.now.packet.from (content last.now.packet.frame)).after;
        } }
        ensures silent { (heard {A = A} self.old.requester last.now.packet.from
            (content last.now.packet.frame)).sent ≡ [] }
    {
        self.requester.close(last.ending);
    }

    /// Takes the packet that ends a transaction, and begins the next one with these user bytes in the same step. It
    /// asks the same address for one packet, at least once. Returns its number.
    pub fn turn(
        &mut self,
        last: &LastPacket<'_>,
        user: [u8; 4],
        retries: u8,
        out: &mut Outbox<A>,
    ) -> Result<u16, AllocError>
        requires { IsLast A self.old.requester last.now }
        ensures drawn { IfOk result (λ tid. next_number (heard {A = A} self.old.requester last.now.packet.from
            (content last.now.packet.frame)).after ≡ Some tid) }
        ensures state { IfOk result (λ tid. self.new ≡ record self.old {
          requester = begun
              (heard {A = A} self.old.requester last.now.packet.from (content last.now.packet.frame)).after
              (beginning tid last.now.packet.from user [] 1 false retries);
        }) }
        ensures sent { IfOk result
            (λ tid. out.new.items ≡ out.old.items ++ map posted
            (sent_by (asking last.now.packet.seat.net last.now.packet.seat.number) atp_kind
            ((
              last.now.packet.from,
              spelled (request_by (beginning tid last.now.packet.from user [] 1 false retries)),
            ) ∷ []))) }
        ensures unchanged { OnErr result (self.new ≡ self.old) }
        ensures nothing_sent { OnErr result (out.new.items ≡ out.old.items) }
    {
        let packet = &last.packet;
        out.send_from(packet.seat.at(REQUESTER_SOCKET), ATP);
        self.requester
            .turn(last.ending, packet.from, user, retries, out)
    }

    /// Sends the request of this number again. If no retry is left, its transaction is closed, and its user is to learn
    /// that it failed.
    pub fn retry(&mut self, seat: Seat, tid: u16, out: &mut Outbox<A>) -> Result<Retry, AtpFault>
        ensures ok { IfOk result (λ step. (effect : Retried) × (retried self.old.requester tid ≡ Some effect)
            × (step ≡ effect.step) × (self.new ≡ record self.old { requester = effect.after })
            × (out.new.items ≡ out.old.items ++ map posted
            (sent_by (asking seat.net seat.number) atp_kind (spelled_all effect.sent)))) }
        ensures missing { IsErrOf result AtpFault.NoSuch ↔ (retried self.old.requester tid ≡ None) }
        ensures memory { IfErr result (λ fault. fault ≢ AtpFault.NoSuch → fault ≡ AtpFault.NoMemory) }
        ensures closes { IfSome (retried self.old.requester tid) (λ effect. effect.step ≡ Retry.Failed
            → IsOk result) }
        ensures unchanged { OnErr result (self.new ≡ self.old) }
        ensures nothing_sent { OnErr result (out.new.items ≡ out.old.items) }
    {
        out.send_from(seat.at(REQUESTER_SOCKET), ATP);
        self.requester.retry(tid, out)
    }
}
