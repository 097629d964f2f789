//! The socket that asks, for the node's own user.
ghost use Rattle.std.specs.Prelude.{◌≡◌, ◌≤◌, ◌++◌, map};
ghost use Rattle.std.specs.Prelude.{IfOk, IsOk, OnErr, true, false};
ghost use Rattle.at_ddp.specs.Protocols.{atp_kind};
ghost use Rattle.at_atp_frame.specs.Frames.{content, number_of, spelled_all};
ghost use Rattle.at_atp_requester.specs.Requests.{is_ignored, heard};
ghost use Rattle.at_transaction_socket.specs.RequesterSocket.{ask_called, hears_other, reported_other};
ghost use Rattle.at_event.specs.Outcomes.{IsStep, posted, sent_by};
ghost use Rattle.at_event.specs.Services.{is_asked};

use crate::incoming::Incoming;
use crate::refusals::refused;
use crate::transaction_socket::{REQUESTER_SOCKET, TransactionSocket};
use at_atp::{RequestProgress, Requester};
use at_ddp::{ATP, Address, Outbox};
use at_event::{Report, Seat, TransactionReport};
use std::alloc::{AllocError, Allocator};

/// What a transaction is to ask.
#[derive(Clone, Copy)]
pub struct Question<'a> {
    /// The socket that is asked.
    pub to: Address,
    /// The user bytes.
    pub user: [u8; 4],
    /// The data, at most 578 bytes.
    pub bytes: &'a [u8],
    /// How many packets the answer may have, 1 to 8.
    pub wanted: u8,
    pub exactly_once: bool,
    /// How often the request may be sent again.
    pub retries: u8,
}

impl<A: Allocator + Copy> TransactionSocket<A> {
    /// Begins a transaction for the node's user, and sends its request.
    pub fn ask(&mut self, seat: Seat, question: &Question<'_>, out: &mut Outbox<A>) -> Report<A>
        requires some { 1 ≤ question.now.wanted }
        requires few { question.now.wanted ≤ 8 }
        ensures { IsStep (ask_called seat self.old question.now.to question.now.user question.now.bytes.now
            question.now.wanted question.now.exactly_once question.now.retries)
            self.old out.old.items result self.new out.new.items }
    {
        match self.begin(seat, question, out) {
            Ok(tid) => Report::Transactions(TransactionReport::Begun(tid)),
            Err(fault) => refused(fault.number()),
        }
    }

    /// Takes a packet that ends no transaction of another user.
    pub fn hear_other(&mut self, packet: &Incoming<'_>, out: &mut Outbox<A>) -> Report<A>
        ensures step { IsStep (hears_other packet.now.seat self.old (number_of (content packet.now.frame))
            (heard self.old.requester packet.now.from (content packet.now.frame)))
            self.old out.old.items result self.new out.new.items }
        ensures not_asked { is_asked result ≡ false }
    {
        let own = packet.seat.at(REQUESTER_SOCKET);
        let Ok(step) = hear(&mut self.requester, own, packet, out) else {
            return Report::NoMemory;
        };
        reported_other(packet.frame.tid(), step)
    }
}

// The requester takes a packet.
fn hear<A: Allocator + Copy>(
    requester: &mut Requester<A>,
    own: Address,
    packet: &Incoming<'_>,
    out: &mut Outbox<A>,
) -> Result<RequestProgress<A>, AllocError>
    ensures step { IfOk result
        (λ step. step ≡ (heard requester.old packet.now.from (content packet.now.frame)).step) }
    ensures state { IfOk result
        (λ step. requester.new ≡ (heard {A = A} requester.old packet.now.from (content packet.now.frame)).after) }
    ensures sent { IfOk result
        (λ step. out.new.items ≡ out.old.items ++ map posted
        (sent_by own atp_kind
        (spelled_all (heard {A = A} requester.old packet.now.from (content packet.now.frame)).sent))) }
    ensures unchanged { OnErr result (requester.new ≡ requester.old) }
    ensures nothing_sent { OnErr result (out.new.items ≡ out.old.items) }
    ensures ignored { is_ignored (heard {A = A} requester.old packet.now.from (content packet.now.frame)).step ≡ true
        → IsOk result }
{
    out.send_from(own, ATP);
    requester.receive(packet.from, &packet.frame, out)
}

// The report of a step of a transaction.
fn reported_other<A: Allocator>(tid: u16, step: RequestProgress<A>) -> Report<A>
    ensures report { result ≡ reported_other tid step }
    ensures not_asked { is_asked result ≡ false }
{
    match step {
        RequestProgress::Ignored => Report::Ignored,
        RequestProgress::Kept => Report::Transactions(TransactionReport::Kept),
        RequestProgress::AskAgain => Report::Again,
        RequestProgress::Finished(packets) => Report::Transactions(TransactionReport::Response {
            tid,
            packets,
        }),
    }
}
