//! The end of a transaction whose answer was read by whoever asked, and the turn from it to the next one, for a reader
//! that asks for page after page. Nothing of the answer is copied.
ghost use Rattle.std.specs.Prelude.{◌≡◌, ◌∷◌, [], true, false, is_some, Some, IfSome, IfOk, OnErr};
ghost use Rattle.std.specs.Prelude.{IsSome};
ghost use Rattle.at_ddp.specs.Sending.{Sends};
ghost use Rattle.at_ddp.specs.declared.address.Address.{Address as From};
ghost use Rattle.at_atp_frame.specs.Frames.{Content, Response, content, spelled};
ghost use Rattle.at_atp_requester.specs.Requests.{closing, next_number, beginning, begun, request_by};
ghost use Rattle.at_atp_requester.specs.Endings.{Ends};
ghost use Rattle.at_atp_requester.specs.Requests.{finishes, has_number, heard, is_response};

use crate::numbers::next_of;
use crate::requester::Requester;
use crate::standing::{index_of, pass_on};
use crate::transaction::{Arriving, Question, Transaction};
use at_atp_frame::{Frame, send};
use at_ddp::{Address, Outbox};
use std::alloc::{AllocError, Allocator};

/// The open transaction that a packet ends, until the requester changes.
#[derive(Clone, Copy)]
pub struct Ending {
    // Its place among the open ones.
    index: usize,
    tid: u16,
}

impl<A: Allocator + Copy> Requester<A> {
    /// The at-least-once transaction that this packet from this address would end, if it ends one.
    pub fn ending(&self, from: Address, frame: &Frame<'_>) -> Option<Ending>
        ensures ends { is_some result ≡ finishes A self.now from (content frame.now) }
        ensures place { IfSome result (λ e. Ends A self.now from (content frame.now) e) }

        // Then a number is free for the next one.
        ensures free { finishes A self.now from (content frame.now) ≡ true
            → IsSome (next_number (heard {A = A} self.now from (content frame.now)).after) }
    {
        let (tid, arriving) = answer_in(frame)?;
        let index = index_of(&self.standing, tid, from)?;
        let transaction = self.standing.at(index);
        if transaction.would_end(arriving.sequence_number, arriving.eom) {
            Some(Ending { index, tid })
        } else {
            None
        }
    }

    /// Takes the packet that ends this transaction, and keeps nothing of the answer. Nothing is sent, and this needs no
    /// memory.
    pub fn close(&mut self, ending: Ending)
        requires { (from : From) × (packet : Content) × Ends A self.old from packet ending }
        ensures state { (from : From) (packet : Content) → Ends A self.old from packet ending
            → self.new ≡ (heard {A = A} self.old from packet).after }
        ensures silent { (from : From) (packet : Content) → Ends A self.old from packet ending
            → (heard {A = A} self.old from packet).sent ≡ [] }
    {
        self.room = self.standing.remove(ending.index).into_room();
    }

    /// Takes the packet from this address that ends this transaction, keeps nothing of the answer, and begins the next
    /// transaction. That one asks the same address for one packet, at least once and without data. Returns its number.
    /// If memory runs out, the packet is not taken either.
    pub fn turn(
        &mut self,
        ending: Ending,
        from: Address,
        user: [u8; 4],
        retries: u8,
        out: &mut Outbox<A>,
    ) -> Result<u16, AllocError>
        requires { (packet : Content) × Ends A self.old from packet ending }
        ensures drawn { IfOk result (λ tid. (packet : Content) → Ends A self.old from packet ending
            → next_number (heard {A = A} self.old from packet).after ≡ Some tid) }
        ensures state { IfOk result (λ tid. (packet : Content) → Ends A self.old from packet ending
            → self.new ≡ begun (heard {A = A} self.old from packet).after
            (beginning tid from user [] 1 false retries)) }

        // An at-least-once transaction sends no release at its end.
        ensures sent { IfOk result (λ tid. Sends out.old out.new
            ((from, spelled (request_by (beginning tid from user [] 1 false retries))) ∷ [])) }
        ensures unchanged { OnErr result (self.new ≡ self.old) }
        ensures nothing_sent { OnErr result (Sends out.old out.new []) }
    {
        let next = self.following(ending.tid, from, user, retries)?;
        self.standing.reserve()?;
        send(out, from, &next.request())?;
        let number = pass_on(&mut self.standing, ending.index, next);
        self.next = number.wrapping_add(1);
        Ok(number)
    }

    // The transaction that would begin if the open one of this number were closed.
    fn following(
        &self,
        ended: u16,
        to: Address,
        user: [u8; 4],
        retries: u8,
    ) -> Result<Transaction<A>, AllocError>
        requires { has_number self.now.standing ended ≡ true }
        ensures drawn { IfOk result (λ t. next_number (closing self.now (Some ended)) ≡ Some t.tid) }
        ensures asks { IfOk result (λ t. t ≡ beginning t.tid to user [] 1 false retries) }
    {
        let tid = next_of(&self.standing, Some(ended), self.next).unwrap();
        let question = Question {
            to,
            user,
            bytes: &[],
            wanted: 1,
            xo: false,
            retries,
        };
        Transaction::begin(self.alloc, Vec::new(self.alloc), tid, &question)
    }
}

// The number and the contents of a packet of an answer.
pub(crate) fn answer_in<'a>(frame: &Frame<'a>) -> Option<(u16, Arriving<'a>)>
    ensures answer { IfSome result (λ r. content frame.now ≡ Response r.1.sequence_number r.1.eom r.1.sts r.0 r.1.user
        r.1.bytes.now) }
    ensures other { is_some result ≡ is_response (content frame.now) }
{
    let Frame::Response {
        sequence_number,
        eom,
        sts,
        tid,
        user,
        data_,
    } = *frame
    else {
        return None;
    };
    let arriving = Arriving {
        sequence_number,
        eom,
        sts,
        user,
        bytes: data_,
    };
    Some((tid, arriving))
}
