//! The requester of a socket: its open transactions and its calls. `turning.rt` has the turn from one to the next.
ghost use Rattle.std.specs.Prelude.{◌≡◌, ◌≢◌, ◌↔◌, ◌+◌, ◌≤◌, ◌<◌, ◌∷◌, [], length, IfOk, IfErr};
ghost use Rattle.std.specs.Prelude.{IfSome, OnErr, IsOk, IsErrOf, true, Some, None, slice_get};
ghost use Rattle.at_ddp.specs.Sending.{Sends};
ghost use Rattle.at_ddp.specs.declared.address.Address.{Address as At};
ghost use Rattle.at_atp_frame.specs.Frames.{Content, content, number_of, spelled};
ghost use Rattle.at_atp_requester.specs.Requests.{no_requests, next_number, closing, beginning, begun, request_by};
ghost use Rattle.at_atp_requester.specs.Requests.{is_ignored, finishes, heard};
ghost use Rattle.at_atp_requester.specs.Requests.{retried, IsHeard};
ghost use Rattle.at_atp_requester.specs.Requests.{IsRequester, IsRetried};

use crate::numbers::next_of;
use crate::part::Part;
use crate::progress::{RequestProgress, Retry};
use crate::standing::{Standing, index_numbered, index_of, settle};
use crate::transaction::{Question, Transaction};
use crate::turning::answer_in;
use at_atp_frame::{AtpFault, Frame, MAX_DATA, send};
use at_ddp::{Address, Outbox};
use at_table::Table;
use std::alloc::{AllocError, Allocator, Global};
use std::marker::Model;
use std::mem;

/// The requester of a socket: its open transactions, at most 32.
#[derive(Drop)]
pub struct Requester<A: Allocator = Global> {
    pub(crate) alloc: A,
    pub(crate) next: u16,
    pub(crate) standing: Standing<A>,
    // Room for the packets of an answer, kept from the transaction that closed last to the next one.
    pub(crate) room: Vec<Option<Part<A>>, A>,
}

impl<A: Allocator> Model for Requester<A> {
    ghost use Rattle.at_atp_requester.specs.Requests.{Requests, IsRequester};

    ghost Value = { Requests };

    ghost view = { λ r. record { next = r.next; standing = r.standing.items } };

    ghost use Rattle.at_atp_requester.specs.Standing.{AreFiled};

    ghost invariant = { λ r. IsRequester (record { next = r.next; standing = r.standing.items })
        × AreFiled r.standing };
}

impl<A: Allocator + Copy> Requester<A> {
    pub fn new(alloc: A) -> Requester<A>
        ensures { result ≡ no_requests }
    {
        Requester {
            alloc,
            next: 0,
            standing: Table::new(alloc),
            room: Vec::new(alloc),
        }
    }

    /// At most 32 transactions are open. The body only visits them.
    pub fn limits(&self)
        ensures { IsRequester self.now }
    {
        let _next = self.next;
    }

    /// The number that the next transaction will get; none if 32 are open. If `closed` is a number, its transaction
    /// counts as closed.
    pub fn next_number(&self, closed: Option<u16>) -> Option<u16>
        ensures number { result ≡ next_number (closing self.now closed) }

        // So it tells the number that a turn will draw.
        ensures turn { (from : At) (f : Content) → finishes A self.now from f ≡ true → closed ≡ Some (number_of f)
            → result ≡ next_number (heard {A = A} self.now from f).after }
    {
        next_of(&self.standing, closed, self.next)
    }

    /// How many transactions are open.
    pub fn open_count(&self) -> usize
        ensures { result ≡ length self.now.standing }
    {
        self.standing.len()
    }

    /// The number of the open transaction at a place. The one that began first has place 0.
    pub fn number_at(&self, place: usize) -> u16
        requires { place < length self.now.standing }
        ensures { IfSome (slice_get self.now.standing place) (λ t. result ≡ t.tid) }
    {
        self.standing.at(place).tid()
    }

    /// Begins a transaction that asks for `wanted` packets, 1 to 8, and returns its number. The request may be sent
    /// again `retries` times.
    pub fn begin(
        &mut self,
        to: Address,
        user: [u8; 4],
        bytes: &[u8],
        wanted: u8,
        xo: bool,
        retries: u8,
        out: &mut Outbox<A>,
    ) -> Result<u16, AtpFault>
        requires some { 1 ≤ wanted }
        requires few { wanted ≤ 8 }
        ensures drawn { IfOk result (λ tid. next_number self.old ≡ Some tid) }
        ensures state { IfOk result (λ tid. self.new ≡ begun self.old
            (beginning tid to user bytes.now wanted xo retries)) }
        ensures sent { IfOk result (λ tid. Sends out.old out.new
            ((to, spelled (request_by (beginning tid to user bytes.now wanted xo retries))) ∷ [])) }

        // The length of the data is tested first, and then whether a number is free.
        ensures too_long { IsErrOf result AtpFault.AtpTooLong ↔ (578 < length bytes.now) }
        ensures full { IsErrOf result AtpFault.Full ↔ ((length bytes.now ≤ 578) × (next_number self.old ≡ None)) }
        ensures memory { IfErr result (λ fault. fault ≢ AtpFault.AtpTooLong → fault ≢ AtpFault.Full
            → fault ≡ AtpFault.NoMemory) }
        ensures unchanged { OnErr result (self.new ≡ self.old) }
        ensures nothing_sent { OnErr result (Sends out.old out.new []) }
    {
        if bytes.len() > MAX_DATA {
            return Err(AtpFault::AtpTooLong);
        }
        let Some(tid) = self.next_number(None) else {
            return Err(AtpFault::Full);
        };
        let question = Question {
            to,
            user,
            bytes,
            wanted,
            xo,
            retries,
        };
        let room = mem::replace(&mut self.room, Vec::new(self.alloc));
        let transaction = Transaction::begin(self.alloc, room, tid, &question)?;
        self.standing.reserve()?;
        send(out, to, &transaction.request())?;
        self.standing.push(tid, transaction);
        self.next = tid.wrapping_add(1);
        Ok(tid)
    }

    /// Takes a packet that came from this address.
    pub fn receive(
        &mut self,
        from: Address,
        frame: &Frame<'_>,
        out: &mut Outbox<A>,
    ) -> Result<RequestProgress<A>, AllocError>
        ensures ok { IfOk result (λ step. IsHeard (heard self.old from (content frame.now)) step self.new out.old
            out.new) }
        ensures unchanged { OnErr result (self.new ≡ self.old) }
        ensures nothing_sent { OnErr result (Sends out.old out.new []) }

        // A packet that has no effect needs no memory.
        ensures ignored { is_ignored (heard {A = A} self.old from (content frame.now)).step ≡ true → IsOk result }
    {
        let Some((tid, arriving)) = answer_in(frame) else {
            return Ok(RequestProgress::Ignored);
        };
        let Some(index) = index_of(&self.standing, tid, from) else {
            return Ok(RequestProgress::Ignored);
        };
        let transaction = self.standing.at_mut(index);
        let step = transaction.hear(self.alloc, &arriving, out)?;
        settle(&mut self.standing, index, &step);
        Ok(step)
    }

    /// Sends the request of the open transaction of this number again, for the packets still wanted, and uses up a
    /// retry. If no retry is left, it closes the transaction, which needs no memory.
    pub fn retry(&mut self, tid: u16, out: &mut Outbox<A>) -> Result<Retry, AtpFault>
        ensures ok { IfOk result (λ step. IsRetried self.old tid step self.new out.old out.new) }
        ensures missing { IsErrOf result AtpFault.NoSuch ↔ (retried self.old tid ≡ None) }
        ensures memory { IfErr result (λ fault. fault ≢ AtpFault.NoSuch → fault ≡ AtpFault.NoMemory) }
        ensures unchanged { OnErr result (self.new ≡ self.old) }
        ensures nothing_sent { OnErr result (Sends out.old out.new []) }
        ensures closes { IfSome (retried self.old tid) (λ effect. effect.step ≡ Retry.Failed → IsOk result) }
    {
        let Some(index) = index_numbered(&self.standing, tid) else {
            return Err(AtpFault::NoSuch);
        };
        let transaction = self.standing.at_mut(index);
        match transaction.take_retry(out) {
            Err(AllocError) => Err(AtpFault::NoMemory),
            Ok(true) => Ok(Retry::AskedAgain),
            Ok(false) => {
                drop(self.standing.remove(index));
                Ok(Retry::Failed)
            }
        }
    }
}
