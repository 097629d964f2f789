//! One open transaction: what it asked, what came for it, and what is still wanted.
ghost use Rattle.std.specs.Prelude.{◌≡◌, ◌+◌, ◌-◌, ◌≤◌, ◌<◌, ◌∷◌, ◌&&◌, Bool, not, nat_lt, if◌then◌else◌, ℕ, List};
ghost use Rattle.std.specs.Prelude.{length, is_some, Some, None, IfOk, OnOk, OnErr, IsOk, true, false, []};
ghost use Rattle.at_ddp.specs.Sending.{Sends};
ghost use Rattle.at_atp_frame.specs.Packets.{Packet as Arrived};
ghost use Rattle.at_atp_requester.specs.Answers.{AnswerPart, is_wanted, whole, with_part};
ghost use Rattle.at_atp_frame.specs.Frames.{content, CanBeWritten, data_of, spelled_all};
ghost use Rattle.at_atp_requester.specs.Requests.{beginning, is_of, request_by, release_by, came, is_finished};

use crate::part::{Part, bitmap_of, completes, gather, is_wanted, no_parts};
use crate::progress::RequestProgress;
use at_atp_frame::{Frame, PACKET_LEN, send};
use at_ddp::{Address, Bytes, Listed, Outbox};
use std::alloc::{AllocError, Allocator};
use std::marker::Model;
use std::mem;

/// An open transaction.
#[derive(Drop)]
pub(crate) struct Transaction<A: Allocator> {
    tid: u16,
    to: Address,
    user: [u8; 4],
    data_: Bytes<A>,
    xo: bool,
    retries: u8,
    // What came for each packet that was asked for.
    parts: Vec<Option<Part<A>>, A>,
}

impl<A: Allocator> Model for Transaction<A> {
    ghost use Rattle.at_atp_requester.specs.Requests.{Transaction as Open, IsTransaction};

    ghost Value = { Open };

    ghost view = { λ t. record {
      tid = t.tid;
      to = t.to;
      user = t.user;
      data_ = t.data_;
      xo = t.xo;
      retries = t.retries;
      parts = t.parts.items;
    } };

    ghost invariant = { λ t. IsTransaction
        (record {
          tid = t.tid;
          to = t.to;
          user = t.user;
          data_ = t.data_;
          xo = t.xo;
          retries = t.retries;
          parts = t.parts.items;
        }) };
}

// What a transaction asks when it begins.
#[derive(Clone, Copy)]
pub(crate) struct Question<'a> {
    pub to: Address,
    pub user: [u8; 4],
    pub bytes: &'a [u8],
    pub wanted: u8,
    pub xo: bool,
    pub retries: u8,
}

impl<A: Allocator + Copy> Transaction<A> {
    // The transaction that begins under this number. What came before into the room is dropped.
    pub(crate) fn begin(
        alloc: A,
        room: Vec<Option<Part<A>>, A>,
        tid: u16,
        question: &Question<'_>,
    ) -> Result<Transaction<A>, AllocError>
        requires fits { length question.now.bytes.now ≤ 578 }
        requires few { question.now.wanted ≤ 8 }
        ensures { IfOk result (λ t. t ≡ beginning tid question.now.to question.now.user question.now.bytes.now
            question.now.wanted question.now.xo question.now.retries) }
    {
        Ok(Transaction {
            tid,
            to: question.to,
            user: question.user,
            data_: Bytes::copy_of(alloc, question.bytes)?,
            xo: question.xo,
            retries: question.retries,
            parts: no_parts(room, question.wanted)?,
        })
    }
}

impl<A: Allocator> Transaction<A> {
    // The room of the packets that came, for a transaction that begins later.
    pub(crate) fn into_room(self) -> Vec<Option<Part<A>>, A> {
        self.parts
    }

    pub(crate) fn tid(&self) -> u16
        ensures { result ≡ self.now.tid }
    {
        self.tid
    }

    pub(crate) fn is_of(&self, tid: u16, from: Address) -> bool
        ensures { result ≡ is_of tid from self.now }
    {
        self.tid == tid && self.to == from
    }

    // The request for the packets still wanted.
    pub(crate) fn request(&self) -> Frame<'_>
        ensures request { content result ≡ request_by self.now }
        ensures written { CanBeWritten (content result) }
        ensures fits { length (data_of (content result)) ≤ 578 }
    {
        Frame::Request {
            mask: bitmap_of(&self.parts),
            xo: self.xo,
            timer: 0,
            tid: self.tid,
            user: self.user,
            data_: self.data_.as_slice(),
        }
    }

    // Whether the packet with this sequence number would end this transaction, and the transaction is at-least-once.
    pub(crate) fn would_end(&self, sequence_number: u8, eom: bool) -> bool
        ensures { (part : AnswerPart) (sts : Bool) → part.eom ≡ eom
            → result ≡ (not self.now.xo && is_finished (came {A = A} self.now sequence_number part sts).step) }
    {
        !self.xo && self.wants(sequence_number) && self.completes(sequence_number, eom)
    }

    fn wants(&self, sequence_number: u8) -> bool
        ensures wanted { result ≡ is_wanted self.now.parts sequence_number }
        ensures within { result ≡ true → sequence_number < length self.now.parts }
    {
        is_wanted(&self.parts, sequence_number)
    }

    // Whether the packet with this sequence number would complete the answer.
    fn completes(&self, sequence_number: u8, eom: bool) -> bool
        requires { sequence_number < length self.now.parts }
        ensures { (part : AnswerPart) → part.eom ≡ eom
            → result ≡ is_some (whole (with_part self.now.parts sequence_number part)) }
    {
        completes(&self.parts, sequence_number, eom)
    }

    // If the transaction is exactly-once, sends the release: the answer is complete.
    fn release(&self, out: &mut Outbox<A>) -> Result<(), AllocError>
        ensures ok { OnOk result (Sends out.old out.new (spelled_all (release_by self.now))) }
        ensures err { OnErr result (Sends out.old out.new []) }
        ensures untouched { self.now.xo ≡ false → out.new ≡ out.old }
    {
        if !self.xo {
            return Ok(());
        }
        send(out, self.to, &Frame::Release { tid: self.tid })
    }

    // Uses up a retry and sends the request again. Returns false if no retry is left.
    pub(crate) fn take_retry(&mut self, out: &mut Outbox<A>) -> Result<bool, AllocError>
        ensures taken { IfOk result (λ taken. taken ≡ nat_lt 0 self.old.retries) }
        ensures state { OnOk result (self.new ≡ record self.old { retries = self.old.retries - 1 }) }
        ensures sent { OnOk result (Sends out.old out.new
            (spelled_all (if nat_lt 0 self.old.retries then (self.old.to, request_by self.old) ∷ [] else []))) }
        ensures unchanged { OnErr result (self.new ≡ self.old) }
        ensures nothing_sent { OnErr result (Sends out.old out.new []) }
        ensures none { self.old.retries ≡ 0 → IsOk result }
    {
        if self.retries == 0 {
            return Ok(false);
        }
        send(out, self.to, &self.request())?;
        self.retries -= 1;
        Ok(true)
    }

    fn keep_part(&mut self, sequence_number: u8, part: Part<A>)
        requires { sequence_number < length self.old.parts }
        ensures { self.new ≡ record self.old { parts = with_part self.old.parts sequence_number part } }
    {
        self.parts[sequence_number as usize] = Some(part);
    }
}

// A packet of an answer, as it arrives.
#[derive(Clone, Copy)]
pub(crate) struct Arriving<'a> {
    pub sequence_number: u8,
    pub eom: bool,
    pub sts: bool,
    pub user: [u8; 4],
    pub bytes: &'a [u8],
}

impl<A: Allocator + Copy> Transaction<A> {
    ghost use Rattle.at_atp_requester.specs.Requests.{was_kept, is_ignored, IsEffect};
    ghost use Rattle.at_atp_requester.specs.Arriving.{arrival_of};

    // Takes a packet of the answer: it came from the address that was asked, with this transaction's number.
    pub(crate) fn hear(
        &mut self,
        alloc: A,
        arriving: &Arriving<'_>,
        out: &mut Outbox<A>,
    ) -> Result<RequestProgress<A>, AllocError>
        ensures ok { IfOk result (λ step. IsEffect
            (came self.old arriving.now.sequence_number (arrival_of arriving.now) arriving.now.sts)
            step self.new out.old out.new) }
        ensures number { self.new.tid ≡ self.old.tid }
        ensures unchanged { OnErr result (self.new ≡ self.old) }
        ensures nothing_sent { OnErr result (Sends out.old out.new []) }
        ensures ignored { is_ignored (came {A = A} self.old arriving.now.sequence_number (arrival_of arriving.now)
            arriving.now.sts).step ≡ true → IsOk result }
    {
        if !self.wants(arriving.sequence_number) {
            return self.not_wanted(arriving.sts, out);
        }
        if self.completes(arriving.sequence_number, arriving.eom) {
            self.finish(alloc, arriving, out)
        } else {
            self.keep(alloc, arriving, out)
        }
    }

    // The packet with this sequence number is not wanted. STS still makes the requester ask again.
    fn not_wanted(&self, sts: bool, out: &mut Outbox<A>) -> Result<RequestProgress<A>, AllocError>
        ensures ok { (place : ℕ) (part : AnswerPart) → is_wanted self.now.parts place ≡ false
            → IfOk result (λ step. IsEffect (came self.now place part sts) step self.now out.old out.new) }
        ensures nothing_sent { OnErr result (Sends out.old out.new []) }
        ensures ignored { sts ≡ false → IsOk result }
    {
        if !sts {
            return Ok(RequestProgress::Ignored);
        }
        send(out, self.to, &self.request())?;
        Ok(RequestProgress::AskAgain)
    }

    // Keeps a packet that does not complete the answer. With STS it asks again for the rest.
    fn keep(
        &mut self,
        alloc: A,
        arriving: &Arriving<'_>,
        out: &mut Outbox<A>,
    ) -> Result<RequestProgress<A>, AllocError>
        requires within { arriving.now.sequence_number < length self.old.parts }
        requires more { whole (with_part self.old.parts arriving.now.sequence_number (arrival_of arriving.now)) ≡ None }
        ensures ok { IfOk result (λ step. IsEffect (was_kept
            (record self.old {
              parts = with_part self.old.parts arriving.now.sequence_number (arrival_of arriving.now);
            })
            arriving.now.sts None) step self.new out.old out.new) }
        ensures number { self.new.tid ≡ self.old.tid }
        ensures unchanged { OnErr result (self.new ≡ self.old) }
        ensures nothing_sent { OnErr result (Sends out.old out.new []) }
    {
        let part = Part::copy_of(alloc, arriving.eom, arriving.user, arriving.bytes)?;
        if !arriving.sts {
            self.keep_part(arriving.sequence_number, part);
            return Ok(RequestProgress::Kept);
        }
        out.room(1, PACKET_LEN)?;
        self.keep_part(arriving.sequence_number, part);
        send(out, self.to, &self.request()).unwrap();
        Ok(RequestProgress::AskAgain)
    }

    // Takes the packet that completes the answer.
    fn finish(
        &mut self,
        alloc: A,
        arriving: &Arriving<'_>,
        out: &mut Outbox<A>,
    ) -> Result<RequestProgress<A>, AllocError>
        requires within { arriving.now.sequence_number < length self.old.parts }
        ensures ok { (packets : List Arrived)
            → whole (with_part self.old.parts arriving.now.sequence_number (arrival_of arriving.now)) ≡ Some packets
            → IfOk result (λ step. (step ≡ RequestProgress.Finished packets)
            × Sends out.old out.new (spelled_all (release_by self.old))) }
        ensures number { self.new.tid ≡ self.old.tid }
        ensures unchanged { OnErr result (self.new ≡ self.old) }
        ensures nothing_sent { OnErr result (Sends out.old out.new []) }
        ensures untouched { self.old.xo ≡ false → out.new ≡ out.old }
    {
        // All memory comes first: once the release is sent, the transaction must end.
        let part = Part::copy_of(alloc, arriving.eom, arriving.user, arriving.bytes)?;
        let packets = Vec::with_capacity(alloc, self.parts.len())?;
        self.release(out)?;
        self.keep_part(arriving.sequence_number, part);
        let parts = mem::replace(&mut self.parts, Vec::new(alloc));
        Ok(RequestProgress::Finished(Listed::from_vec(gather(parts, packets))))
    }
}
