//! Requests that are answered as they come. An at-least-once request loses its record with its answer, so it needs none
//! then.
ghost use Rattle.std.specs.Prelude.{◌≡◌, ◌≤◌, [], true, false, None, Some, find, length};
ghost use Rattle.std.specs.Prelude.{IfOk, IfSome, IsSome, OnErr, OnOk};
ghost use Rattle.at_ddp.specs.Sending.{Sends};
ghost use Rattle.at_atp_frame.specs.Frames.{content, spelled_all};
ghost use Rattle.at_atp_responder.specs.AtOnce.{at_least_once, taken_new};
ghost use Rattle.at_atp_responder.specs.Records.{finds_no_place, fit, is_key, is_new_and_full, responses, received};

use crate::reception::{Key, NewRequest};
use crate::record::send_answer;
use crate::records::{RECORDS, count};
use crate::responder::Responder;
use at_atp_frame::{Frame, PACKET_LEN, Packet};
use at_ddp::{Address, Outbox};
use std::alloc::{AllocError, Allocator};

impl<A: Allocator + Copy> Responder<A> {
    /// The request in a packet that came from this address, if it is new and at-least-once, and finds a place.
    pub fn new_request(&self, from: Address, frame: &Frame<'_>) -> Option<NewRequest>
        ensures new { IfSome result (λ request. received self.now from (content frame.now)
            ≡ taken_new self.now request) }
        ensures apart { IfSome result (λ request. find (is_key request.key) self.now ≡ None) }
        ensures place { IsSome result → finds_no_place self.now from (content frame.now) ≡ false }
        ensures asked { IfSome result (λ request. at_least_once from (content frame.now) ≡ Some request) }
        ensures none { result ≡ None → IfSome (at_least_once from (content frame.now)) (λ request.
            find (is_key request.key) self.now ≡ None → is_new_and_full self.now request.key ≡ true) }
    {
        let Frame::Request {
            mask: bitmap,
            xo: false,
            tid,
            ..
        } = *frame
        else {
            return None;
        };
        let key = Key { from, tid };
        if bitmap == 0 || !self.finds_place(key) {
            return None;
        }
        Some(NewRequest { key, bitmap })
    }

    // Whether a request is new, and finds a place.
    fn finds_place(&self, key: Key) -> bool
        ensures new { result ≡ true → find (is_key key) self.now ≡ None }
        ensures place { result ≡ true → is_new_and_full self.now key ≡ false }
        ensures none { result ≡ false → find (is_key key) self.now ≡ None → is_new_and_full self.now key ≡ true }
    {
        count(&self.records) < RECORDS && !self.holds(key)
    }

    /// Answers a request as it comes: sends the packets that it asked for, and returns how many. No record is made. By
    /// `laws::an_answer_at_once_leaves_no_record` it is as if the request had waited for the answer.
    pub fn answer_at_once(
        request: NewRequest,
        packets: &[Packet<A>],
        out: &mut Outbox<A>,
    ) -> Result<u8, AllocError>
        requires some { 1 ≤ length packets.now }
        requires few { length packets.now ≤ 8 }
        requires fits { fit packets.now ≡ true }
        ensures sent { OnOk result (Sends out.old out.new
            (spelled_all (responses request.key 0 request.bitmap packets.now))) }
        ensures counts { IfOk result (λ count. count ≡ length (responses request.key 0 request.bitmap packets.now)) }
        ensures nothing_sent { OnErr result (Sends out.old out.new []) }
    {
        out.room(packets.len() as u32, PACKET_LEN)?;
        let NewRequest { key, bitmap } = request;
        Ok(send_answer(out, key, 0, bitmap, packets))
    }
}
