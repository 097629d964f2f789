//! Answers to requests that wait, and room for an answer.
ghost use Rattle.std.specs.Prelude.{◌≡◌, ◌≤◌, ℕ, [], true, length, find, IfOk, IfErr, IfSome, OnOk, OnErr};
ghost use Rattle.std.specs.Prelude.{IsOk, None, Some, Err};
ghost use Rattle.std.specs.List.{position_from};
ghost use Rattle.at_ddp.specs.Sending.{Sends, HasRoomFor};
ghost use Rattle.at_atp_frame.specs.Frames.{spelled_all};
ghost use Rattle.at_atp_responder.specs.Records.{fit, is_key, answer_fault, asked_bitmap, asked_for};
ghost use Rattle.at_atp_responder.specs.Records.{IsAnswered};

use crate::reception::Key;
use crate::record::send_answer;
use crate::records::{Records, WaitingRequest, waiting};
use crate::responder::Responder;
use crate::settling::{settle, settle_copy};
use at_atp_frame::{AtpFault, MAX_DATA, PACKET_LEN, Packet};
use at_ddp::{Listed, Outbox};
use std::alloc::{AllocError, Allocator};

/// The most packets of an answer.
pub(crate) const PACKETS: usize = 8;

impl<A: Allocator + Copy> Responder<A> {
    /// Answers a request that waits: sends the packets that it asked for, and returns how many. The answer to an
    /// exactly-once request is copied and kept, in memory that was taken as the request came. Any other request loses
    /// its record.
    pub fn respond(
        &mut self,
        key: Key,
        packets: &[Packet<A>],
        out: &mut Outbox<A>,
    ) -> Result<u8, AtpFault>
        ensures ok { IfOk result (λ count. IsAnswered self.old self.new key packets.now count out.old out.new) }
        ensures refuses { IfSome (answer_fault self.old key packets.now) (λ fault. result ≡ Err fault) }
        ensures memory { answer_fault self.old key packets.now ≡ None
            → IfErr result (λ fault. fault ≡ AtpFault.NoMemory) }
        ensures unchanged { OnErr result (self.new ≡ self.old) }
        ensures nothing_sent { OnErr result (Sends out.old out.new []) }

        // Never out of memory if there is room for eight full packets.
        ensures room { HasRoomFor out.old 8 586 → answer_fault self.old key packets.now ≡ None → IsOk result }
    {
        let sent = send_asked(&self.records, key, packets, out)?;
        settle_copy(&mut self.records, key, sent.index, packets);
        Ok(sent.count)
    }

    /// The same as `respond`, with packets that it takes over.
    pub fn hand_over(
        &mut self,
        key: Key,
        packets: Listed<Packet<A>, A>,
        out: &mut Outbox<A>,
    ) -> Result<u8, AtpFault>
        ensures ok { IfOk result (λ count. IsAnswered self.old self.new key packets count out.old out.new) }
        ensures refuses { IfSome (answer_fault self.old key packets) (λ fault. result ≡ Err fault) }
        ensures memory { answer_fault self.old key packets ≡ None → IfErr result (λ fault. fault ≡ AtpFault.NoMemory) }
        ensures unchanged { OnErr result (self.new ≡ self.old) }
        ensures nothing_sent { OnErr result (Sends out.old out.new []) }

        // Never out of memory if there is room for eight full packets.
        ensures room { HasRoomFor out.old 8 586 → answer_fault self.old key packets ≡ None → IsOk result }
    {
        let sent = send_asked(&self.records, key, packets.as_slice(), out)?;
        settle(&mut self.records, key, sent.index, packets);
        Ok(sent.count)
    }

    /// Makes room for the largest answer. Then neither `respond` nor `hand_over` needs memory for one.
    pub fn room(out: &mut Outbox<A>) -> Result<(), AllocError>
        ensures ok { OnOk result (HasRoomFor out.new 8 586) }
        ensures succeeds { HasRoomFor out.old 8 586 → IsOk result }
        ensures nothing_sent { Sends out.old out.new [] }
        ensures kept { (n size : ℕ) → HasRoomFor out.old n size → HasRoomFor out.new n size }
    {
        out.room(PACKETS as u32, PACKET_LEN)
    }
}

// An answer that was sent, whose request has its record still.
#[derive(Clone, Copy)]
struct SentAnswer {
    // The index of the record.
    index: usize,
    // How many packets were sent.
    count: u8,
}

// Sends the packets of an answer that its request asked for, and counts them.
fn send_asked<A: Allocator>(
    records: &Records<A>,
    key: Key,
    packets: &[Packet<A>],
    out: &mut Outbox<A>,
) -> Result<SentAnswer, AtpFault>
    ensures place { IfOk result (λ s. position_from (is_key key) 0 records.now ≡ Some s.index) }
    ensures few { OnOk result (length packets.now ≤ 8) }
    ensures fits { OnOk result (fit packets.now ≡ true) }
    ensures sent { OnOk result
        (Sends out.old out.new (spelled_all (asked_for (find (is_key key) records.now) key packets.now))) }
    ensures counts { IfOk result
        (λ s. s.count ≡ length (asked_for (find (is_key key) records.now) key packets.now)) }
    ensures accepts { OnOk result (answer_fault records.now key packets.now ≡ None) }
    ensures refuses { IfSome (answer_fault records.now key packets.now) (λ fault. result ≡ Err fault) }
    ensures memory { answer_fault records.now key packets.now ≡ None
        → IfErr result (λ fault. fault ≡ AtpFault.NoMemory) }
    ensures nothing_sent { OnErr result (Sends out.old out.new []) }
    ensures room { HasRoomFor out.old 8 586 → answer_fault records.now key packets.now ≡ None → IsOk result }
{
    let request = answerable(records, key, packets)?;
    out.room(packets.len() as u32, PACKET_LEN)?;
    let count = send_answer(out, key, 0, request.bitmap, packets);
    Ok(SentAnswer {
        index: request.index,
        count,
    })
}

// The request that an answer is for. The error is why the answer is refused: first for its packets, then for its
// request.
fn answerable<A: Allocator>(
    records: &Records<A>,
    key: Key,
    packets: &[Packet<A>],
) -> Result<WaitingRequest, AtpFault>
    ensures place { IfOk result (λ w. position_from (is_key key) 0 records.now ≡ Some w.index) }
    ensures bitmap { IfOk result (λ w. IfSome (find (is_key key) records.now) (λ r. w.bitmap ≡ asked_bitmap r.state)) }
    ensures accepts { OnOk result (answer_fault records.now key packets.now ≡ None) }
    ensures refuses { IfErr result (λ fault. answer_fault records.now key packets.now ≡ Some fault) }
{
    match packets {
        [] => Err(AtpFault::EmptyAnswer),
        [_, ..] => {
            if packets.len() <= PACKETS && fit(packets) {
                waiting(records, key)
            } else {
                Err(AtpFault::AtpTooLong)
            }
        }
    }
}

// Whether each packet has at most 578 bytes of data. The number of packets is tested elsewhere.
fn fit<A: Allocator>(packets: &[Packet<A>]) -> bool
    ensures { result ≡ fit packets.now }
{
    packets.iter().all(|p| p.data_().len() <= MAX_DATA)
}
