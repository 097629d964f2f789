//! One request that came, and what became of it: it waits, it is answered, or its answer arrived.
ghost use Rattle.std.specs.Prelude.{◌≡◌, ℕ, ◌+◌, ◌≤◌, ◌∷◌, [], length, true, false, if◌then◌else◌, IfOk, OnErr, IsOk};
ghost use Rattle.std.specs.Prelude.{None};
ghost use Rattle.at_ddp.specs.Sending.{Sends, HasRoomFor};
ghost use Rattle.at_atp_frame.specs.Frames.{Response, spelled_all};
ghost use Rattle.at_atp_responder.specs.Records.{Waiting, Answered, fit, responses, state_fault};
ghost use Rattle.at_atp_responder.specs.Records.{expiry_fault_of, asked_bitmap, keeps_answer, repeated, released};
ghost use Rattle.at_atp_responder.specs.Records.{IsRepeat, expiring_key};

use crate::answer_room::AnswerRoom;
use crate::reception::{Key, Reception};
use at_atp_frame::{AtpFault, Frame, PACKET_LEN, Packet, send};
use at_ddp::{Listed, Outbox};
use std::alloc::{AllocError, Allocator};
use std::marker::Model;

// What became of a request. If it is exactly-once, its record has memory for the answer that will be kept.
#[derive(Drop)]
pub(crate) enum RecordState<A: Allocator> {
    Waiting {
        bitmap: u8,
        room: Option<AnswerRoom<A>>,
    },
    Answered(Listed<Packet<A>, A>),
    Released,
}

/// A record: a request that came, and what became of it.
#[derive(Drop)]
pub(crate) struct Record<A: Allocator> {
    key: Key,
    state: RecordState<A>,
}

impl<A: Allocator> Model for Record<A> {
    ghost use Rattle.at_atp_responder.specs.Records.{Record as Kept};

    ghost Value = { Kept };

    ghost use Rattle.at_atp_responder.specs.States.{state_of, CanBeSent};

    ghost view = { λ e. record { key = e.key; state = state_of e.state } };

    ghost invariant = { λ e. CanBeSent (state_of e.state) };
}

impl<A: Allocator + Copy> Record<A> {
    // A new request. One that is exactly-once takes the memory for its answer at once.
    pub(crate) fn waiting(alloc: A, key: Key, xo: bool, bitmap: u8) -> Result<Record<A>, AllocError>
        ensures { IfOk result (λ e. e ≡ record { key = key; state = Waiting xo bitmap }) }
    {
        let room = if xo {
            Some(AnswerRoom::new(alloc)?)
        } else {
            None
        };
        let state = RecordState::Waiting { bitmap, room };
        Ok(Record { key, state })
    }

    // Keeps a copy of the answer to an exactly-once request that waits. This needs no memory.
    pub(crate) fn keep_copy(&mut self, packets: &[Packet<A>])
        requires few { length packets.now ≤ 8 }
        requires fits { fit packets.now ≡ true }
        requires kept { keeps_answer self.old.state ≡ true }
        ensures { self.new ≡ record self.old { state = Answered packets.now } }
    {
        if let RecordState::Waiting { room, .. } = &mut self.state {
            if let Some(room) = room.take() {
                self.state = RecordState::Answered(room.copy(packets));
            }
        }
    }
}

impl<A: Allocator> Record<A> {
    // Why the request cannot be answered.
    pub(crate) fn fault(&self) -> Option<AtpFault>
        ensures { result ≡ state_fault self.now.state }
    {
        match &self.state {
            RecordState::Waiting { .. } => None,
            RecordState::Answered(_) => Some(AtpFault::Gone),
            RecordState::Released => Some(AtpFault::Gone),
        }
    }

    // Why the record cannot expire.
    pub(crate) fn expiry_fault(&self) -> Option<AtpFault>
        ensures { result ≡ expiry_fault_of self.now.state }
    {
        match &self.state {
            RecordState::Waiting { .. } => Some(AtpFault::StillPending),
            RecordState::Answered(_) => None,
            RecordState::Released => None,
        }
    }

    // The key of the record, if it can expire.
    pub(crate) fn expiring_key(&self) -> Option<Key>
        ensures { result ≡ expiring_key self.now }
    {
        match self.expiry_fault() {
            Some(_) => None,
            None => Some(self.key),
        }
    }

    pub(crate) fn bitmap(&self) -> u8
        ensures { result ≡ asked_bitmap self.now.state }
    {
        match &self.state {
            RecordState::Waiting { bitmap, .. } => *bitmap,
            RecordState::Answered(_) => 0,
            RecordState::Released => 0,
        }
    }

    // Whether the request is exactly-once and waits, so that its answer will be kept.
    pub(crate) fn keeps_answer(&self) -> bool
        ensures { result ≡ keeps_answer self.now.state }
    {
        match &self.state {
            RecordState::Waiting { room, .. } => room.is_some(),
            RecordState::Answered(_) => false,
            RecordState::Released => false,
        }
    }

    pub(crate) fn keep(&mut self, packets: Listed<Packet<A>, A>)
        requires few { length packets ≤ 8 }
        requires fits { fit packets ≡ true }
        ensures { self.new ≡ record self.old { state = Answered packets } }
    {
        self.state = RecordState::Answered(packets);
    }

    // A request that still waits takes the new bitmap.
    fn ask(&mut self, bitmap: u8)
        requires { state_fault self.old.state ≡ None }
        ensures { self.new ≡ record self.old { state = (repeated self.old.key bitmap self.old.state).state } }
    {
        if let RecordState::Waiting { bitmap: asked, .. } = &mut self.state {
            *asked = bitmap;
        }
    }

    // Sends what is kept of the answer again. A request that still waits takes the new bitmap.
    pub(crate) fn come_again(
        &mut self,
        bitmap: u8,
        out: &mut Outbox<A>,
    ) -> Result<Reception, AllocError>
        ensures ok { IfOk result (λ r. IsRepeat (repeated self.old.key bitmap self.old.state) r self.old self.new
            out.old out.new) }
        ensures unchanged { OnErr result (self.new ≡ self.old) }
        ensures nothing_sent { OnErr result (Sends out.old out.new []) }
        ensures ignored { (repeated self.old.key bitmap self.old.state).reception ≡ Reception.Ignored → IsOk result }
        ensures waits { state_fault self.old.state ≡ None → IsOk result }
    {
        let key = self.key;
        match &self.state {
            RecordState::Released => Ok(Reception::Ignored),
            RecordState::Answered(packets) => {
                let packets = packets.as_slice();
                out.room(packets.len() as u32, PACKET_LEN)?;
                Ok(Reception::Again(send_answer(out, key, 0, bitmap, packets)))
            }
            RecordState::Waiting { .. } => {
                self.ask(bitmap);
                Ok(Reception::Again(0))
            }
        }
    }

    // Drops the answer that is kept, since it arrived complete.
    pub(crate) fn release(&mut self) -> Reception
        ensures reception { result ≡ (released self.old.state).reception }
        ensures state { self.new ≡ record self.old { state = (released self.old.state).state } }
    {
        match &self.state {
            RecordState::Waiting { .. } => Reception::Ignored,
            RecordState::Released => Reception::Ignored,
            RecordState::Answered(_) => {
                self.state = RecordState::Released;
                Reception::Released
            }
        }
    }
}

// Sends the packets whose bits are set in the bitmap, and counts them. Bit 0 is for the packet at `sequence_number`.
pub(crate) fn send_answer<A: Allocator>(
    out: &mut Outbox<A>,
    key: Key,
    sequence_number: u8,
    bitmap: u8,
    packets: &[Packet<A>],
) -> u8
    requires fits { fit packets.now ≡ true }
    requires few { sequence_number + length packets.now ≤ 8 }
    requires room { HasRoomFor out.old (length packets.now) 586 }
    ensures sent { Sends out.old out.new (spelled_all (responses key sequence_number bitmap packets.now)) }
    ensures count { result ≡ length (responses key sequence_number bitmap packets.now) }
    ensures few { result ≤ length packets.now }
{
    match packets {
        [] => 0,
        [packet, rest @ ..] => {
            let asked = bitmap % 2 == 1;
            send_if(asked, out, key, sequence_number, rest.is_empty(), packet);
            u8::from(asked) + send_answer(out, key, sequence_number + 1, bitmap / 2, rest)
        }
    }
}

fn send_if<A: Allocator>(
    asked: bool,
    out: &mut Outbox<A>,
    key: Key,
    sequence_number: u8,
    eom: bool,
    packet: &Packet<A>,
)
    requires sequence_number { sequence_number ≤ 7 }
    requires fits { length packet.now.data_ ≤ 578 }
    requires room { HasRoomFor out.old 1 586 }
    ensures sent { Sends out.old out.new
        (spelled_all (if asked
        then (key.from, Response sequence_number eom false key.tid packet.now.user packet.now.data_) ∷ []
        else [])) }
    ensures room { (n : ℕ) → HasRoomFor out.old (n + 1) 586 → HasRoomFor out.new n 586 }
{
    if !asked {
        return;
    }
    let frame = Frame::Response {
        sequence_number,
        eom,
        sts: false,
        tid: key.tid,
        user: packet.user(),
        data_: packet.data_(),
    };
    send(out, key.from, &frame).unwrap();
}
