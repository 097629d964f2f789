//! What forward resets and their answers do at an open end.
ghost use Rattle.std.specs.Prelude.{◌≡◌, ◌≢◌, ◌&&◌, ◌==◌, [], false, IfOk, OnErr, IsOk};
ghost use Rattle.at_ddp.specs.Sending.{Sends};
ghost use Rattle.at_adsp_end.specs.Ends.{free, next_unsent};
ghost use Rattle.at_adsp_end.specs.Hearing.{answer_came, forward, reset_came};
ghost use Rattle.at_adsp_end.specs.Loads.{HasRoomTo};
ghost use Rattle.at_adsp_end.specs.Moves.{IsOutcome};
ghost use Rattle.at_adsp_end.specs.Outgoings.{IsWithin};
ghost use Rattle.at_adsp_end.specs.Positions.{wire};
ghost use Rattle.at_adsp_end.specs.Sending.{hearing};

use crate::advance::Advance;
use crate::change::EndChange;
use crate::end::End;
use crate::forward::Forward;
use crate::load::Load;
use crate::positions::{ahead, number_after};
use at_adsp_frame::Body;
use at_ddp::Outbox;
use std::alloc::{AllocError, Allocator};

impl<A: Allocator> End<A> {
    pub(crate) fn hear_reset(
        &mut self,
        advance: Advance,
        forward: Forward,
        out: &mut Outbox<A>,
    ) -> Result<EndChange, AllocError>
        requires within { IsWithin self.old.sender advance.acks }
        ensures ok { IfOk result (λ step. IsOutcome
            (reset_came wire (hearing wire self.old advance.window advance.acks) forward) self.old.asked step self.new
            out.old out.new) }
        ensures unchanged { OnErr result (self.new ≡ self.old) }
        ensures nothing_sent { OnErr result (Sends out.old out.new []) }
        ensures memory { HasRoomTo out.old self.old.asked
            (reset_came wire (hearing wire self.old advance.window advance.acks) forward).sent → IsOk result }
    {
        match forward {
            Forward::Beyond => self.hear_only(advance, out),
            _ => self.take_reset(advance, forward, out),
        }
    }

    fn take_reset(
        &mut self,
        advance: Advance,
        forward: Forward,
        out: &mut Outbox<A>,
    ) -> Result<EndChange, AllocError>
        requires within { IsWithin self.old.sender advance.acks }
        requires answered { forward ≢ Forward.Beyond }
        ensures ok { IfOk result (λ step. IsOutcome
            (reset_came wire (hearing wire self.old advance.window advance.acks) forward) self.old.asked step self.new
            out.old out.new) }
        ensures unchanged { OnErr result (self.new ≡ self.old) }
        ensures nothing_sent { OnErr result (Sends out.old out.new []) }
        ensures memory { HasRoomTo out.old self.old.asked
            (reset_came wire (hearing wire self.old advance.window advance.acks) forward).sent → IsOk result }
    {
        self.make_room(advance, Load::of_one(0), out)?;
        self.note_acknowledgement(advance, out);
        let step = self.jump(forward);
        self.send_control(false, Body::ResetAck, out).unwrap();
        Ok(step)
    }

    pub(crate) fn hear_reset_ack(
        &mut self,
        advance: Advance,
        next: u32,
        out: &mut Outbox<A>,
    ) -> Result<EndChange, AllocError>
        requires within { IsWithin self.old.sender advance.acks }
        ensures ok { IfOk result (λ step. IsOutcome
            (answer_came wire (hearing wire self.old advance.window advance.acks)
            (self.old.sender.resetting && (next == next_unsent wire self.old.sender)))
            self.old.asked step self.new out.old out.new) }
        ensures unchanged { OnErr result (self.new ≡ self.old) }
        ensures nothing_sent { OnErr result (Sends out.old out.new []) }
        ensures memory { HasRoomTo out.old self.old.asked
            (answer_came wire (hearing wire self.old advance.window advance.acks)
            (self.old.sender.resetting && (next == next_unsent wire self.old.sender))).sent → IsOk result }
    {
        if !self.is_answered_by(next) {
            return self.hear_only(advance, out);
        }
        let waiting = self.count_unreset(advance);
        let segments = self.count_segments(self.outgoing.sent(), waiting);
        self.make_room(advance, segments, out)?;
        self.note_acknowledgement(advance, out);
        self.unreset();
        self.send_on(out);
        Ok(EndChange::Heard {
            id: self.id,
            items: 0,
        })
    }

    // Whether the forward reset of this end is answered by this next expected number.
    fn is_answered_by(&self, next: u32) -> bool
        ensures { result ≡ (self.now.sender.resetting && (next == next_unsent wire self.now.sender)) }
    {
        self.outgoing.is_resetting() && next == self.outgoing.next_unsent()
    }

    fn unreset(&mut self)
        ensures { self.new ≡ record self.old { sender = record self.old.sender { resetting = false } } }
    {
        self.outgoing.set_resetting(false);
    }

    // Where a forward reset to this number leads.
    pub(crate) fn forward_to(&self, first: u32) -> Forward
        ensures { result ≡ forward wire self.now first }
    {
        match ahead(self.received, first) {
            Some(distance) if distance <= self.free() as u32 => Forward::Jump(distance),
            _ => match ahead(first, self.received) {
                Some(_) => Forward::Older,
                None => Forward::Beyond,
            },
        }
    }

    // Takes a forward reset, if it leads ahead.
    fn jump(&mut self, forward: Forward) -> EndChange
        requires { forward ≢ Forward.Beyond }
        ensures step { result ≡ (reset_came wire (record { after = self.old; sent = [] }) forward).step }
        ensures state { self.new ≡ (reset_came wire (record { after = self.old; sent = [] }) forward).after }
    {
        if let Forward::Jump(distance) = forward {
            self.received = number_after(self.received, distance);
            self.unread.clear();
            EndChange::Dropped(self.id)
        } else {
            EndChange::Heard {
                id: self.id,
                items: 0,
            }
        }
    }
}
