//! What segments do at an open end.
ghost use Rattle.std.specs.Prelude.{◌≡◌, ◌==◌, [], length, false, IfOk, OnErr};
ghost use Rattle.std.specs.Prelude.{IsOk};
ghost use Rattle.at_ddp.specs.Sending.{Sends};
ghost use Rattle.at_adsp_frame.specs.Segments.{content};
ghost use Rattle.at_adsp_end.specs.Cuts.{items_in};
ghost use Rattle.at_adsp_end.specs.Ends.{SendsTo};
ghost use Rattle.at_adsp_end.specs.Hearing.{advice_came, close_came, heard, heard_only, if_asked};
ghost use Rattle.at_adsp_end.specs.Hearing.{items_came, taken, taking, told};
ghost use Rattle.at_adsp_end.specs.Loads.{HasRoomTo};
ghost use Rattle.at_adsp_end.specs.Moves.{IsOutcome};
ghost use Rattle.at_adsp_end.specs.Outgoings.{IsWithin};
ghost use Rattle.at_adsp_end.specs.Positions.{wire};
ghost use Rattle.at_adsp_end.specs.Sending.{acks, hearing, shut};

use crate::advance::Advance;
use crate::arrival::{NewItems, keep, new_items};
use crate::change::EndChange;
use crate::end::End;
use crate::load::Load;
use crate::phase::Phase;
use crate::positions::{ahead, number_after};
use at_adsp_frame::{Body, Segment};
use at_ddp::Outbox;
use std::alloc::{AllocError, Allocator};

impl<A: Allocator> End<A> {
    /// Takes a segment that is for this open end. The error is out of memory.
    pub fn receive(
        &mut self,
        segment: &Segment<'_>,
        out: &mut Outbox<A>,
    ) -> Result<EndChange, AllocError>
        ensures ok { IfOk result (λ step. IsOutcome (heard wire self.old (told wire self.old (content segment.now)))
            self.old.asked step self.new out.old out.new) }
        ensures unchanged { OnErr result (self.new ≡ self.old) }
        ensures nothing_sent { OnErr result (Sends out.old out.new []) }
        ensures memory { HasRoomTo out.old self.old.asked
            (heard wire self.old (told wire self.old (content segment.now))).sent → IsOk result }
    {
        let advance = self.advance_of(segment);
        match segment.body {
            Body::Data { end, data_ } => {
                let arrival = new_items(end, data_, ahead(segment.first, self.received));
                self.hear_data(advance, segment.ack, &arrival, out)
            }
            Body::Probe => self.hear_probe(advance, segment.ack, out),
            Body::Open { .. } => self.hear_only(advance, out),
            Body::Close => self.hear_close(advance, out),
            Body::Reset => self.hear_reset(advance, self.forward_to(segment.first), out),
            Body::ResetAck => self.hear_reset_ack(advance, segment.next, out),
            Body::Advice => self.hear_advice(advance, out),
        }
    }

    pub(crate) fn hear_only(
        &mut self,
        advance: Advance,
        out: &mut Outbox<A>,
    ) -> Result<EndChange, AllocError>
        requires within { IsWithin self.old.sender advance.acks }
        ensures ok { IfOk result (λ step. IsOutcome
            (heard_only (hearing wire self.old advance.window advance.acks) []) self.old.asked step self.new out.old
            out.new) }
        ensures unchanged { OnErr result (self.new ≡ self.old) }
        ensures nothing_sent { OnErr result (Sends out.old out.new []) }
        ensures memory { HasRoomTo out.old self.old.asked
            (heard_only (hearing wire self.old advance.window advance.acks) []).sent → IsOk result }
    {
        self.make_room(advance, Load::none(), out)?;
        self.note_acknowledgement(advance, out);
        Ok(EndChange::Heard {
            id: self.id,
            items: 0,
        })
    }

    fn hear_data(
        &mut self,
        advance: Advance,
        ack: bool,
        arrival: &NewItems<'_>,
        out: &mut Outbox<A>,
    ) -> Result<EndChange, AllocError>
        requires within { IsWithin self.old.sender advance.acks }
        ensures ok { IfOk result (λ step. IsOutcome
            (items_came wire (hearing wire self.old advance.window advance.acks) ack
            (items_in arrival.now.end arrival.now.bytes.now)) self.old.asked step self.new out.old out.new) }
        ensures unchanged { OnErr result (self.new ≡ self.old) }
        ensures nothing_sent { OnErr result (Sends out.old out.new []) }
        ensures memory { HasRoomTo out.old self.old.asked
            (items_came wire (hearing wire self.old advance.window advance.acks) ack
            (items_in arrival.now.end arrival.now.bytes.now)).sent → IsOk result }
    {
        self.make_room(advance, Load::if_asked(ack), out)?;
        self.note_acknowledgement(advance, out);
        let items = self.take(arrival);
        self.acknowledge_if(ack, out);
        Ok(EndChange::Heard { id: self.id, items })
    }

    fn hear_probe(
        &mut self,
        advance: Advance,
        ack: bool,
        out: &mut Outbox<A>,
    ) -> Result<EndChange, AllocError>
        requires within { IsWithin self.old.sender advance.acks }
        ensures ok { IfOk result (λ step. let c = hearing wire self.old advance.window advance.acks in IsOutcome
            (heard_only c (if_asked wire ack c.after)) self.old.asked step self.new out.old out.new) }
        ensures unchanged { OnErr result (self.new ≡ self.old) }
        ensures nothing_sent { OnErr result (Sends out.old out.new []) }
        ensures memory { HasRoomTo out.old self.old.asked
            (let c = hearing wire self.old advance.window advance.acks in
            (heard_only c (if_asked wire ack c.after)).sent) → IsOk result }
    {
        self.make_room(advance, Load::if_asked(ack), out)?;
        self.note_acknowledgement(advance, out);
        self.acknowledge_if(ack, out);
        Ok(EndChange::Heard {
            id: self.id,
            items: 0,
        })
    }

    fn hear_close(&mut self, advance: Advance, out: &mut Outbox<A>) -> Result<EndChange, AllocError>
        requires within { IsWithin self.old.sender advance.acks }
        ensures ok { IfOk result (λ step. IsOutcome
            (close_came wire (hearing wire self.old advance.window advance.acks)) self.old.asked step self.new out.old
            out.new) }
        ensures unchanged { OnErr result (self.new ≡ self.old) }
        ensures nothing_sent { OnErr result (Sends out.old out.new []) }
        ensures memory { HasRoomTo out.old self.old.asked
            (close_came wire (hearing wire self.old advance.window advance.acks)).sent → IsOk result }
    {
        self.make_room(advance, Load::none(), out)?;
        self.note_acknowledgement(advance, out);
        self.shut();
        Ok(EndChange::Closed(self.id))
    }

    fn hear_advice(
        &mut self,
        advance: Advance,
        out: &mut Outbox<A>,
    ) -> Result<EndChange, AllocError>
        requires within { IsWithin self.old.sender advance.acks }
        ensures ok { IfOk result (λ step. IsOutcome
            (advice_came wire (hearing wire self.old advance.window advance.acks)) self.old.asked step self.new out.old
            out.new) }
        ensures unchanged { OnErr result (self.new ≡ self.old) }
        ensures nothing_sent { OnErr result (Sends out.old out.new []) }
        ensures memory { HasRoomTo out.old self.old.asked
            (advice_came wire (hearing wire self.old advance.window advance.acks)).sent → IsOk result }
    {
        let k = advance.acks.unwrap_or(0);
        let count = self.outgoing.sent() - k + self.count_going_after(advance);
        let segments = self.count_segments(k, count);
        self.make_room(advance, segments, out)?;
        self.note_acknowledgement(advance, out);
        self.send_again(out);
        if self.outgoing.sent() == 0 {
            Ok(EndChange::Heard {
                id: self.id,
                items: 0,
            })
        } else {
            Ok(EndChange::Again)
        }
    }

    // Acknowledges what came, if the segment asks for it.
    fn acknowledge_if(&self, ack: bool, out: &mut Outbox<A>)
        requires { HasRoomTo out.old self.now.asked (if_asked wire ack self.now) }
        ensures { SendsTo out.old out.new self.now.asked (if_asked wire ack self.now) }
    {
        if ack {
            self.acknowledge(out).unwrap();
        }
    }

    // Keeps the items for which there is room, and returns how many they are.
    fn take(&mut self, arrival: &NewItems<'_>) -> u16
        ensures count { result ≡ length (taken self.old (items_in arrival.now.end arrival.now.bytes.now)) }
        ensures state { self.new ≡ taking wire self.old (items_in arrival.now.end arrival.now.bytes.now) }
    {
        let count = keep(&mut self.unread, arrival);
        self.received = number_after(self.received, count as u32);
        count
    }

    // Closes this end, which sends nothing from then on.
    pub(crate) fn shut(&mut self)
        ensures { self.new ≡ shut wire self.old }
    {
        self.phase = Phase::Closed;
        self.outgoing.clear();
        self.outgoing.set_resetting(false);
    }
}
