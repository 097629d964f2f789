//! Acknowledgements, and what is sent because of them.
ghost use Rattle.std.specs.Prelude.{◌≡◌, ◌+◌, ◌*◌, ◌<◌, List, ◌++◌, [], length, take, OnOk, IsOk};
ghost use Rattle.at_ddp.specs.Sending.{Sends};
ghost use Rattle.at_adsp_frame.specs.Segments.{Content};
ghost use Rattle.at_adsp_end.specs.Ends.{SendsTo};
ghost use Rattle.at_adsp_end.specs.Loads.{HasRoomTo, IsLoad, LeavesRoom};
ghost use Rattle.at_adsp_end.specs.Moves.{IsChange};
ghost use Rattle.at_adsp_end.specs.Outgoings.{IsWithin, credit_after, going_after};
ghost use Rattle.at_adsp_end.specs.Positions.{wire};
ghost use Rattle.at_adsp_end.specs.Sending.{acks, hearing, repeated, sending};

use crate::end::End;
use crate::load::Load;
use at_adsp_frame::Segment;
use at_ddp::Outbox;
use std::alloc::{AllocError, Allocator};

// How many items a segment acknowledges, and how many more its sender has room for.
#[derive(Clone, Copy)]
pub(crate) struct Advance {
    pub(crate) acks: Option<u16>,
    pub(crate) window: u16,
}

impl<A: Allocator> End<A> {
    pub(crate) fn advance_of(&self, segment: &Segment<'_>) -> Advance
        ensures acks { result.acks ≡ acks wire self.now.sender segment.now.next }
        ensures window { result.window ≡ segment.now.window }
        ensures within { IsWithin self.now.sender result.acks }
    {
        Advance {
            acks: self.outgoing.acks(segment.next),
            window: segment.window,
        }
    }

    // How many items go once a segment is heard.
    pub(crate) fn count_going_after(&self, advance: Advance) -> u16
        requires { IsWithin self.now.sender advance.acks }
        ensures count { result ≡ length (going_after self.now.sender advance.window advance.acks) }
        ensures within { length self.now.sender.unacknowledged + result < 65536 }
    {
        let credit = match advance.acks {
            Some(k) if !self.outgoing.is_resetting() => self
                .outgoing
                .credit_with(k, advance.window),
            _ => 0,
        };
        self.outgoing.count_waiting(credit)
    }

    // How many items go once a segment is heard that answers a forward reset.
    pub(crate) fn count_unreset(&self, advance: Advance) -> u16
        requires { IsWithin self.now.sender advance.acks }
        ensures { result ≡ length (take (credit_after self.now.sender advance.window advance.acks)
            self.now.sender.waiting) }
    {
        match advance.acks {
            None => self.outgoing.count_waiting(self.outgoing.credit()),
            Some(k) => self
                .outgoing
                .count_waiting(self.outgoing.credit_with(k, advance.window)),
        }
    }

    // Makes room for the segments that go once a segment is heard, and for more packets.
    pub(crate) fn make_room(
        &self,
        advance: Advance,
        more: Load,
        out: &mut Outbox<A>,
    ) -> Result<(), AllocError>
        requires within { IsWithin self.now.sender advance.acks }
        requires few { more.packets < 65536 }
        requires small { more.bytes < 14 * 65536 }
        ensures ok { OnOk result ((later : List Content) → IsLoad more self.now.asked later → HasRoomTo out.new
            self.now.asked ((hearing wire self.now advance.window advance.acks).sent ++ later)) }
        ensures stays { Sends out.old out.new [] }
        ensures succeeds { (later : List Content) → IsLoad more self.now.asked later → HasRoomTo out.old self.now.asked
            ((hearing wire self.now advance.window advance.acks).sent ++ later) → IsOk result }
    {
        let going = self.count_going_after(advance);
        let load = self.count_segments(self.outgoing.sent(), going);
        load.plus(more).room(out)
    }

    // Sends all that may go.
    pub(crate) fn send_on(&mut self, out: &mut Outbox<A>)
        requires { HasRoomTo out.old self.old.asked (sending wire self.old).sent }
        ensures change { IsChange (sending wire self.old) self.old.asked self.new out.old out.new }
        ensures room { LeavesRoom out.old out.new self.old.asked (sending wire self.old).sent }
    {
        let going = self.outgoing.count_going();
        let first = self.outgoing.next_unsent();
        self.send_items(first, self.outgoing.sent(), going, out);
        self.outgoing.advance();
    }

    // Sets the count of probe ticks back, and takes what the other end acknowledges.
    pub(crate) fn note_acknowledgement(&mut self, advance: Advance, out: &mut Outbox<A>)
        requires within { IsWithin self.old.sender advance.acks }
        requires room { HasRoomTo out.old self.old.asked (hearing wire self.old advance.window advance.acks).sent }
        ensures change { IsChange (hearing wire self.old advance.window advance.acks) self.old.asked self.new out.old
            out.new }
        ensures room { LeavesRoom out.old out.new self.old.asked
            (hearing wire self.old advance.window advance.acks).sent }
    {
        self.ticks = 0;
        if let Some(k) = advance.acks {
            self.outgoing.acknowledge(k, advance.window);
            self.send_on(out);
        }
    }

    // Sends all that was sent and is not acknowledged.
    pub(crate) fn send_again(&self, out: &mut Outbox<A>)
        requires { HasRoomTo out.old self.now.asked (repeated wire self.now) }
        ensures { SendsTo out.old out.new self.now.asked (repeated wire self.now) }
    {
        let first = self.outgoing.front();
        self.send_items(first, 0, self.outgoing.sent(), out);
    }
}
