//! The opening of an end.
ghost use Rattle.std.specs.Prelude.{◌≡◌, ◌∷◌, [], IfOk, OnErr, IsOk};
ghost use Rattle.at_ddp.specs.Sending.{Sends};
ghost use Rattle.at_adsp_end.specs.Ends.{confirming};
ghost use Rattle.at_adsp_end.specs.Loads.{HasRoomTo};
ghost use Rattle.at_adsp_end.specs.Moves.{IsOutcome, opened};
ghost use Rattle.at_adsp_end.specs.Positions.{wire};
ghost use Rattle.at_adsp_end.specs.Sending.{acks, hearing};

use crate::change::EndChange;
use crate::end::End;
use crate::load::Load;
use crate::phase::Phase;
use crate::remote::Remote;
use at_adsp_frame::{OPENING_LEN, Segment};
use at_ddp::Outbox;
use std::alloc::{AllocError, Allocator};

impl<A: Allocator> End<A> {
    /// Opens this end, which asked for the connection. The error is out of memory.
    pub fn open(
        &mut self,
        remote: Remote,
        segment: &Segment<'_>,
        out: &mut Outbox<A>,
    ) -> Result<EndChange, AllocError>
        ensures ok { IfOk result (λ step. let e = record self.old { remote = Some remote; phase = Phase.Open } in
            IsOutcome (opened e (confirming wire e ∷ [])
            (hearing wire e segment.now.window (acks wire e.sender segment.now.next)))
            self.old.asked step self.new out.old out.new) }
        ensures unchanged { OnErr result (self.new ≡ self.old) }
        ensures nothing_sent { OnErr result (Sends out.old out.new []) }
        ensures memory { HasRoomTo out.old self.old.asked
            (let e = record self.old { remote = Some remote; phase = Phase.Open } in
            (opened e (confirming wire e ∷ []) (hearing wire e segment.now.window
            (acks wire e.sender segment.now.next))).sent) → IsOk result }
    {
        let advance = self.advance_of(segment);
        self.make_room(advance, Load::of_one(OPENING_LEN as u16), out)?;
        self.remote = Some(remote);
        self.phase = Phase::Open;
        self.confirm(out).unwrap();
        self.note_acknowledgement(advance, out);
        Ok(EndChange::Opened(self.id))
    }

    /// Opens this end, which was asked for the connection. The error is out of memory.
    pub fn open_half(
        &mut self,
        segment: &Segment<'_>,
        out: &mut Outbox<A>,
    ) -> Result<EndChange, AllocError>
        ensures ok { IfOk result (λ step. let e = record self.old { phase = Phase.Open } in
            IsOutcome (opened e [] (hearing wire e segment.now.window (acks wire e.sender segment.now.next)))
            self.old.asked step self.new out.old out.new) }
        ensures unchanged { OnErr result (self.new ≡ self.old) }
        ensures nothing_sent { OnErr result (Sends out.old out.new []) }
        ensures memory { HasRoomTo out.old self.old.asked
            (let e = record self.old { phase = Phase.Open } in (opened e [] (hearing wire e segment.now.window
            (acks wire e.sender segment.now.next))).sent) → IsOk result }
    {
        let advance = self.advance_of(segment);
        self.make_room(advance, Load::none(), out)?;
        self.phase = Phase::Open;
        self.note_acknowledgement(advance, out);
        Ok(EndChange::Opened(self.id))
    }
}
