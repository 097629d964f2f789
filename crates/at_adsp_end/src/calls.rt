//! The calls and the timers of an end.
ghost use Rattle.std.specs.Prelude.{◌≡◌, ◌≢◌, ◌++◌, [], length, take, drop, IfOk, OnErr, OnOk, IsOk};
ghost use Rattle.at_ddp.specs.Sending.{Sends};
ghost use Rattle.at_adsp_end.specs.Calls.{probes, read_opens, reading, ticked, writing};
ghost use Rattle.at_adsp_end.specs.Ends.{SendsTo, places};
ghost use Rattle.at_adsp_end.specs.Loads.{HasRoomTo};
ghost use Rattle.at_adsp_end.specs.Moves.{IsChange, IsOutcome, closed};
ghost use Rattle.at_adsp_end.specs.Positions.{wire};
ghost use Rattle.at_adsp_end.specs.Sending.{closing, resetting_now};

use crate::change::EndChange;
use crate::end::{End, PROBES};
use crate::item::Item;
use crate::load::Load;
use crate::phase::Phase;
use crate::tick::Tick;
use at_adsp_frame::Body;
use at_ddp::Outbox;
use std::alloc::{AllocError, Allocator};

impl<A: Allocator> End<A> {
    /// Closes this open end, and sends a close advice. The error is out of memory.
    pub fn close(&mut self, out: &mut Outbox<A>) -> Result<EndChange, AllocError>
        ensures ok { IfOk result (λ step. IsOutcome (closed self.old (closing wire self.old)) self.old.asked step
            self.new out.old out.new) }
        ensures unchanged { OnErr result (self.new ≡ self.old) }
        ensures nothing_sent { OnErr result (Sends out.old out.new []) }
        ensures memory { HasRoomTo out.old self.old.asked (closed self.old (closing wire self.old)).sent → IsOk result }
    {
        self.send_control(false, Body::Close, out)?;
        self.shut();
        Ok(EndChange::Closed(self.id))
    }

    /// Drops all that this open end has queued, and sends a forward reset. The error is out of memory.
    pub fn reset(&mut self, out: &mut Outbox<A>) -> Result<(), AllocError>
        ensures ok { OnOk result (IsChange (resetting_now wire self.old) self.old.asked self.new out.old out.new) }
        ensures unchanged { OnErr result (self.new ≡ self.old) }
        ensures nothing_sent { OnErr result (Sends out.old out.new []) }
        ensures memory { HasRoomTo out.old self.old.asked (resetting_now wire self.old).sent → IsOk result }
    {
        self.send_control(false, Body::Reset, out)?;
        self.outgoing.clear();
        self.outgoing.set_resetting(true);
        Ok(())
    }

    /// Takes a tick of a timer of this end, which is not closed. On the fourth probe tick an open end closes; one that
    /// never opened is freed by its table. The error is out of memory.
    pub fn tick(&mut self, tick: Tick, out: &mut Outbox<A>) -> Result<EndChange, AllocError>
        requires { self.old.phase ≢ Phase.Closed }
        ensures ok { IfOk result (λ step. IsOutcome (ticked wire self.old tick) self.old.asked step self.new out.old
            out.new) }
        ensures unchanged { OnErr result (self.new ≡ self.old) }
        ensures nothing_sent { OnErr result (Sends out.old out.new []) }
        ensures memory { HasRoomTo out.old self.old.asked (ticked wire self.old tick).sent → IsOk result }
    {
        match tick {
            Tick::Retransmit => self.resend(out),
            Tick::Probe => self.probe(out),
        }
    }

    fn resend(&self, out: &mut Outbox<A>) -> Result<EndChange, AllocError>
        requires { self.now.phase ≢ Phase.Closed }
        ensures ok { IfOk result (λ step. IsOutcome (ticked wire self.now Tick.Retransmit) self.now.asked step self.now
            out.old out.new) }
        ensures nothing_sent { OnErr result (Sends out.old out.new []) }
        ensures memory { HasRoomTo out.old self.now.asked (ticked wire self.now Tick.Retransmit).sent → IsOk result }
    {
        match self.phase {
            Phase::Opening => self.ask(out)?,
            Phase::Half => self.answer(out)?,
            _ => return self.resend_open(out),
        }
        Ok(EndChange::Again)
    }

    fn resend_open(&self, out: &mut Outbox<A>) -> Result<EndChange, AllocError>
        requires { self.now.phase ≡ Phase.Open }
        ensures ok { IfOk result (λ step. IsOutcome (ticked wire self.now Tick.Retransmit) self.now.asked step self.now
            out.old out.new) }
        ensures nothing_sent { OnErr result (Sends out.old out.new []) }
        ensures memory { HasRoomTo out.old self.now.asked (ticked wire self.now Tick.Retransmit).sent → IsOk result }
    {
        if self.outgoing.is_resetting() {
            self.send_control(false, Body::Reset, out)?;
            return Ok(EndChange::Again);
        }
        let sent = self.outgoing.sent();
        if sent == 0 {
            return Ok(EndChange::Idle);
        }
        self.count_segments(0, sent).room(out)?;
        self.send_again(out);
        Ok(EndChange::Again)
    }

    fn probe(&mut self, out: &mut Outbox<A>) -> Result<EndChange, AllocError>
        ensures ok { IfOk result (λ step. IsOutcome (ticked wire self.old Tick.Probe) self.old.asked step self.new
            out.old out.new) }
        ensures unchanged { OnErr result (self.new ≡ self.old) }
        ensures nothing_sent { OnErr result (Sends out.old out.new []) }
        ensures memory { HasRoomTo out.old self.old.asked (ticked wire self.old Tick.Probe).sent → IsOk result }
    {
        if self.is_last(Tick::Probe) {
            self.ticks = PROBES;
            self.shut();
            return Ok(EndChange::Closed(self.id));
        }
        self.send_probe(out)?;
        self.ticks += 1;
        Ok(EndChange::Again)
    }

    fn send_probe(&self, out: &mut Outbox<A>) -> Result<(), AllocError>
        ensures ok { OnOk result (SendsTo out.old out.new self.now.asked (probes wire self.now self.now.phase)) }
        ensures nothing_sent { OnErr result (Sends out.old out.new []) }
        ensures memory { HasRoomTo out.old self.now.asked (probes wire self.now self.now.phase) → IsOk result }
    {
        match self.phase {
            Phase::Opening => self.ask(out),
            Phase::Half => self.answer(out),
            Phase::Open => self.send_control(true, Body::Probe, out),
            Phase::Closed => Ok(()),
        }
    }

    /// Reads as many items as there are, and as fit, and returns how many. An open end whose receive room was full
    /// sends an acknowledgement. The error is out of memory.
    pub fn read(&mut self, items: &mut [Item], out: &mut Outbox<A>) -> Result<usize, AllocError>
        ensures count { IfOk result (λ count. count ≡ length (take (length items.old) self.old.receiver.unread)) }
        ensures items { OnOk result (items.new ≡ take (length items.old) self.old.receiver.unread
            ++ drop (length self.old.receiver.unread) items.old) }
        ensures ok { OnOk result (IsChange (reading wire self.old (length items.old)) self.old.asked self.new out.old
            out.new) }
        ensures unchanged { OnErr result (self.new ≡ self.old) }
        ensures unread { OnErr result (items.new ≡ items.old) }
        ensures nothing_sent { OnErr result (Sends out.old out.new []) }
        ensures memory { HasRoomTo out.old self.old.asked (reading wire self.old (length items.old)).sent
            → IsOk result }
    {
        if !self.reading_opens(items.len()) {
            return Ok(self.unread.read_into(items));
        }
        Load::of_one(0).room(out)?;
        let count = self.unread.read_into(items);
        self.acknowledge(out).unwrap();
        Ok(count)
    }

    /// How many items can be read.
    pub fn unread(&self) -> usize
        ensures { result ≡ length self.now.receiver.unread }
    {
        self.unread.len()
    }

    // Whether the end can take nothing, and can once so many items are read.
    fn reading_opens(&self, count: usize) -> bool
        ensures { result ≡ read_opens self.now count }
    {
        let left = self.unread.len().saturating_sub(count);
        let free = self.unread.capacity() - left;
        self.is_open() && self.free() == 0 && free != 0
    }

    /// How many more items can be written.
    pub fn places(&self) -> usize
        ensures { result ≡ places self.now }
    {
        self.outgoing.places()
    }

    /// Writes the items for which there is room, sends what may go, and returns how many were written. The error is out
    /// of memory.
    pub fn write(&mut self, items: &[Item], out: &mut Outbox<A>) -> Result<usize, AllocError>
        ensures count { IfOk result (λ count. count ≡ length (take (places self.old) items.now)) }
        ensures ok { OnOk result (IsChange (writing wire self.old items.now) self.old.asked self.new out.old out.new) }
        ensures unchanged { OnErr result (self.new ≡ self.old) }
        ensures nothing_sent { OnErr result (Sends out.old out.new []) }
        ensures memory { HasRoomTo out.old self.old.asked (writing wire self.old items.now).sent → IsOk result }
    {
        let count = self.outgoing.append(items);
        let going = self.outgoing.count_going();
        let load = self.count_segments(self.outgoing.sent(), going);
        match load.room(out) {
            Ok(()) => {
                self.send_on(out);
                Ok(count)
            }
            Err(error) => {
                self.outgoing.take_back(count);
                Err(error)
            }
        }
    }
}
