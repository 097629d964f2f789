//! The calls and the timers.
ghost use Rattle.std.specs.Prelude.{◌≡◌, ◌≤◌, length, drop, IfOk, IsOk, OnErr};
ghost use Rattle.at_ddp.specs.Sending.{HasRoomToSend};
ghost use Rattle.at_adsp_end.specs.Ends.{spelled_all};
ghost use Rattle.at_adsp_end.specs.Positions.{wire};
ghost use Rattle.at_adsp_ends.specs.Calls.{closed_at, connected, finds_no_room, frees, read_at, reset_at, ticked_at};
ghost use Rattle.at_adsp_ends.specs.Calls.{wrote};
ghost use Rattle.at_adsp_ends.specs.Moves.{IsCalled, read_of};
ghost use Rattle.at_adsp_ends.specs.Tables.{by_id, next_id};

use crate::ends::{Ends, MAX_ENDS};
use crate::identifiers::following;
use crate::standing::index_of;
use at_adsp_end::{End, EndChange, Item, StreamFault, Tick};
use at_ddp::{Address, Outbox};
use std::alloc::{AllocError, Allocator};

impl<A: Allocator + Copy> Ends<A> {
    /// Asks this address for a connection, and returns the identifier of the end that does so.
    pub fn connect(&mut self, to: Address, out: &mut Outbox<A>) -> Result<u16, StreamFault>
        ensures { IsCalled (connected self.old to (next_id self.old)) result self.old self.new out.old out.new }
    {
        let Some(id) = self.next_id() else {
            return Err(StreamFault::EndsFull);
        };
        let end = End::connector(self.alloc, self.rooms, id, to)?;
        self.ends.reserve()?;
        self.remotes.reserve(MAX_ENDS)?;
        end.ask(out)?;
        self.ends.push(id, end);
        self.next = following(id);
        Ok(id)
    }

    /// Closes an open end, and frees any other, which needs no memory.
    pub fn close(&mut self, id: u16, out: &mut Outbox<A>) -> Result<EndChange, StreamFault>
        ensures call { IsCalled (closed_at wire self.old (by_id self.old id)) result self.old self.new out.old out.new }
        ensures frees { IfOk (closed_at wire self.old (by_id self.old id)) (λ d. d.answer ≡ EndChange.Freed id
            → IsOk result) }
        ensures memory { IfOk (closed_at wire self.old (by_id self.old id)) (λ d.
            HasRoomToSend out.old (spelled_all d.sent) → IsOk result) }
    {
        let Some(index) = index_of(&self.ends, id) else {
            return Err(StreamFault::NoSuchEnd);
        };
        let end = self.ends.at(index);
        if end.is_open() {
            let end = self.ends.at_mut(index);
            return or_memory(end.close(out));
        }
        self.remove_at(index);
        Ok(EndChange::Freed(id))
    }

    /// Takes a tick of a timer of an end that is not closed. The fourth probe tick without a word from the other end
    /// closes an open end, and frees one that never opened, which needs no memory.
    pub fn tick(
        &mut self,
        id: u16,
        tick: Tick,
        out: &mut Outbox<A>,
    ) -> Result<EndChange, StreamFault>
        ensures call { IsCalled (ticked_at wire self.old tick (by_id self.old id)) result self.old self.new out.old
            out.new }
        ensures frees { IfOk (ticked_at wire self.old tick (by_id self.old id)) (λ d. d.answer ≡ EndChange.Freed id
            → IsOk result) }
        ensures memory { IfOk (ticked_at wire self.old tick (by_id self.old id)) (λ d.
            HasRoomToSend out.old (spelled_all d.sent) → IsOk result) }
    {
        let Some(index) = index_of(&self.ends, id) else {
            return Err(StreamFault::NoSuchEnd);
        };
        let end = self.ends.at(index);
        if end.is_closed() {
            return Err(StreamFault::NotOpen);
        }
        if frees(end, tick) {
            self.remove_at(index);
            return Ok(EndChange::Freed(id));
        }
        let end = self.ends.at_mut(index);
        or_memory(end.tick(tick, out))
    }

    /// Reads items of an end that is open or was: as many as there are and fit. Returns how many. What follows
    /// them stays.
    pub fn read(
        &mut self,
        id: u16,
        items: &mut [Item],
        out: &mut Outbox<A>,
    ) -> Result<usize, StreamFault>
        ensures call { IsCalled (read_at wire self.old (length items.old) (by_id self.old id))
            (read_of result items.new) self.old self.new out.old out.new }
        ensures within { IfOk result (λ count. count ≤ length items.old) }
        ensures rest { IfOk result (λ count. drop count items.new ≡ drop count items.old) }
        ensures unread { OnErr result (items.new ≡ items.old) }
        ensures memory { IfOk (read_at wire self.old (length items.old) (by_id self.old id)) (λ d.
            HasRoomToSend out.old (spelled_all d.sent) → IsOk result) }
    {
        let Some(index) = index_of(&self.ends, id) else {
            return Err(StreamFault::NoSuchEnd);
        };
        let end = self.ends.at(index);
        if !end.has_opened() {
            return Err(StreamFault::NotOpen);
        }
        let end = self.ends.at_mut(index);
        or_memory(end.read(items, out))
    }

    /// Drops all that an open end has queued for sending, and sends a forward reset.
    pub fn reset(&mut self, id: u16, out: &mut Outbox<A>) -> Result<(), StreamFault>
        ensures call { IsCalled (reset_at wire self.old (by_id self.old id)) result self.old self.new out.old out.new }
        ensures memory { IfOk (reset_at wire self.old (by_id self.old id)) (λ d.
            HasRoomToSend out.old (spelled_all d.sent) → IsOk result) }
    {
        let Some(index) = index_of(&self.ends, id) else {
            return Err(StreamFault::NoSuchEnd);
        };
        let end = self.ends.at(index);
        if !end.is_open() {
            return Err(StreamFault::NotOpen);
        }
        let end = self.ends.at_mut(index);
        or_memory(end.reset(out))
    }

    /// Writes items to an open end: as many as fit in its send room. Returns how many.
    pub fn write(
        &mut self,
        id: u16,
        items: &[Item],
        out: &mut Outbox<A>,
    ) -> Result<usize, StreamFault>
        ensures call { IsCalled (wrote wire self.old items.now (by_id self.old id)) result self.old self.new out.old
            out.new }
        ensures memory { IfOk (wrote wire self.old items.now (by_id self.old id)) (λ d.
            HasRoomToSend out.old (spelled_all d.sent) → IsOk result) }
    {
        let Some(index) = index_of(&self.ends, id) else {
            return Err(StreamFault::NoSuchEnd);
        };
        let end = self.ends.at(index);
        if !end.is_open() {
            return Err(StreamFault::NotOpen);
        }
        if finds_no_room(end, items) {
            return Err(StreamFault::NoRoom);
        }
        let end = self.ends.at_mut(index);
        or_memory(end.write(items, out))
    }
}

// Whether this tick frees the end.
fn frees<A: Allocator>(end: &End<A>, tick: Tick) -> bool
    ensures { result ≡ frees end.now tick }
{
    end.is_last(tick) && !end.is_open()
}

// Whether something is to be written, and there is no place for it.
fn finds_no_room<A: Allocator>(end: &End<A>, items: &[Item]) -> bool
    ensures { result ≡ finds_no_room end.now items.now }
{
    match items {
        [] => false,
        [_, ..] => end.places() == 0,
    }
}

// What came of a call that only memory can refuse.
fn or_memory<T>(tried: Result<T, AllocError>) -> Result<T, StreamFault>
    ensures ok { IfOk tried (λ x. result ≡ Ok x) }
    ensures err { OnErr tried (result ≡ Err StreamFault.NoMemory) }
{
    match tried {
        Ok(x) => Ok(x),
        Err(AllocError) => Err(StreamFault::NoMemory),
    }
}
