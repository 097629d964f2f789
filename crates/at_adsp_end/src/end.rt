//! One end of a stream: its state, how it is made, and what is asked of it. The other files have what changes it.
ghost use Rattle.std.specs.Prelude.{◌≡◌, ◌&&◌, ◌||◌, not, IfOk};
ghost use Rattle.at_ddp.specs.Address.{same_address};
ghost use Rattle.at_adsp_end.specs.Calls.{heeds, is_last};
ghost use Rattle.at_adsp_end.specs.Ends.{FitsRooms, connector, half_end, has_opened, has_remote, is_closed};
ghost use Rattle.at_adsp_end.specs.Ends.{is_half, is_open, is_opening, open_end};

use crate::item::Item;
use crate::outgoing::Outgoing;
use crate::phase::Phase;
use crate::remote::Remote;
use crate::rooms::Rooms;
use crate::tick::Tick;
use at_ddp::Address;
use circular_buffer::HeapCircularBuffer;
use std::alloc::{AllocError, Allocator, Global};
use std::marker::Model;

/// How many probe ticks close an end.
pub(crate) const PROBES: u8 = 4;

/// One end of a stream. It takes the memory for its queues as it is made.
#[derive(Drop)]
pub struct End<A: Allocator = Global> {
    pub(crate) id: u16,
    pub(crate) listener: bool,
    pub(crate) asked: Address,
    pub(crate) remote: Option<Remote>,
    pub(crate) phase: Phase,
    pub(crate) outgoing: Outgoing<A>,
    pub(crate) received: u32,
    pub(crate) unread: HeapCircularBuffer<Item, A>,
    pub(crate) ticks: u8,
}

impl<A: Allocator> Model for End<A> {
    ghost use Rattle.at_adsp_end.specs.Ends.{EndState};
    ghost use Rattle.std.specs.Prelude.{◌<◌};

    ghost Value = { EndState };

    ghost view = { λ e. record {
      id = e.id;
      listener = e.listener;
      asked = e.asked;
      remote = e.remote;
      phase = e.phase;
      sender = e.outgoing.sender;
      receiver = record { received = e.received; unread = e.unread.items };
      ticks = e.ticks;
      receive_room = e.unread.capacity;
      send_room = e.outgoing.room;
    } };

    ghost invariant = { λ e. e.unread.capacity < 65536 };
}

impl<A: Allocator + Copy> End<A> {
    /// An end that asks this address for a connection. The error is out of memory.
    pub fn connector(alloc: A, rooms: Rooms, id: u16, to: Address) -> Result<End<A>, AllocError>
        ensures { IfOk result (λ e. e ≡ connector rooms id to) }
    {
        Ok(End {
            id,
            listener: false,
            asked: to,
            remote: None,
            phase: Phase::Opening,
            outgoing: Outgoing::new(alloc, rooms.send)?,
            received: 0,
            unread: HeapCircularBuffer::with_capacity(alloc, rooms.receive as usize)?,
            ticks: 0,
        })
    }

    /// An end that answers the request of this one. The error is out of memory.
    pub fn half(alloc: A, rooms: Rooms, id: u16, from: Remote) -> Result<End<A>, AllocError>
        ensures { IfOk result (λ e. e ≡ half_end rooms id from) }
    {
        Ok(End {
            id,
            listener: true,
            asked: from.address,
            remote: Some(from),
            phase: Phase::Half,
            outgoing: Outgoing::new(alloc, rooms.send)?,
            received: 0,
            unread: HeapCircularBuffer::with_capacity(alloc, rooms.receive as usize)?,
            ticks: 0,
        })
    }

    /// An end that is open to this one, and whose next item has this number in both directions. The error is out of
    /// memory.
    pub fn open_at(
        alloc: A,
        rooms: Rooms,
        id: u16,
        remote: Remote,
        number: u32,
    ) -> Result<End<A>, AllocError>
        ensures { IfOk result (λ e. e ≡ open_end rooms id remote number) }
    {
        let mut outgoing = Outgoing::new(alloc, rooms.send)?;
        outgoing.set_front(number);
        Ok(End {
            id,
            listener: false,
            asked: remote.address,
            remote: Some(remote),
            phase: Phase::Open,
            outgoing,
            received: number,
            unread: HeapCircularBuffer::with_capacity(alloc, rooms.receive as usize)?,
            ticks: 0,
        })
    }
}

impl<A: Allocator> End<A> {
    /// Its queues fit their rooms. The body only visits the parts.
    pub fn limits(&self)
        ensures { FitsRooms self.now }
    {
        self.unread.capacity();
        self.outgoing.places();
    }

    /// Its connection identifier.
    pub fn id(&self) -> u16
        ensures { result ≡ self.now.id }
    {
        self.id
    }

    /// The end that it is connected to, or is about to be.
    pub fn remote(&self) -> Option<Remote>
        ensures { result ≡ self.now.remote }
    {
        self.remote
    }

    /// Whether it is connected to this end, or is about to be.
    pub fn has_remote(&self, remote: Remote) -> bool
        ensures { result ≡ has_remote remote self.now }
    {
        match &self.remote {
            None => false,
            Some(known) => remote.address == known.address && remote.id == known.id,
        }
    }

    pub fn is_open(&self) -> bool
        ensures { result ≡ is_open self.now.phase }
    {
        matches!(self.phase, Phase::Open)
    }

    pub fn is_closed(&self) -> bool
        ensures { result ≡ is_closed self.now.phase }
    {
        matches!(self.phase, Phase::Closed)
    }

    /// Whether it is open, or was.
    pub fn has_opened(&self) -> bool
        ensures { result ≡ has_opened self.now.phase }
    {
        matches!(self.phase, Phase::Open | Phase::Closed)
    }

    /// Whether it waits for the answer of this address.
    pub fn asks(&self, address: Address) -> bool
        ensures { result ≡ (is_opening self.now.phase && same_address self.now.asked address) }
    {
        matches!(self.phase, Phase::Opening) && self.asked == address
    }

    /// Whether it answered this end, and waits for its acknowledgement.
    pub fn waits_for(&self, remote: Remote) -> bool
        ensures { result ≡ (is_half self.now.phase && has_remote remote self.now) }
    {
        matches!(self.phase, Phase::Half) && self.has_remote(remote)
    }

    /// Whether it answers its request again.
    pub fn answers_again(&self) -> bool
        ensures { result ≡ (self.now.listener && (is_half self.now.phase || is_open self.now.phase)) }
    {
        self.listener && matches!(self.phase, Phase::Half | Phase::Open)
    }

    /// Whether it acknowledges the answer of this end again.
    pub fn confirms_again(&self, remote: Remote) -> bool
        ensures { result ≡ (is_open self.now.phase && not self.now.listener && has_remote remote self.now) }
    {
        matches!(self.phase, Phase::Open) && !self.listener && self.has_remote(remote)
    }

    /// Whether this tick would do anything.
    pub fn heeds(&self, tick: Tick) -> bool
        ensures { result ≡ heeds self.now tick }
    {
        match tick {
            Tick::Probe => !self.is_closed(),
            Tick::Retransmit => match self.phase {
                Phase::Opening | Phase::Half => true,
                Phase::Open => self.outgoing.is_resetting() || self.outgoing.sent() > 0,
                Phase::Closed => false,
            },
        }
    }

    /// Whether this tick is the fourth probe tick without a segment from the other end. On the fourth probe tick an
    /// open end closes; one that never opened is freed by its table.
    pub fn is_last(&self, tick: Tick) -> bool
        ensures { result ≡ is_last self.now tick }
    {
        match tick {
            Tick::Retransmit => false,
            Tick::Probe => self.ticks >= PROBES - 1,
        }
    }
}
