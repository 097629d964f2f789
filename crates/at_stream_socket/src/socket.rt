//! The socket of a node for streams, with its table of ends, and how steps and refusals of ends are reported.
ghost use Rattle.std.specs.Prelude.{◌≡◌, ◌<◌, Some, false, length, slice_get, IfSome};
ghost use Rattle.std.specs.List.{AllByRecursion, list_any};
ghost use Rattle.at_adsp_end.specs.Ends.{FitsRooms};
ghost use Rattle.at_adsp_end.specs.Fault.{number_of};
ghost use Rattle.at_adsp_ends.specs.Calls.{heeding};
ghost use Rattle.at_adsp_ends.specs.Tables.{AreEnds, AreRooms, has_remote_at, next_id, no_ends};
ghost use Rattle.at_event.specs.Outcomes.{refused_as};
ghost use Rattle.at_event.specs.Services.{is_asked};
ghost use Rattle.at_stream_socket.specs.Sockets.{told_by};

use at_adsp_ends::{EndChange, Ends, Rooms, StreamFault, Tick};
use at_event::{Report, StreamReport};
use std::alloc::{Allocator, Global};
use std::marker::Model;

/// The socket of a node for streams.
pub const STREAM_SOCKET: u8 = 130;

/// The socket of a node for streams, with all its ends.
#[derive(Drop)]
pub struct StreamSocket<A: Allocator = Global> {
    pub(crate) alloc: A,
    pub(crate) ends: Ends<A>,
}

impl<A: Allocator> Model for StreamSocket<A> {
    ghost use Rattle.at_adsp_ends.specs.Tables.{EndTable};

    ghost Value = { EndTable };

    ghost view = { λ s. s.ends };
}

impl<A: Allocator + Copy> StreamSocket<A> {
    /// A socket without ends, where nobody listens. The rooms of its ends hold 1 to 65,535 items each.
    pub fn new(alloc: A, rooms: Rooms) -> StreamSocket<A>
        requires { AreRooms rooms }
        ensures { result ≡ no_ends rooms }
    {
        StreamSocket {
            alloc,
            ends: Ends::new(alloc, rooms),
        }
    }

    /// There are at most 16 ends, whose queues fit their rooms. The body only visits them.
    pub fn limits(&self)
        ensures ends { AreEnds self.now }
        ensures queues { AllByRecursion FitsRooms self.now.ends }
    {
        self.ends.limits();
    }

    /// The identifier that the next end will get; none if there are 16. This needs no memory.
    pub fn next_id(&self) -> Option<u16>
        ensures { result ≡ next_id self.now }
    {
        self.ends.next_id()
    }

    /// How many ends there are.
    pub fn end_count(&self) -> usize
        ensures { result ≡ length self.now.ends }
    {
        self.ends.end_count()
    }

    /// The identifier of the end at a place, if this tick would do anything there. The end that was made first has
    /// place 0.
    pub fn heeding_at(&self, place: usize, tick: Tick) -> Option<u16>
        requires { place < length self.now.ends }
        ensures { IfSome (slice_get self.now.ends place) (λ e. result ≡ heeding tick e) }
    {
        self.ends.heeding_at(place, tick)
    }

    /// Whether an end is connected to one with this identifier at a node with this number, or is about to be.
    pub fn holds_number(&self, node: u8, id: u16) -> bool
        ensures { result ≡ list_any (has_remote_at node id) self.now.ends }
    {
        self.ends.holds_number(node, id)
    }
}

// The report of a step.
pub(crate) fn told_by<A: Allocator>(step: EndChange) -> Report<A>
    ensures report { result ≡ told_by step }
    ensures not_asked { is_asked result ≡ false }
{
    match step {
        EndChange::Ignored => Report::Ignored,
        EndChange::Made(id) => Report::Streams(StreamReport::Made(id)),
        EndChange::Opened(id) => Report::Streams(StreamReport::Opened(id)),
        EndChange::Turned => Report::Streams(StreamReport::Turned),
        EndChange::Denied(id) => Report::Streams(StreamReport::Denied(id)),
        EndChange::Again => Report::Again,
        EndChange::Idle => Report::Streams(StreamReport::Idle),
        EndChange::Heard { id, items } => Report::Streams(StreamReport::Heard { id, items }),
        EndChange::Dropped(id) => Report::Streams(StreamReport::Dropped(id)),
        EndChange::Closed(id) => Report::Streams(StreamReport::Closed(id)),
        EndChange::Freed(id) => Report::Streams(StreamReport::Freed(id)),
    }
}

// The report of a refused call.
pub(crate) fn refused_by<A: Allocator>(fault: StreamFault) -> Report<A>
    ensures { result ≡ refused_as (number_of fault) }
{
    match fault.number() {
        Some(number) => Report::Refused(number),
        None => Report::NoMemory,
    }
}
