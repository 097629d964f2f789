//! The calls and the timers of the socket for streams.
ghost use Rattle.std.specs.Prelude.{List};
ghost use Rattle.at_ddp.specs.Outbox.{Posted};
ghost use Rattle.at_event.specs.Outcomes.{IsStep};
ghost use Rattle.at_stream_socket.specs.Calls.{close_called, connect_called, listen_called, reset_called, tick_fired};
ghost use Rattle.at_stream_socket.specs.Calls.{write_called};

use crate::socket::{STREAM_SOCKET, StreamSocket, refused_by, told_by};
use at_adsp_ends::{Item, Tick};
use at_ddp::{ADSP, Address, Outbox};
use at_event::{Report, Seat, StreamReport};
use std::alloc::Allocator;

impl<A: Allocator + Copy> StreamSocket<A> {
    /// Sets whether requests for connections are answered. This needs no memory.
    pub fn listen(&mut self, on: bool) -> Report<A>
        ensures { (sent : List Posted) → IsStep (listen_called self.old on) self.old sent result self.new sent }
    {
        self.ends.listen(on);
        Report::Streams(StreamReport::ListenSet)
    }

    /// Asks an address for a connection.
    pub fn connect(&mut self, seat: Seat, to: Address, out: &mut Outbox<A>) -> Report<A>
        ensures { IsStep (connect_called seat self.old to) self.old out.old.items result self.new out.new.items }
    {
        out.send_from(seat.at(STREAM_SOCKET), ADSP);
        match self.ends.connect(to, out) {
            Ok(id) => Report::Streams(StreamReport::Opening(id)),
            Err(fault) => refused_by(fault),
        }
    }

    /// Closes an open end, and frees any other.
    pub fn close(&mut self, seat: Seat, id: u16, out: &mut Outbox<A>) -> Report<A>
        ensures { IsStep (close_called seat self.old id) self.old out.old.items result self.new out.new.items }
    {
        out.send_from(seat.at(STREAM_SOCKET), ADSP);
        match self.ends.close(id, out) {
            Ok(step) => told_by(step),
            Err(fault) => refused_by(fault),
        }
    }

    /// Writes items to an open end.
    pub fn write(&mut self, seat: Seat, id: u16, items: &[Item], out: &mut Outbox<A>) -> Report<A>
        ensures { IsStep (write_called seat self.old id items.now) self.old out.old.items result self.new
            out.new.items }
    {
        out.send_from(seat.at(STREAM_SOCKET), ADSP);
        match self.ends.write(id, items, out) {
            Ok(count) => Report::Streams(StreamReport::Wrote(count)),
            Err(fault) => refused_by(fault),
        }
    }

    /// Drops all that an open end has queued for sending, and sends a forward reset.
    pub fn reset(&mut self, seat: Seat, id: u16, out: &mut Outbox<A>) -> Report<A>
        ensures { IsStep (reset_called seat self.old id) self.old out.old.items result self.new out.new.items }
    {
        out.send_from(seat.at(STREAM_SOCKET), ADSP);
        match self.ends.reset(id, out) {
            Ok(()) => Report::Streams(StreamReport::Reset),
            Err(fault) => refused_by(fault),
        }
    }

    /// Takes a tick of a timer of an end.
    pub fn tick(&mut self, seat: Seat, id: u16, tick: Tick, out: &mut Outbox<A>) -> Report<A>
        ensures { IsStep (tick_fired seat self.old id tick) self.old out.old.items result self.new out.new.items }
    {
        out.send_from(seat.at(STREAM_SOCKET), ADSP);
        match self.ends.tick(id, tick, out) {
            Ok(step) => told_by(step),
            Err(fault) => refused_by(fault),
        }
    }
}
