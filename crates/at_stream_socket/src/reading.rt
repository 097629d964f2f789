//! Reading from an end.
ghost use Rattle.std.specs.Prelude.{◌≡◌, ℕ, Ok};
ghost use Rattle.at_adsp_ends.specs.Calls.{unread_at};
ghost use Rattle.at_adsp_ends.specs.Tables.{by_id};
ghost use Rattle.at_event.specs.Outcomes.{IsStep};
ghost use Rattle.at_stream_socket.specs.Calls.{read_called};

use crate::socket::{STREAM_SOCKET, StreamSocket, refused_by};
use at_adsp_ends::Item;
use at_ddp::{ADSP, Listed, Outbox};
use at_event::{Report, Seat, StreamReport};
use std::alloc::Allocator;

impl<A: Allocator + Copy> StreamSocket<A> {
    /// Reads items of an end that is open or was, at most so many.
    pub fn read(&mut self, seat: Seat, id: u16, count: u16, out: &mut Outbox<A>) -> Report<A>
        ensures { IsStep (read_called seat self.old id count) self.old out.old.items result self.new out.new.items }
    {
        match self.ends.unread(id) {
            Ok(unread) => self.read_some(seat, id, (count as usize).min(unread), out),
            Err(fault) => refused_by(fault),
        }
    }

    // Reads so many items. No more can be read than there are.
    fn read_some(&mut self, seat: Seat, id: u16, count: usize, out: &mut Outbox<A>) -> Report<A>
        requires { (unread : ℕ) × (unread_at (by_id self.old id) ≡ Ok unread) }
        ensures { IsStep (read_called seat self.old id count) self.old out.old.items result self.new out.new.items }
    {
        let mut items = Vec::new(self.alloc);
        let Ok(()) = items.resize(count, Item::End) else {
            return Report::NoMemory;
        };
        out.send_from(seat.at(STREAM_SOCKET), ADSP);
        match self.ends.read(id, &mut items, out) {
            Ok(count) => {
                items.truncate(count);
                Report::Streams(StreamReport::Read(Listed::from_vec(items)))
            }
            Err(fault) => refused_by(fault),
        }
    }
}
