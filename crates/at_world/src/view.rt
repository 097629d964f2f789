//! What can be seen of a world.
ghost use Rattle.std.specs.Prelude.{◌≡◌, ◌<◌, length, slice_get, Some};
ghost use Rattle.at_world.specs.Sents.{SentDatagram};

use crate::sent::Sent;
use crate::world::World;
use std::alloc::Allocator;

impl<A: Allocator + Copy> World<A> {
    /// How many events were played.
    pub fn played(&self) -> u32
        ensures { result ≡ self.now.events }
    {
        self.log.events
    }

    /// How many datagrams were sent.
    pub fn sent_count(&self) -> usize
        ensures { result ≡ length self.now.sent }
    {
        self.log.sent.len()
    }

    /// The datagram of a number. Datagrams are numbered from 0 in the order of sending.
    pub fn sent(&self, number: usize) -> Sent<'_>
        requires { number < length self.now.sent }
        ensures { (s : SentDatagram) × (slice_get self.now.sent number ≡ Some s) × (result.event ≡ s.event)
            × (result.to ≡ s.to) × (result.bytes.now ≡ s.bytes) }
    {
        self.log.sent.get(number)
    }
}
