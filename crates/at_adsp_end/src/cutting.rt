//! The cutting of items into segments.
ghost use Rattle.std.specs.Prelude.{◌≡◌, ℕ, ◌+◌, ◌*◌, ◌<◌, ◌≤◌, List, ◌∷◌, [], length, take, true};
ghost use Rattle.at_ddp.specs.declared.address.Address.{Address};
ghost use Rattle.at_adsp_frame.specs.Segments.{Data};
ghost use Rattle.at_adsp_end.specs.Cuts.{cut_now, items_in, numbered, pieces};
ghost use Rattle.at_adsp_end.specs.Ends.{EndState, SendsTo, packet};
ghost use Rattle.at_adsp_end.specs.Loads.{HasRoomTo, IsLoad, LeavesRoom};
ghost use Rattle.at_adsp_end.specs.Outgoings.{Counted, Cuts, queued, stretch};
ghost use Rattle.at_adsp_end.specs.Positions.{wire};

use crate::end::End;
use crate::item::Item;
use crate::load::Load;
use crate::positions::number_after;
use arrayvec::ArrayVec;
use at_adsp_frame::laws::what_is_written_is_a_header_and_fields;
use at_adsp_frame::{Body, HEADER_LEN, MAX_DATA};
use at_ddp::Outbox;
use std::alloc::Allocator;

// A segment that is being filled: the number of its first item, and its bytes so far.
#[derive(Drop)]
struct Cutting {
    first: u32,
    bytes: ArrayVec<u8, MAX_DATA>,
}

impl Cutting {
    fn at(first: u32) -> Cutting
        ensures first { result.first ≡ first }
        ensures bytes { result.bytes.items ≡ [] }
    {
        Cutting {
            first,
            bytes: ArrayVec::new(),
        }
    }

    // Sends what is there, perhaps with the end of a message behind it, and begins the next segment.
    fn send<A: Allocator>(&mut self, end: bool, by: &End<A>, out: &mut Outbox<A>)
        requires room { HasRoomTo out.old by.now.asked
            (packet by.now (wire.at self.old.first) true (Data end self.old.bytes.items) ∷ []) }
        ensures sent { SendsTo out.old out.new by.now.asked
            (packet by.now (wire.at self.old.first) true (Data end self.old.bytes.items) ∷ []) }
        ensures first { self.new.first ≡ wire.at (self.old.first + length (items_in end self.old.bytes.items)) }
        ensures bytes { self.new.bytes.items ≡ [] }
        ensures room { LeavesRoom out.old out.new by.now.asked
            (packet by.now (wire.at self.old.first) true (Data end self.old.bytes.items) ∷ []) }
    {
        let body = Body::Data {
            end,
            data_: self.bytes.as_slice(),
        };
        by.send(self.first, true, body, out).unwrap();
        let count = self.bytes.len() as u32 + u32::from(end);
        self.first = number_after(self.first, count);
        self.bytes.clear();
    }

    // Takes one more item.
    fn take<A: Allocator>(&mut self, item: Item, by: &End<A>, out: &mut Outbox<A>)
        requires room { HasRoomTo out.old by.now.asked (cut_now wire by.now self.old.first self.old.bytes.items item) }
        ensures { Cuts out.old out.new by.now self.old.first self.old.bytes.items item self.new.first
            self.new.bytes.items }
    {
        match item {
            Item::End => self.send(true, by, out),
            Item::Byte(byte) if self.bytes.is_full() => {
                self.send(false, by, out);
                self.bytes.push(byte);
            }
            Item::Byte(byte) => self.bytes.push(byte),
        }
    }
}

// How many segments are full or ended, how many bytes the next one has so far, and how many bytes all have.
#[derive(Clone, Copy)]
struct Counting {
    segments: u32,
    filled: usize,
    bytes: u32,
}

impl Counting {
    // Takes one more item.
    fn take(&mut self, item: Item)
        requires segments { self.old.segments < 65535 }
        requires filled { self.old.filled ≤ 572 }
        requires bytes { self.old.bytes < 65535 }
        ensures counted { (all xs : List Item)
            → Counted self.old.segments self.old.filled self.old.bytes all (item ∷ xs)
            → Counted self.new.segments self.new.filled self.new.bytes all xs }
        ensures filled { self.new.filled ≤ 572 }
        ensures bytes { self.new.bytes ≤ self.old.bytes + 1 }
    {
        match item {
            Item::End => {
                self.segments += 1;
                self.filled = 0;
            }
            Item::Byte(_) if self.filled == MAX_DATA => {
                self.segments += 1;
                self.filled = 1;
                self.bytes += 1;
            }
            Item::Byte(_) => {
                self.filled += 1;
                self.bytes += 1;
            }
        }
    }

    // All segments, with the one that is begun.
    fn total(&self) -> Load
        requires segments { self.now.segments ≤ 65535 }
        requires bytes { self.now.bytes ≤ 65535 }
        ensures some { 0 < self.now.filled → result.packets ≡ self.now.segments + 1 }
        ensures none { self.now.filled ≤ 0 → result.packets ≡ self.now.segments + 0 }
        ensures bytes { result.bytes ≡ 13 * result.packets + self.now.bytes }
    {
        let packets = self.segments + u32::from(self.filled > 0);
        Load {
            packets,
            bytes: packets * HEADER_LEN as u32 + self.bytes,
        }
    }
}

impl<A: Allocator> End<A> {
    // Sends so many queued items, from this place of the queue on. The first has this number.
    pub(crate) fn send_items(&self, first: u32, from: u16, count: u16, out: &mut Outbox<A>)
        requires within { from + count ≤ length (queued self.now.sender) }
        requires room { HasRoomTo out.old self.now.asked
            (numbered wire self.now first (pieces [] (stretch self.now.sender from count))) }
        ensures sent { SendsTo out.old out.new self.now.asked
            (numbered wire self.now first (pieces [] (stretch self.now.sender from count))) }
        ensures room { LeavesRoom out.old out.new self.now.asked
            (numbered wire self.now first (pieces [] (stretch self.now.sender from count))) }
    {
        let mut cutting = Cutting::at(first);
        for index in from as usize..from as usize + count as usize {
            cutting.take(self.outgoing.item(index), self, out);
        }
        if !cutting.bytes.is_empty() {
            cutting.send(false, self, out);
        }
    }

    // How many segments that takes, and how many bytes they have, at whichever end.
    pub(crate) fn count_segments(&self, from: u16, count: u16) -> Load
        requires within { from + count ≤ length (queued self.now.sender) }
        ensures load { (to : Address) (e : EndState) (first : ℕ)
            → IsLoad result to (numbered wire e first (pieces [] (stretch self.now.sender from count))) }
        ensures few { result.packets ≤ count }
        ensures small { result.bytes ≤ 14 * count }
    {
        what_is_written_is_a_header_and_fields();
        let mut counting = Counting {
            segments: 0,
            filled: 0,
            bytes: 0,
        };
        for index in from as usize..from as usize + count as usize {
            counting.take(self.outgoing.item(index));
        }
        counting.total()
    }
}
