//! What an end sends: one queue of items, of which the first were sent.
ghost use Rattle.std.specs.Prelude.{◌≡◌, ◌+◌, ◌-◌, ◌≤◌, ◌<◌, ◌++◌, length, take, drop, max, min, IfOk, IfSome};
ghost use Rattle.std.specs.Prelude.{slice_get, Some};
ghost use Rattle.at_adsp_end.specs.Ends.{next_unsent, no_sender};
ghost use Rattle.at_adsp_end.specs.Outgoings.{queued};
ghost use Rattle.at_adsp_end.specs.Positions.{wire};
ghost use Rattle.at_adsp_end.specs.Sending.{acknowledged, acks, dropped, going, sent_on};

use crate::item::Item;
use crate::positions::number_after;
use circular_buffer::HeapCircularBuffer;
use std::alloc::{AllocError, Allocator};
use std::marker::Model;

#[derive(Drop)]
pub(crate) struct Outgoing<A: Allocator> {
    front: u32,
    queue: HeapCircularBuffer<Item, A>,
    // How many items of the queue were sent.
    sent: u16,
    credit: u16,
    resetting: bool,
}

impl<A: Allocator> Model for Outgoing<A> {
    ghost use Rattle.at_adsp_end.specs.Outgoings.{Outgoing as Kept};
    ghost use Rattle.std.specs.Prelude.{◌≤◌, ◌<◌, length, take, drop};

    ghost Value = { Kept };

    ghost view = { λ o. record {
      sender =
          record {
            front = o.front;
            unacknowledged = take o.sent o.queue.items;
            waiting = drop o.sent o.queue.items;
            credit = o.credit;
            resetting = o.resetting;
          };
      room = o.queue.capacity;
    } };

    ghost invariant = { λ o. (o.sent ≤ length o.queue.items) × (o.queue.capacity < 65536) };
}

impl<A: Allocator> Outgoing<A> {
    pub(crate) fn new(alloc: A, room: u16) -> Result<Outgoing<A>, AllocError>
        ensures { IfOk result (λ o. o ≡ record { sender = no_sender; room = room }) }
    {
        Ok(Outgoing {
            front: 0,
            queue: HeapCircularBuffer::with_capacity(alloc, room as usize)?,
            sent: 0,
            credit: 0,
            resetting: false,
        })
    }

    // Has the first item that is not acknowledged take this number from now on.
    pub(crate) fn set_front(&mut self, front: u32)
        ensures { self.new ≡ record self.old { sender = record self.old.sender { front = front } } }
    {
        self.front = front;
    }

    pub(crate) fn front(&self) -> u32
        ensures { result ≡ self.now.sender.front }
    {
        self.front
    }

    pub(crate) fn next_unsent(&self) -> u32
        ensures { result ≡ next_unsent wire self.now.sender }
    {
        number_after(self.front, self.sent as u32)
    }

    pub(crate) fn is_resetting(&self) -> bool
        ensures { result ≡ self.now.sender.resetting }
    {
        self.resetting
    }

    // How many items were sent and are not acknowledged.
    pub(crate) fn sent(&self) -> u16
        ensures { result ≡ length self.now.sender.unacknowledged }
    {
        self.sent
    }

    // How many more items can be written.
    pub(crate) fn places(&self) -> usize
        ensures count { result
            ≡ self.now.room - (length self.now.sender.unacknowledged + length self.now.sender.waiting) }
        ensures fits { length self.now.sender.unacknowledged + length self.now.sender.waiting ≤ self.now.room }
        ensures small { self.now.room < 65536 }
    {
        self.queue.capacity() - self.queue.len()
    }

    // How many items the next expected number of the other end acknowledges.
    pub(crate) fn acks(&self, next: u32) -> Option<u16>
        ensures count { result ≡ acks wire self.now.sender next }
        ensures within { IfSome result (λ k. k ≤ length self.now.sender.unacknowledged) }
    {
        let distance = next.wrapping_sub(self.front);
        if distance <= self.sent as u32 {
            Some(distance as u16)
        } else {
            None
        }
    }

    // How many more items may be sent.
    pub(crate) fn credit(&self) -> u16
        ensures { result ≡ self.now.sender.credit }
    {
        self.credit
    }

    // How many more items may be sent once so many are acknowledged, with this window behind them.
    pub(crate) fn credit_with(&self, k: u16, window: u16) -> u16
        requires { k ≤ length self.now.sender.unacknowledged }
        ensures { result ≡ (acknowledged wire k window self.now.sender).credit }
    {
        self.credit.max(window.saturating_sub(self.sent - k))
    }

    pub(crate) fn acknowledge(&mut self, k: u16, window: u16)
        requires { k ≤ length self.old.sender.unacknowledged }
        ensures { self.new ≡ record self.old { sender = acknowledged wire k window self.old.sender } }
    {
        self.credit = self.credit_with(k, window);
        self.front = number_after(self.front, k as u32);
        self.queue.truncate_front(self.queue.len() - k as usize);
        self.sent -= k;
    }

    // How many of the waiting items may go with this credit.
    pub(crate) fn count_waiting(&self, credit: u16) -> u16
        ensures count { result ≡ length (take credit self.now.sender.waiting) }
        ensures within { length self.now.sender.unacknowledged + result < 65536 }
    {
        let waiting = self.queue.len() - self.sent as usize;
        waiting.min(credit as usize) as u16
    }

    // How many items go now.
    pub(crate) fn count_going(&self) -> u16
        ensures count { result ≡ length (going self.now.sender) }
        ensures within { length self.now.sender.unacknowledged + result < 65536 }
    {
        if self.resetting {
            self.count_waiting(0)
        } else {
            self.count_waiting(self.credit)
        }
    }

    // Notes that all items are sent that go now.
    pub(crate) fn advance(&mut self)
        ensures { self.new ≡ record self.old { sender = sent_on self.old.sender } }
    {
        let count = self.count_going();
        self.sent += count;
        self.credit -= count;
    }

    // The queued item at an index.
    pub(crate) fn item(&self, index: usize) -> Item
        requires { index < length (queued self.now.sender) }
        ensures { slice_get (queued self.now.sender) index ≡ Some result }
    {
        *self.queue.get(index).unwrap()
    }

    // Drops all that is queued.
    pub(crate) fn clear(&mut self)
        ensures { self.new ≡ record self.old { sender = dropped wire self.old.sender } }
    {
        self.front = self.next_unsent();
        self.queue.clear();
        self.sent = 0;
    }

    pub(crate) fn set_resetting(&mut self, resetting: bool)
        ensures { self.new ≡ record self.old { sender = record self.old.sender { resetting = resetting } } }
    {
        self.resetting = resetting;
    }

    // Queues the items for which there is room, and returns how many they are.
    pub(crate) fn append(&mut self, items: &[Item]) -> usize
        ensures count { result ≡ length (take (self.old.room
            - (length self.old.sender.unacknowledged + length self.old.sender.waiting)) items.now) }
        ensures state { self.new ≡ record self.old {
          sender = record self.old.sender {
            waiting = self.old.sender.waiting ++ take (self.old.room
                - (length self.old.sender.unacknowledged + length self.old.sender.waiting)) items.now;
          };
        } }
    {
        self.queue.fill_from_slice(items)
    }

    // Takes the last waiting items away.
    pub(crate) fn take_back(&mut self, count: usize)
        requires { count ≤ length self.old.sender.waiting }
        ensures { self.new ≡ record self.old {
          sender = record self.old.sender {
            waiting = take (length self.old.sender.waiting - count) self.old.sender.waiting;
          };
        } }
    {
        self.queue.truncate_back(self.queue.len() - count);
    }
}
