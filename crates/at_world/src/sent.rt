//! The datagrams that were sent, numbered from 0, each with the event that sent it.
ghost use Rattle.std.specs.Prelude.{◌≡◌, ◌<◌, ◌≤◌, ◌+◌, ◌++◌, length, map, replicate, slice_get, Some, [], OnOk, OnErr};
ghost use Rattle.std.specs.Prelude.{vec_capacity, vec_len};
ghost use Rattle.at_world.specs.Sents.{SentDatagram, stamp};

use at_ddp::Outbox;
use std::alloc::{AllocError, Allocator, Global};
use std::marker::Model;

/// A datagram that was sent.
#[derive(Clone, Copy, Debug, PartialEq, Eq)]
pub struct Sent<'a> {
    /// The number of the event that sent it, from 0.
    pub event: u32,
    /// The node that it goes to; 255 means every node.
    pub to: u8,
    pub bytes: &'a [u8],
}

/// All datagrams that were sent, numbered from 0.
#[derive(Drop)]
pub struct SentList<A: Allocator = Global> {
    list: Outbox<A>,
    // The event that sent each datagram.
    events: Vec<u32, A>,
}

impl<A: Allocator> Model for SentList<A> {
    ghost use Rattle.std.specs.Prelude.{◌≡◌, List, length};
    ghost use Rattle.at_world.specs.Sents.{SentDatagram, stamped};

    ghost Value = { List SentDatagram };

    ghost view = { λ s. stamped s.events.items s.list.items };

    ghost invariant = { λ s. length s.events.items ≡ length s.list.items };
}

impl<A: Allocator + Copy> SentList<A> {
    pub fn new(alloc: A) -> SentList<A>
        ensures { result ≡ [] }
    {
        SentList {
            list: Outbox::new(alloc),
            events: Vec::new(alloc),
        }
    }
}

impl<A: Allocator> SentList<A> {
    pub fn len(&self) -> usize
        ensures { result ≡ length self.now }
    {
        self.events.len()
    }

    pub fn get(&self, index: usize) -> Sent<'_>
        requires { index < length self.now }
        ensures { (s : SentDatagram) × (slice_get self.now index ≡ Some s) × (result.event ≡ s.event)
            × (result.to ≡ s.to) × (result.bytes.now ≡ s.bytes) }
    {
        Sent {
            event: self.events[index],
            to: self.list.node(index),
            bytes: self.list.get(index),
        }
    }

    // Moves what an event sent to the end. If memory runs out, nothing is added.
    pub(crate) fn append(&mut self, out: &mut Outbox<A>, event: u32) -> Result<(), AllocError>
        ensures ok { OnOk result
            ((self.new ≡ self.old ++ map (stamp event) out.old.items) × (out.new.items ≡ [])) }
        ensures err { OnErr result (self.new ≡ self.old) }
    {
        if out.is_empty() {
            return Ok(());
        }
        let count = out.len();
        self.events.reserve(count)?;
        self.list.append(out)?;
        push_all(&mut self.events, count, event);
        Ok(())
    }
}

// Appends a stamp so many times. The list has room for them.
fn push_all<A: Allocator>(stamps: &mut Vec<u32, A>, count: usize, event: u32)
    requires { vec_len stamps.old + count ≤ vec_capacity stamps.old }
    ensures { stamps.new.items ≡ stamps.old.items ++ replicate count event }
{
    for _i in 0..count {
        stamps.push(event).unwrap();
    }
}
