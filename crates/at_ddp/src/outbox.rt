//! Finished datagrams in the order of sending, each with the node that it goes to.
ghost use Rattle.std.specs.Prelude.{◌≡◌, ℕ, ◌+◌, ◌<◌, ◌≤◌, ◌∷◌, [], ◌++◌, ◌==◌, length, slice_get};
ghost use Rattle.std.specs.Prelude.{◌^◌, map, All, OnOk, OnErr, IsOk, Some, vec_capacity, vec_len};
ghost use Rattle.at_ddp.specs.Outbox.{HasRoom, Posted};
ghost use Rattle.at_ddp.specs.Marks.{behind, start_at};
ghost use Rattle.at_ddp.specs.declared.outbox.Mark.{Mark};

use crate::address::Address;
use std::alloc::{AllocError, Allocator, Global};
use std::marker::Model;

// Where a datagram ends in the bytes of all datagrams, and the node that it goes to.
#[derive(Clone, Copy)]
struct Mark {
    end: usize,
    node: u8,
}

/// Finished datagrams in the order of sending, each with the node that it goes to. A socket names itself by `send_from`
/// before it sends. The bytes of the datagrams lie one behind the other.
#[derive(Drop)]
pub struct Outbox<A: Allocator = Global> {
    bytes: Vec<u8, A>,
    marks: Vec<Mark, A>,
    pub(crate) from: Address,
    pub(crate) kind: u8,
}

impl<A: Allocator> Model for Outbox<A> {
    ghost use Rattle.std.specs.Prelude.{◌-◌, vec_len, vec_capacity, length};
    ghost use Rattle.at_ddp.specs.Outbox.{Outbox as Box};

    ghost Value = { Box };

    ghost use Rattle.at_ddp.specs.Marks.{pieces, AreMarks};

    ghost view = { λ o. record {
      items = pieces 0 o.marks.items o.bytes.items;
      from = o.from;
      kind = o.kind;
      room = record { places = vec_capacity o.marks - vec_len o.marks; bytes = vec_capacity o.bytes - vec_len o.bytes };
    } };

    ghost invariant = { λ o. AreMarks 0 o.marks.items (length o.bytes.items) };
}

impl<A: Allocator + Copy> Outbox<A> {
    /// An outbox without datagrams, and without a socket that sends: its address and its protocol are 0.
    pub fn new(alloc: A) -> Outbox<A>
        ensures items { result.items ≡ [] }
        ensures from { result.from ≡ record { net = 0; node = 0; socket = 0 } }
        ensures kind { result.kind ≡ 0 }
    {
        Outbox {
            bytes: Vec::new(alloc),
            marks: Vec::new(alloc),
            from: Address {
                net: 0,
                node: 0,
                socket: 0,
            },
            kind: 0,
        }
    }
}

impl<A: Allocator> Outbox<A> {
    pub fn len(&self) -> usize
        ensures { result ≡ length self.now.items }
    {
        self.marks.len()
    }

    pub fn is_empty(&self) -> bool
        ensures { result ≡ (length self.now.items == 0) }
    {
        self.len() == 0
    }

    /// The node that the datagram at an index goes to.
    pub fn node(&self, index: usize) -> u8
        requires { index < length self.now.items }
        ensures { (p : Posted) × (slice_get self.now.items index ≡ Some p) × (result ≡ p.node) }
    {
        self.marks[index].node
    }

    /// The bytes of the datagram at an index.
    pub fn get(&self, index: usize) -> &[u8]
        requires { index < length self.now.items }
        ensures { (p : Posted) × (slice_get self.now.items index ≡ Some p) × (result.now ≡ p.bytes) }
    {
        let (start, end) = span(&self.marks, index);
        &self.bytes[start..end]
    }

    /// Makes room for `places` datagrams, with so many bytes in all. The error is out of memory.
    pub fn reserve(&mut self, places: u32, bytes: usize) -> Result<(), AllocError>
        ensures items { self.new.items ≡ self.old.items }
        ensures from { self.new.from ≡ self.old.from }
        ensures kind { self.new.kind ≡ self.old.kind }
        ensures ok { OnOk result (HasRoom self.new.room places bytes) }
        ensures kept { (n len : ℕ) → HasRoom self.old.room n len → HasRoom self.new.room n len }
        ensures succeeds { HasRoom self.old.room places bytes → IsOk result }
    {
        self.marks.reserve(places as usize)?;
        self.bytes.reserve(bytes)
    }

    /// Appends a finished datagram in three parts.
    pub(crate) fn post(
        &mut self,
        node: u8,
        header: &[u8],
        front: &[u8],
        back: &[u8],
    ) -> Result<(), AllocError>
        requires { length header.now + length front.now + length back.now ≤ 599 }
        ensures ok { OnOk result (self.new.items
            ≡ self.old.items ++ record { node = node; bytes = header.now ++ (front.now ++ back.now) } ∷ []) }
        ensures err { OnErr result (self.new.items ≡ self.old.items) }
        ensures from { self.new.from ≡ self.old.from }
        ensures kind { self.new.kind ≡ self.old.kind }
        ensures kept { OnErr result ((n len : ℕ) → HasRoom self.old.room n len → HasRoom self.new.room n len) }
        ensures room { (n len : ℕ)
            → HasRoom self.old.room (n + 1) (length header.now + length front.now + length back.now + len)
            → IsOk result × HasRoom self.new.room n len }
    {
        self.reserve(1, header.len() + front.len() + back.len())?;
        self.bytes.extend_from_slice(header).unwrap();
        self.bytes.extend_from_slice(front).unwrap();
        self.bytes.extend_from_slice(back).unwrap();
        let end = self.bytes.len();
        self.marks.push(Mark { end, node }).unwrap();
        Ok(())
    }

    /// Moves all datagrams of another outbox to the end of this one. The other keeps its room, and each its socket. The
    /// error is out of memory.
    pub fn append(&mut self, other: &mut Outbox<A>) -> Result<(), AllocError>
        ensures ok { OnOk result
            ((self.new.items ≡ self.old.items ++ other.old.items) × (other.new.items ≡ [])) }
        ensures err { OnErr result
            ((self.new.items ≡ self.old.items) × (other.new.items ≡ other.old.items)) }
        ensures from { (self.new.from ≡ self.old.from) × (other.new.from ≡ other.old.from) }
        ensures kind { (self.new.kind ≡ self.old.kind) × (other.new.kind ≡ other.old.kind) }
    {
        self.marks.reserve(other.marks.len())?;
        self.bytes.reserve(other.bytes.len())?;
        push_marks(&mut self.marks, &other.marks, self.bytes.len());
        self.bytes.extend_from_slice(&other.bytes).unwrap();
        other.clear();
        Ok(())
    }

    /// Takes all datagrams out, and keeps the room and the socket.
    pub fn clear(&mut self)
        ensures items { self.new.items ≡ [] }
        ensures from { self.new.from ≡ self.old.from }
        ensures kind { self.new.kind ≡ self.old.kind }
    {
        self.bytes.clear();
        self.marks.clear();
    }
}

// Appends these marks, which count from the byte at `base` on. The list has room for them.
fn push_marks<A: Allocator>(marks: &mut Vec<Mark, A>, others: &[Mark], base: usize)
    requires room { vec_len marks.old + length others.now ≤ vec_capacity marks.old }
    requires fits { All (λ (m : Mark). base + m.end < 2 ^ 64) others.now }
    ensures { marks.new.items ≡ marks.old.items ++ map (behind base) others.now }
{
    for mark in others {
        marks
            .push(Mark {
                end: base + mark.end,
                node: mark.node,
            })
            .unwrap();
    }
}

/// Where the bytes of the datagram at an index begin and end.
fn span(marks: &[Mark], index: usize) -> (usize, usize)
    requires { index < length marks.now }
    ensures start { result.0 ≡ start_at 0 marks.now index }
    ensures end { (m : Mark) × (slice_get marks.now index ≡ Some m) × (result.1 ≡ m.end) }
{
    let start = match index {
        0 => 0,
        _ => marks[index - 1].end,
    };
    (start, marks[index].end)
}
