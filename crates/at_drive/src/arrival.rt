//! What came to a node at a poll.
ghost use Rattle.std.specs.Prelude.{◌≡◌, IfOk};

use std::alloc::{AllocError, Allocator, Global};
use std::marker::Model;

/// What came to a node at a poll.
#[derive(Drop)]
pub struct Arrival<A: Allocator = Global> {
    at: usize,
    bytes: Vec<u8, A>,
}

impl<A: Allocator> Model for Arrival<A> {
    ghost use Rattle.at_drive.specs.Arrivals.{Came};

    ghost Value = { Came };

    ghost view = { λ a. record { at = a.at; bytes = a.bytes.items } };
}

impl<A: Allocator> Arrival<A> {
    pub(crate) fn new(alloc: A, at: usize, bytes: &[u8]) -> Result<Arrival<A>, AllocError>
        ensures { IfOk result (λ a. a ≡ record { at = at; bytes = bytes.now }) }
    {
        let bytes = Vec::from_slice(alloc, bytes)?;
        Ok(Arrival { at, bytes })
    }

    /// The place of the poll among the steps.
    pub fn at(&self) -> usize
        ensures { result ≡ self.now.at }
    {
        self.at
    }

    /// The bytes that came.
    pub fn bytes(&self) -> &[u8]
        ensures { result.now ≡ self.now.bytes }
    {
        &self.bytes
    }

    // What came at another poll, in the room of what came at this one, which is dropped if memory runs out.
    pub(crate) fn replaced(self, at: usize, bytes: &[u8]) -> Result<Arrival<A>, AllocError>
        ensures { IfOk result (λ a. a ≡ record { at = at; bytes = bytes.now }) }
    {
        let mut room = self.bytes;
        room.clear();
        room.extend_from_slice(bytes)?;
        Ok(Arrival { at, bytes: room })
    }
}
