//! Bytes that contracts compare as lists, whatever memory they lie in.
ghost use Rattle.std.specs.Prelude.{◌≡◌, IfOk};

use std::alloc::{AllocError, Allocator, Global};
use std::marker::Model;

/// Bytes whose contracts speak of their values, whatever memory they lie in.
#[derive(Drop)]
pub struct Bytes<A: Allocator = Global> {
    bytes: Vec<u8, A>,
}

impl<A: Allocator> Model for Bytes<A> {
    ghost use Rattle.std.specs.Prelude.{List, ℕ};

    ghost Value = { List ℕ };

    ghost view = { λ b. b.bytes.items };
}

impl<A: Allocator> Bytes<A> {
    /// A copy of these bytes. The error is out of memory.
    pub fn copy_of(alloc: A, bytes: &[u8]) -> Result<Bytes<A>, AllocError>
        ensures { IfOk result (λ b. b ≡ bytes.now) }
    {
        Ok(Bytes {
            bytes: Vec::from_slice(alloc, bytes)?,
        })
    }

    /// Wraps a vector of bytes. This needs no memory.
    pub fn from_vec(bytes: Vec<u8, A>) -> Bytes<A>
        ensures { result ≡ bytes.items }
    {
        Bytes { bytes }
    }

    pub fn as_slice(&self) -> &[u8]
        ensures { result.now ≡ self.now }
    {
        &self.bytes
    }
}
