//! Lists that contracts compare, whatever memory they lie in.
ghost use Rattle.std.specs.Prelude.{◌≡◌};

use std::alloc::{Allocator, Global};
use std::marker::Model;

/// A vector whose contracts speak of its items, whatever memory it lies in.
#[derive(Drop)]
pub struct Listed<T: Drop, A: Allocator = Global> {
    list: Vec<T, A>,
}

impl<T: Drop, A: Allocator> Model for Listed<T, A> {
    ghost use Rattle.std.specs.Prelude.{List};

    ghost Value = { List T };

    ghost view = { λ l. l.list.items };
}

impl<T: Drop, A: Allocator> Listed<T, A> {
    /// Wraps a vector. This needs no memory.
    pub fn from_vec(list: Vec<T, A>) -> Listed<T, A>
        ensures { result ≡ list.items }
    {
        Listed { list }
    }

    pub fn as_slice(&self) -> &[T]
        ensures { result.now ≡ self.now }
    {
        &self.list
    }

    /// Unwraps the vector. This needs no memory.
    pub fn into_vec(self) -> Vec<T, A>
        ensures { result.items ≡ self }
    {
        self.list
    }
}
