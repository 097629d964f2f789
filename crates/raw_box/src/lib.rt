//! A box taken apart: its pointer, which code in C can keep, and what it points to.
#![tactic(auto)]

ghost use Rattle.std.specs.Prelude.{◌≡◌};
ghost use Rattle.std.specs.Box.Ownership.{box_owns};

use std::alloc::Allocator;
use std::marker::Model;

/// A box whose pointer is a public field. It owns what the box owned, so it has to be made into a box again.
pub struct RawBox<T, A: Allocator> {
    pub pointer: *mut T,
    pub alloc: A,
    pub ghost value: { T },
}

impl<T, A: Allocator> Model for RawBox<T, A> {
    ghost also_owns = { λ b. box_owns (A.dealloc_token b.alloc) T.row b.pointer b.value };
}

impl<T: Drop, A: Allocator> RawBox<T, A> {
    /// Takes a box apart.
    pub fn from_box(whole: Box<T, A>) -> RawBox<T, A>
        ensures { result.value ≡ whole.value }
    {
        let (pointer, alloc) = Box::into_raw_with_allocator(whole);
        RawBox { pointer, alloc }
    }

    /// The box again.
    pub fn into_box(self) -> Box<T, A>
        ensures { result.value ≡ self.value }
    {
        let RawBox { pointer, alloc } = self;
        unsafe { Box::from_raw(alloc, pointer) }
    }
}
