//! An allocator for tests, which refuses one request.
#![tactic(auto)]

ghost use Rattle.std.specs.Prelude.{◌≡◌};
ghost use Rattle.refusing.specs.Inner.{inner_of};

use std::alloc::{AllocError, Allocator};
use std::cell::Cell;

/// An allocator for tests: it grants a given number of requests, refuses the next one, and grants all after it.
///
/// Allocating, growing and shrinking a block is one request each, and giving a block back is none. A granted request
/// goes on to the inner allocator, which may still refuse it.
///
/// It counts the bytes that it handed out and did not get back.
///
/// It is proved that each block is allocated and given back rightly. Which request is refused, and the count, are only
/// tested, since no clause can say what a cell holds.
#[derive(Drop)]
pub struct Refusing<B: Allocator> {
    inner: B,
    refusal: Cell<Refusal>,
    held: Cell<usize>,
}

// Which request is refused.
#[derive(Clone, Copy)]
enum Refusal {
    // The refusal is still to come, after so many granted requests.
    After(u64),
    Given,
}

impl<B: Allocator> Refusing<B> {
    /// An allocator over `inner` that grants the first `granted` requests, and refuses the next one.
    pub fn new(inner: B, granted: u64) -> Refusing<B>
        ensures inner { inner_of result ≡ inner }
    {
        Refusing {
            inner,
            refusal: Cell::new(Refusal::After(granted)),
            held: Cell::new(0),
        }
    }

    /// Whether a request was refused. A request that the inner allocator refused does not count.
    pub fn has_refused(&self) -> bool {
        matches!(self.refusal.get(), Refusal::Given)
    }

    /// How many bytes were handed out and are not given back.
    pub fn held(&self) -> usize {
        self.held.get()
    }
}

// Counts a request, and returns whether it is the one to refuse.
fn is_refused(refusal: &Cell<Refusal>) -> bool {
    match refusal.get() {
        Refusal::After(0) => {
            refusal.set(Refusal::Given);
            true
        }
        Refusal::After(left) => {
            refusal.set(Refusal::After(left - 1));
            false
        }
        Refusal::Given => false,
    }
}

// Counts the bytes of a block that is handed out.
fn count_taken(held: &Cell<usize>, size: usize) {
    held.set(held.get().wrapping_add(size));
}

// Counts the bytes of a block that is given back. More than were handed out wrap, so that they show.
fn count_given(held: &Cell<usize>, size: usize) {
    held.set(held.get().wrapping_sub(size));
}

unsafe impl<B: Allocator> Allocator for Refusing<B> {
    ghost dealloc_token = { λ heap ty ptr. B.dealloc_token (inner_of heap) ty ptr };

    fn allocate(&self, size: usize, align: usize) -> Result<*mut u8, AllocError> {
        if is_refused(&self.refusal) {
            return Err(AllocError);
        }
        let answer = self.inner.allocate(size, align);
        if let Ok(_) = answer {
            count_taken(&self.held, size);
        }
        answer
    }

    unsafe fn deallocate(&self, ptr: *mut u8, size: usize, align: usize) {
        self.inner.deallocate(ptr, size, align);
        count_given(&self.held, size);
    }
}
