//! Who has a name that was claimed. It is a box of its own, so that what holds it stays small.
ghost use Rattle.std.specs.Prelude.{◌≡◌, IfOk};

use crate::find::Find;
use std::alloc::{AllocError, Allocator, Global};
use std::marker::Model;

/// Who has a name that was claimed.
#[derive(Drop)]
pub struct Owner<A: Allocator = Global> {
    find: Box<Find, A>,
}

impl<A: Allocator> Model for Owner<A> {
    ghost use Rattle.at_nbp.specs.declared.find.Find.{Find};

    ghost Value = { Find };

    ghost view = { λ o. o.find.value };
}

impl<A: Allocator> Owner<A> {
    /// The owner that was found. The error is out of memory.
    pub fn new(alloc: A, find: Find) -> Result<Owner<A>, AllocError>
        ensures { IfOk result (λ owner. owner ≡ find) }
    {
        let find = Box::new(alloc, find)?;
        Ok(Owner { find })
    }

    /// The name, and the socket that has it.
    pub fn find(&self) -> &Find
        ensures { result.now ≡ self.now }
    {
        &self.find
    }
}
