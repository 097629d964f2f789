//! The handle of a node, which a program in C keeps.
ghost use Rattle.std.specs.Prelude.{◌≡◌, Option, MatchOption};
ghost use Rattle.std.specs.declared.option.Option.TheVariants.{None, Some};
ghost use Rattle.at_held.specs.Held.{HeldState};
ghost use Rattle.at_c.specs.Handles.{holds};

use at_held::HeldNode;
use raw_box::RawBox;
use std::alloc::Global;
use std::marker::Model;
use std::ptr::null_mut;

/// A node, or none at null. A program in C sets it to zero once, and then lets these functions alone change it.
#[repr(C)]
#[derive(Drop)]
pub struct AtNode {
    pointer: *mut u8,
    ghost node: { Option HeldState },
}

impl Model for AtNode {
    ghost also_owns = { λ h. holds h.pointer h.node };
}

impl AtNode {
    fn empty() -> AtNode
        ensures { result.node ≡ None }
    {
        AtNode {
            pointer: null_mut(),
        }
    }

    fn from_raw(node: RawBox<HeldNode, Global>) -> AtNode
        ensures { result.node ≡ Some node.value }
    {
        let RawBox { pointer, alloc: _ } = node;
        AtNode {
            pointer: pointer as *mut u8,
        }
    }

    fn into_raw(self, alloc: Global) -> Option<RawBox<HeldNode, Global>>
        ensures { MatchOption result (self.node ≡ None) (λ raw. self.node ≡ Some raw.value) }
    {
        let AtNode { pointer } = self;
        if pointer.is_null() {
            None
        } else {
            Some(RawBox {
                pointer: pointer as *mut HeldNode,
                alloc,
            })
        }
    }

    /// Takes the node out.
    pub(crate) fn take(&mut self, alloc: Global) -> Option<Box<HeldNode>>
        ensures empty { self.new.node ≡ None }
        ensures node { MatchOption result (self.old.node ≡ None) (λ taken. self.old.node ≡ Some taken.value) }
    {
        let handle = std::mem::replace(self, AtNode::empty());
        match handle.into_raw(alloc) {
            Some(raw) => Some(raw.into_box()),
            None => None,
        }
    }

    /// Puts a node in. One that is there is freed first, since its memory would be lost.
    pub(crate) fn put(&mut self, alloc: Global, node: Box<HeldNode>)
        ensures { self.new.node ≡ Some node.value }
    {
        drop(self.take(alloc));
        *self = AtNode::from_raw(RawBox::from_box(node));
    }
}
