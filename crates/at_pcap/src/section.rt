//! A section of pcapng, as far as it was read.
ghost use Rattle.std.specs.Prelude.{◌≡◌, ◌++◌, ◌∷◌, [], OnErr, OnOk};

use crate::interface::Interface;
use crate::order::Order;
use std::alloc::{AllocError, Allocator};

/// A section, as far as it was read.
#[derive(Drop)]
pub(crate) struct OpenSection<A: Allocator> {
    /// The order of its numbers.
    pub(crate) order: Order,
    /// Its interfaces, in the order of the file.
    pub(crate) interfaces: Vec<Interface, A>,
}

impl<A: Allocator> OpenSection<A> {
    /// No interfaces yet. The order is `Big` until a section header says its own. This takes no memory.
    pub(crate) fn new(alloc: A) -> OpenSection<A>
        ensures order { result.order ≡ Order.Big }
        ensures none { result.interfaces.items ≡ [] }
    {
        OpenSection {
            order: Order::Big,
            interfaces: Vec::new(alloc),
        }
    }

    /// Adds an interface behind the others. The error is out of memory, which changes nothing.
    pub(crate) fn add(&mut self, interface: Interface) -> Result<(), AllocError>
        ensures order { self.new.order ≡ self.old.order }
        ensures added { OnOk result (self.new.interfaces.items ≡ self.old.interfaces.items ++ interface ∷ []) }
        ensures err { OnErr result (self.new.interfaces.items ≡ self.old.interfaces.items) }
    {
        self.interfaces.push(interface)?;
        Ok(())
    }
}
