//! Which event drew each number of each node last. By it a datagram that comes too late is recognized.
ghost use Rattle.std.specs.Prelude.{◌≡◌, [], OnOk};
ghost use Rattle.at_world.specs.Draws.{last_of, drawn_at};

use at_node::Draw;
use indexmap::IndexMap;
use std::alloc::{AllocError, Allocator};
use std::hash::{BuildHasherDefault, FoldHasher};
use std::marker::Model;

type Events<A> = IndexMap<(u8, Draw), u32, BuildHasherDefault<FoldHasher>, A>;

/// For each number of each node, the event that drew it last.
#[derive(Drop)]
pub(crate) struct LastDraws<A: Allocator> {
    events: Events<A>,
}

impl<A: Allocator> Model for LastDraws<A> {
    ghost use Rattle.at_world.specs.Draws.{Draws};

    ghost Value = { Draws };

    ghost view = { λ d. d.events.entries };
}

impl<A: Allocator + Copy> LastDraws<A> {
    pub(crate) fn new(alloc: A) -> LastDraws<A>
        ensures { result ≡ [] }
    {
        LastDraws {
            events: IndexMap::new(alloc),
        }
    }

    /// The event that drew this number of a node last.
    pub(crate) fn last(&self, node: u8, draw: Draw) -> Option<u32>
        ensures { result ≡ last_of self.now node draw }
    {
        self.events.get(&(node, draw)).copied()
    }

    /// Records that an event drew a number of a node.
    pub(crate) fn note(&mut self, node: u8, draw: Draw, event: u32) -> Result<(), AllocError>
        ensures ok { OnOk result (self.new ≡ drawn_at self.old node draw event) }
    {
        self.events.insert((node, draw), event)?;
        Ok(())
    }
}
