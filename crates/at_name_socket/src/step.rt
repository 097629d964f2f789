//! What came of a packet at the socket, or of a lookup that was finished.
use at_ddp::Listed;
use at_nbp::{Find, Owner};
use std::alloc::{Allocator, Global};

/// What came of a lookup that was finished.
#[derive(Drop)]
pub enum Finished<A: Allocator = Global> {
    /// What it found, in order of arrival.
    Found(Listed<Find, A>),
    /// It was a claim: no such name was found, and now the name is registered.
    Claimed,
    /// It was a claim, and this node or another has the name.
    Taken(Owner<A>),
}

/// What came of a packet.
#[derive(Clone, Copy, Debug, PartialEq, Eq)]
pub enum Heard {
    /// It had no effect.
    Ignored,
    /// The router asked every node.
    Relayed,
    /// A lookup was answered with so many names, at least one.
    Answered(usize),
    /// So many finds are new, at least one.
    Kept(usize),
}
