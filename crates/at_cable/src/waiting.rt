//! What waits on a cable in memory.
ghost use Rattle.std.specs.Prelude.{◌≡◌, ◌≤◌, ◌++◌, length, map, take, OnOk, OnErr};
ghost use Rattle.std.specs.List.{position_from};
ghost use Rattle.at_cable.specs.Memory.{copies, is_for, reaches};
ghost use Rattle.at_cable.specs.Waits.{posted};

use at_ddp::Bytes;
use std::alloc::{AllocError, Allocator};

// A datagram, and the node that it waits for.
#[derive(Drop)]
pub(crate) struct Waiting<A: Allocator> {
    pub(crate) node: u8,
    pub(crate) bytes: Bytes<A>,
}

fn reaches(to: u8, node: u8) -> bool
    ensures { result ≡ reaches to node }
{
    node == to || to == 255
}

/// Lets a datagram wait at each node that it reaches. If memory runs out, it waits at none.
pub(crate) fn push_copies<A: Allocator + Copy>(
    alloc: A,
    waiting: &mut Vec<Waiting<A>, A>,
    nodes: &[u8],
    to: u8,
    bytes: &[u8],
) -> Result<(), AllocError>
    ensures ok { OnOk result
        (map posted waiting.new.items ≡ map posted waiting.old.items ++ copies to bytes.now nodes.now) }
    ensures err { OnErr result (waiting.new.items ≡ waiting.old.items) }
{
    let before = waiting.len();
    let pushed = push_each(alloc, waiting, nodes, to, bytes);
    if pushed.is_err() {
        waiting.truncate(before);
    }
    pushed
}

fn push_each<A: Allocator + Copy>(
    alloc: A,
    waiting: &mut Vec<Waiting<A>, A>,
    nodes: &[u8],
    to: u8,
    bytes: &[u8],
) -> Result<(), AllocError>
    ensures ok { OnOk result
        (map posted waiting.new.items ≡ map posted waiting.old.items ++ copies to bytes.now nodes.now) }
    ensures kept { take (length waiting.old.items) waiting.new.items ≡ waiting.old.items }
{
    for node in nodes {
        if reaches(to, *node) {
            let bytes = Bytes::copy_of(alloc, bytes)?;
            waiting.push(Waiting { node: *node, bytes })?;
        }
    }
    Ok(())
}

/// The place of the first datagram that waits for a node.
pub(crate) fn place_of<A: Allocator>(waiting: &[Waiting<A>], node: u8) -> Option<usize>
    ensures { result ≡ position_from (λ w. is_for node (posted w)) 0 waiting.now }
{
    waiting.iter().position(|w| w.node == node)
}

/// Copies as many bytes as fit to the start of a buffer, and returns how many.
pub(crate) fn copy_start(bytes: &[u8], buffer: &mut [u8]) -> usize
    ensures within { result ≤ length buffer.new }
    ensures copied { take result buffer.new ≡ take (length buffer.old) bytes.now }
{
    let count = bytes.len().min(buffer.len());
    buffer[..count].copy_from_slice(&bytes[..count]);
    count
}
