//! The opening of a node on the heap.
ghost use Rattle.std.specs.Prelude.{◌≡◌, IfErr, IfOk};
ghost use Rattle.at_held.specs.Held.{IsOpened};
ghost use Rattle.at_held.specs.Openings.{IsFault};
ghost use Rattle.at_node.specs.Limits.{IsWithin};

use at_held::{HeldNode, OpenFault};
use std::alloc::{AllocError, Global};

/// The node of this number, of the cable that the first lines of a schedule set up.
pub(crate) fn opened(alloc: Global, setup: &[u8], number: u8) -> Result<Box<HeldNode>, OpenFault>
    ensures opened { IfOk result (λ node. IsOpened setup.now number node.value) }
    ensures fault { IfErr result (IsFault setup.now number) }
    ensures within { IfOk result (λ node. IsWithin (node.value).node) }
{
    let node = HeldNode::open(alloc, setup, number)?;
    let place = boxed(alloc, node)?;
    Ok(place)
}

// The node in memory of its own. If there is none, `?` ends the node by a call. Any other end of it is proved anew.
fn boxed(alloc: Global, node: HeldNode) -> Result<Box<HeldNode>, AllocError>
    ensures { IfOk result (λ place. place.value ≡ node) }
{
    Ok(Box::new(alloc, node)?)
}
