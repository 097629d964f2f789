//! The nodes of a cable: at which place one is, and what they hold.
ghost use Rattle.std.specs.Prelude.{◌≡◌};
ghost use Rattle.std.specs.List.{list_any, position_from};
ghost use Rattle.at_node.specs.Numbers.{holds};
ghost use Rattle.at_nodes.specs.Nodes.{holds_some, is_numbered};

use at_node::{Draw, Node};
use std::alloc::Allocator;

/// Whether some node holds a record or an end under the number that a node would draw; not if it would draw none.
pub fn is_held<A: Allocator + Copy>(nodes: &[Node<A>], node: u8, draw: Option<Draw>) -> bool
    ensures { result ≡ holds_some nodes.now node draw }
{
    match draw {
        None => false,
        Some(draw) => is_held_by_some(nodes, node, draw),
    }
}

fn is_held_by_some<A: Allocator + Copy>(nodes: &[Node<A>], node: u8, draw: Draw) -> bool
    ensures { result ≡ list_any (λ n. holds n node draw) nodes.now }
{
    for place in 0..nodes.len() {
        if nodes[place].holds(node, draw) {
            return true;
        }
    }
    false
}

/// The place of the node of this number, if it is among these.
pub fn place_of<A: Allocator + Copy>(nodes: &[Node<A>], number: u8) -> Option<usize>
    ensures { result ≡ position_from (is_numbered number) 0 nodes.now }
{
    for place in 0..nodes.len() {
        if nodes[place].number() == number {
            return Some(place);
        }
    }
    None
}
