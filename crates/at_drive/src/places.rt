//! The place of the node of a step.
ghost use Rattle.std.specs.Prelude.{◌≡◌, map, Some, true};
ghost use Rattle.std.specs.List.{position_from};
ghost use Rattle.at_drive.specs.Drives.{number_of};
ghost use Rattle.at_drive.specs.Steps.{stands_in};
ghost use Rattle.at_nodes.specs.Nodes.{is_numbered};

use at_node::Node;
use at_nodes::place_of;
use std::alloc::Allocator;

/// The place of the node of this number, which is among these.
pub(crate) fn place_among<A: Allocator + Copy>(nodes: &[Node<A>], number: u8) -> usize
    requires { stands_in (map number_of nodes.now) number ≡ true }
    ensures { position_from (is_numbered number) 0 nodes.now ≡ Some result }
{
    match place_of(nodes, number) {
        Some(place) => place,
        None => unreachable!(),
    }
}

/// Whether the node of this number is among these.
pub(crate) fn has_node<A: Allocator + Copy>(nodes: &[Node<A>], number: u8) -> bool
    ensures { result ≡ stands_in (map number_of nodes.now) number }
{
    match place_of(nodes, number) {
        Some(_) => true,
        None => false,
    }
}
