//! The setup of a world: a cable and its nodes.
ghost use Rattle.std.specs.Prelude.{◌≡◌, count_by, is_none};
ghost use Rattle.std.specs.List.{list_all};
ghost use Rattle.at_setup.specs.Setups.{is_lawful_node, is_room, is_zone, stands_once, has_router, are_in_zones};
ghost use Rattle.at_setup.specs.Setups.{are_lawful_nodes, is_lawful_table};

use at_ddp::{Listed, Pascal};
use at_zip::{is_name, table_fault};
use std::alloc::{Allocator, Global};

/// A node of a setup.
#[derive(Drop)]
pub struct NodeSetup {
    /// The node's number, 1 to 254.
    pub node: u8,
    pub router: bool,
    pub zone: Option<Pascal>,
    /// How many unread items a stream end here may hold, 1 to 65,535.
    pub receive_room: u16,
    /// How many unsent or unacknowledged items a stream end here may hold, 1 to 65,535.
    pub send_room: u16,
}

/// A cable and its nodes. There are at most 16 nodes with different numbers, and at most one of them is the router.
/// With a router each node has a zone of 1 to 32 bytes. Without one no node has a zone, and both zone tables are empty.
#[derive(Drop)]
pub struct Setup<A: Allocator = Global> {
    /// The number of the network, 1 to 65,535.
    pub net: u16,
    pub nodes: Listed<NodeSetup, A>,
    /// The router's table of all zones: at most 1,024 names of 1 to 32 bytes.
    pub zones: Listed<Pascal, A>,
    /// The router's table of the zones of this cable, with the same limits. It need not be part of the other.
    pub local: Listed<Pascal, A>,
}

impl<A: Allocator> Setup<A> {
    ghost use Rattle.std.specs.Prelude.{◌≡◌};
    ghost use Rattle.at_setup.specs.Setups.{is_lawful};

    /// Whether a world may begin with this setup.
    pub fn is_lawful(&self) -> bool
        ensures { result ≡ is_lawful self.now }
    {
        let nodes = self.nodes.as_slice();
        self.net > 0
            && are_lawful_nodes(nodes)
            && is_lawful_table(has_router(nodes), self.zones.as_slice())
            && is_lawful_table(has_router(nodes), self.local.as_slice())
    }
}

fn is_zone(zone: &Option<Pascal>) -> bool
    ensures { result ≡ is_zone zone.now }
{
    match zone {
        Some(name) => is_name(name),
        None => false,
    }
}

fn is_lawful_node(node: &NodeSetup) -> bool
    ensures { result ≡ is_lawful_node node.now }
{
    node.node > 0 && node.node < 255 && is_room(node.receive_room) && is_room(node.send_room)
}

fn is_room(places: u16) -> bool
    ensures { result ≡ is_room places }
{
    places > 0
}

fn stands_once(nodes: &[NodeSetup], node: &NodeSetup) -> bool
    ensures { result ≡ stands_once nodes.now node.now }
{
    nodes.iter().filter(|n| n.node == node.node).count() == 1
}

fn has_router(nodes: &[NodeSetup]) -> bool
    ensures { result ≡ has_router nodes.now }
{
    nodes.iter().any(|n| n.router)
}

fn is_each_in_a_zone(nodes: &[NodeSetup]) -> bool
    ensures { result ≡ list_all (λ n. is_zone n.zone) nodes.now }
{
    nodes.iter().all(|n| is_zone(&n.zone))
}

fn is_none_in_a_zone(nodes: &[NodeSetup]) -> bool
    ensures { result ≡ list_all (λ n. is_none n.zone) nodes.now }
{
    nodes.iter().all(|n| n.zone.is_none())
}

fn are_in_zones(nodes: &[NodeSetup]) -> bool
    ensures { result ≡ are_in_zones nodes.now }
{
    if has_router(nodes) {
        is_each_in_a_zone(nodes)
    } else {
        is_none_in_a_zone(nodes)
    }
}

fn is_each_lawful(nodes: &[NodeSetup]) -> bool
    ensures { result ≡ list_all is_lawful_node nodes.now }
{
    nodes.iter().all(is_lawful_node)
}

fn are_different(nodes: &[NodeSetup]) -> bool
    ensures { result ≡ list_all (stands_once nodes.now) nodes.now }
{
    nodes.iter().all(|n| stands_once(nodes, n))
}

fn count_routers(nodes: &[NodeSetup]) -> usize
    ensures { result ≡ count_by (λ n. n.router) nodes.now }
{
    nodes.iter().filter(|n| n.router).count()
}

fn are_lawful_nodes(nodes: &[NodeSetup]) -> bool
    ensures { result ≡ are_lawful_nodes nodes.now }
{
    nodes.len() <= 16
        && is_each_lawful(nodes)
        && are_different(nodes)
        && count_routers(nodes) <= 1
        && are_in_zones(nodes)
}

fn is_lawful_table(router: bool, names: &[Pascal]) -> bool
    ensures { result ≡ is_lawful_table router names.now }
{
    table_fault(names).is_none() && (router || names.is_empty())
}
