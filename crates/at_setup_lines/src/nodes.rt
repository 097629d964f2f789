//! Which nodes may be in one setup.
ghost use Rattle.std.specs.Prelude.{◌≡◌, ◌&&◌, ◌++◌, ◌∷◌, [], true, is_none, IsNone, IsSome};
ghost use Rattle.std.specs.List.{list_any};
ghost use Rattle.at_setup.specs.Setups.{has_router};
ghost use Rattle.at_setup_lines.specs.NodeLists.{BeginNodes, fits_zones, has_number, have_zones, is_node};
ghost use Rattle.at_setup_lines.specs.NodeLists.{lacks_router, node_fits, router_fits};

use at_faults::Rule;
use at_setup::NodeSetup;

/// How many nodes a world has at most.
const MAX_NODES: usize = 16;

pub(crate) fn has_router(nodes: &[NodeSetup]) -> bool
    ensures { result ≡ has_router nodes.now }
{
    nodes.iter().any(|node| node.router)
}

fn are_in_zones(nodes: &[NodeSetup]) -> bool
    ensures { result ≡ have_zones nodes.now }
{
    nodes.iter().any(|node| node.zone.is_some())
}

/// Whether a router has to follow these nodes.
pub fn lacks_router(nodes: &[NodeSetup]) -> bool
    ensures { result ≡ lacks_router nodes.now }
{
    are_in_zones(nodes) && !has_router(nodes)
}

fn has_number(nodes: &[NodeSetup], number: u8) -> bool
    ensures { result ≡ list_any (has_number number) nodes.now }
{
    nodes.iter().any(|node| node.node == number)
}

/// The rule that a node breaks after these, with which a setup begins.
pub(crate) fn rule_broken_by(nodes: &[NodeSetup], node: &NodeSetup) -> Option<Rule>
    ensures test { is_none result ≡ node_fits nodes.now node.now }
    ensures fits { IsNone result → BeginNodes nodes.now → is_node node.now ≡ true
        → BeginNodes (nodes.now ++ node.now ∷ []) }
    ensures broken { IsSome result → ¬ BeginNodes (nodes.now ++ node.now ∷ []) }
{
    if nodes.len() >= MAX_NODES {
        Some(Rule::SixteenNodes)
    } else if has_number(nodes, node.node) {
        Some(Rule::NodeOnce)
    } else if !fits_zones(nodes, node) {
        Some(Rule::AllInZones)
    } else {
        router_rule_broken_by(nodes, node)
    }
}

// All are in zones, or none is.
fn fits_zones(nodes: &[NodeSetup], node: &NodeSetup) -> bool
    ensures { result ≡ fits_zones nodes.now node.now }
{
    nodes.is_empty() || are_in_zones(nodes) == node.zone.is_some()
}

// A router is in a zone and the only one, and a node in a zone leaves a place for it if it is still to come.
fn router_rule_broken_by(nodes: &[NodeSetup], node: &NodeSetup) -> Option<Rule>
    ensures { is_none result ≡ router_fits nodes.now node.now }
{
    if node.router {
        match node.zone {
            None => Some(Rule::RouterInZone),
            Some(_) if has_router(nodes) => Some(Rule::OneRouter),
            Some(_) => None,
        }
    } else if node.zone.is_none() || has_router(nodes) || nodes.len() + 1 < MAX_NODES {
        None
    } else {
        Some(Rule::RouterMissing)
    }
}
