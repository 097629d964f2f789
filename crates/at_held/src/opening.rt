//! The opening of a node.
ghost use Rattle.std.specs.Prelude.{◌≡◌, find, IfOk, IfErr, Some};
ghost use Rattle.at_held.specs.Openings.{IsFault, IsFaultOf, IsNodeOf, is_set_up, node_of};
ghost use Rattle.at_nodes.specs.Nodes.{is_numbered};

use at_faults::Fault;
use at_node::Node;
use at_nodes::opening_nodes;
use at_schedule::read_setup;
use at_setup::Setup;
use std::alloc::{AllocError, Global};

/// Why no node is opened.
#[derive(Clone, Copy, Debug, PartialEq, Eq)]
pub enum OpenFault {
    /// The text is no schedule, so it sets up no cable.
    NoSetup,
    /// The cable has no node of the number.
    NoNode,
    NoMemory,
}

impl From<AllocError> for OpenFault {
    ghost use Rattle.std.specs.Prelude.{◌≡◌};
    ghost use Rattle.at_held.specs.declared.opening.OpenFault.TheVariants as of_opening;

    ghost from_gives = { λ _ e. e ≡ of_opening.NoMemory };

    fn from(_error: AllocError) -> OpenFault {
        OpenFault::NoMemory
    }
}

/// The node of this number, of the cable that the first lines of a schedule set up.
pub(crate) fn node_of(alloc: Global, text: &[u8], number: u8) -> Result<Node, OpenFault>
    ensures opened { IfOk result (IsNodeOf text.now number) }
    ensures fault { IfErr result (IsFault text.now number) }
{
    let mut rest = text;
    match read_setup(alloc, &mut rest) {
        Ok(setup) => opened(alloc, &setup, number),
        Err(Fault::Line { .. }) => Err(OpenFault::NoSetup),
        // Bytes in memory can always be read.
        Err(_) => Err(OpenFault::NoMemory),
    }
}

// The node of this number in a setup.
fn opened(alloc: Global, setup: &Setup, number: u8) -> Result<Node, OpenFault>
    ensures opened { IfOk result (λ node. node_of setup.now number ≡ Some node) }
    ensures fault { IfErr result (IsFaultOf setup.now number) }
{
    if !is_set_up(setup, number) {
        return Err(OpenFault::NoNode);
    }
    let nodes = opening_nodes(alloc, setup)?;
    numbered(nodes, number).ok_or(OpenFault::NoNode)
}

fn is_set_up(setup: &Setup, number: u8) -> bool
    ensures { result ≡ is_set_up setup.now number }
{
    let nodes = setup.nodes.as_slice();
    nodes.iter().any(|node| node.node == number)
}

fn numbered(nodes: Vec<Node>, number: u8) -> Option<Node>
    ensures { result ≡ find (is_numbered number) nodes.items }
{
    nodes.into_iter().find(|node| node.number() == number)
}
