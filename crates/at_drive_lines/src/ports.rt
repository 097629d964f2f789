//! The ports of nodes.
ghost use Rattle.std.specs.Prelude.{◌≡◌, ◌&&◌, ◌∷◌, is_none};
ghost use Rattle.at_words.specs.Readings.{IsFound};
ghost use Rattle.at_words.specs.Words.{words_of};
ghost use Rattle.at_drive_lines.specs.Says.{SaysPort, have_ports, leave_port};

use at_faults::Rule;
use at_setup::NodeSetup;
use at_setup_lines::lacks_router;
use at_words::{Words, is_word, two_bytes};

/// `port P`, of which the first word is taken.
pub(crate) fn port_of(word: &[u8], mut words: Words<'_>) -> Option<u16>
    ensures { IsFound result (SaysPort (word.now ∷ words_of words.entry.rest.now)) }
{
    if !is_word(word, b"port") {
        return None;
    }
    let port = two_bytes(words.next()?)?;
    words.end()?;
    Some(port)
}

/// The rule that these nodes break at ports that are their numbers above this one.
pub(crate) fn rule_broken_by(first: u16, nodes: &[NodeSetup]) -> Option<Rule>
    ensures { is_none result ≡ (have_ports first nodes.now && leave_port first nodes.now) }
{
    if !have_ports(first, nodes) {
        Some(Rule::PortOfNode)
    } else if !leave_port(first, nodes) {
        Some(Rule::PortOfRouter)
    } else {
        None
    }
}

fn have_ports(first: u16, nodes: &[NodeSetup]) -> bool
    ensures { result ≡ have_ports first nodes.now }
{
    nodes
        .iter()
        .all(|node| u32::from(first) + u32::from(node.node) <= 65_535)
}

// Whether a router that has to follow has a port.
fn leave_port(first: u16, nodes: &[NodeSetup]) -> bool
    ensures { result ≡ leave_port first nodes.now }
{
    !lacks_router(nodes) || nodes.len() < 65_535 - usize::from(first)
}
