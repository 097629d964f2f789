//! The calls of a cable, each by the socket of the node that it is of.
ghost use Rattle.std.specs.Prelude.{◌≡◌, ◌<◌, ◌≤◌, IfOk, IfSome, length};
ghost use Rattle.at_cable.specs.Calls.{received};
ghost use Rattle.at_udp.specs.Sockets.{AsksOwn, Hears, SendsAt, SendsEach, destinations, place_of, port_of};

use crate::answer::{heard, sent};
use crate::bind::port_of;
use crate::socket::Socket;
use at_cable::CableFault;

/// The destination that is every node.
const EVERY_NODE: u8 = 255;

// The place of a node among those of a cable.
fn place_of(nodes: &[u8], node: u8) -> Option<usize>
    ensures is { result ≡ place_of nodes.now node }
    ensures within { IfSome result (λ place. place < length nodes.now) }
{
    nodes.iter().position(|n| *n == node)
}

/// Sends a payload by a node's own socket. A node without one sends nothing.
pub(crate) fn send_from<S: Socket>(
    sockets: &mut [S],
    nodes: &[u8],
    first: u16,
    from: u8,
    to: u8,
    bytes: &[u8],
) -> Result<(), CableFault>
    requires { length sockets.old ≡ length nodes.now }
    ensures { AsksOwn (λ s s'. SendsEach S.sends first bytes.now (destinations nodes.now to) s result s') sockets.old
        (place_of nodes.now from) result sockets.new }
{
    match place_of(nodes, from) {
        Some(place) => send_by(&mut sockets[place], nodes, first, to, bytes),
        None => Err(CableFault),
    }
}

// Sends a payload to each node that it is for, up to the first that fails.
fn send_by<S: Socket>(
    socket: &mut S,
    nodes: &[u8],
    first: u16,
    to: u8,
    bytes: &[u8],
) -> Result<(), CableFault>
    ensures { SendsEach S.sends first bytes.now (destinations nodes.now to) socket.old result socket.new }
{
    if to == EVERY_NODE {
        send_to_each(socket, nodes, first, bytes)
    } else {
        send_to(socket, first, to, bytes)
    }
}

#[tactic(auto, using(crate::proofs::NodeLemmas::stopped))]
fn send_to_each<S: Socket>(
    socket: &mut S,
    nodes: &[u8],
    first: u16,
    bytes: &[u8],
) -> Result<(), CableFault>
    ensures { SendsEach S.sends first bytes.now nodes.now socket.old result socket.new }
{
    for node in nodes {
        send_to(socket, first, *node, bytes)?;
    }
    Ok(())
}

// Sends a payload to a node. If it has no port, the payload is lost, and no call fails for it.
fn send_to<S: Socket>(socket: &mut S, first: u16, to: u8, bytes: &[u8]) -> Result<(), CableFault>
    ensures { SendsAt S.sends bytes.now (port_of first to) socket.old result socket.new }
{
    match port_of(first, to) {
        Some(port) => sent(socket.send(bytes, port)),
        None => Ok(()),
    }
}

/// Takes a payload that waits at a node's own socket. A node without one has none.
pub(crate) fn receive_at<S: Socket>(
    sockets: &mut [S],
    nodes: &[u8],
    node: u8,
    buffer: &mut [u8],
) -> Result<Option<usize>, CableFault>
    requires { length sockets.old ≡ length nodes.now }
    ensures asked { AsksOwn (λ s s'. Hears S.receives (length buffer.old) s (received result buffer.new) s') sockets.old
        (place_of nodes.now node) result sockets.new }
    ensures within { IfOk result (λ o. IfSome o (λ count. count ≤ length buffer.new)) }
{
    match place_of(nodes, node) {
        Some(place) => receive_by(&mut sockets[place], buffer),
        None => Err(CableFault),
    }
}

fn receive_by<S: Socket>(socket: &mut S, buffer: &mut [u8]) -> Result<Option<usize>, CableFault>
    ensures heard { Hears S.receives (length buffer.old) socket.old (received result buffer.new) socket.new }
    ensures within { IfOk result (λ o. IfSome o (λ count. count ≤ length buffer.new)) }
{
    heard(socket.receive(buffer))
}
