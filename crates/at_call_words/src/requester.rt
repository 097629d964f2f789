//! The words that name who asked.
ghost use Rattle.std.specs.Prelude.{◌≡◌, ◌<◌, length, IfSome};
ghost use Rattle.std.specs.List.{position_from};
ghost use Rattle.at_call_words.specs.Requesters.{IsAnyNode, NameAny, NameHere, Names, is_dot};
ghost use Rattle.at_words.specs.Numbers.{IsByte, IsTwoBytes};
ghost use Rattle.at_words.specs.Readings.{IsFound};

use at_ddp::Address;
use at_words::{byte, node_number, two_bytes};

/// Which requesters words can name.
#[derive(Clone, Copy)]
pub(crate) enum Requesters {
    /// Those of the network that the words are about.
    Here,
    /// Those of every network.
    Any,
}

/// The requester that the words of a node and of a socket name. A node without a network is on network `net`.
pub(crate) fn requester(
    requesters: Requesters,
    net: u16,
    node: &[u8],
    socket: &[u8],
) -> Option<Address>
    ensures { IsFound result (Names requesters net node.now socket.now) }
{
    match requesters {
        Requesters::Here => requester_here(net, node, socket),
        Requesters::Any => any_requester(net, node, socket),
    }
}

// `NODE SOCKET`
fn requester_here(net: u16, node: &[u8], socket: &[u8]) -> Option<Address>
    ensures { IsFound result (NameHere net node.now socket.now) }
{
    let node = node_number(node)?;
    let socket = node_number(socket)?;
    Some(Address { net, node, socket })
}

// The same, or `NET.NODE SOCKET`, with each number that a datagram can have. So whoever asked can be named.
fn any_requester(net: u16, node: &[u8], socket: &[u8]) -> Option<Address>
    ensures { IsFound result (NameAny net node.now socket.now) }
{
    let (net, node) = any_node(net, node)?;
    let socket = byte(socket)?;
    Some(Address { net, node, socket })
}

// `NODE` or `NET.NODE`
fn any_node(net: u16, word: &[u8]) -> Option<(u16, u8)>
    ensures { IsFound result (λ r. IsAnyNode net word.now r.0 r.1) }
{
    match dot_in(word) {
        Some(at) => node_of_net(&word[..at], &word[at + 1..]),
        None => Some((net, byte(word)?)),
    }
}

// A network and a node.
fn node_of_net(net: &[u8], node: &[u8]) -> Option<(u16, u8)>
    ensures { IsFound result (λ r. IsTwoBytes net.now r.0 × IsByte node.now r.1) }
{
    let net = two_bytes(net)?;
    let node = byte(node)?;
    Some((net, node))
}

// The place of the first dot.
fn dot_in(word: &[u8]) -> Option<usize>
    ensures first { result ≡ position_from is_dot 0 word.now }
    ensures within { IfSome result (λ at. at < length word.now) }
{
    word.iter().position(|byte| *byte == b'.')
}
