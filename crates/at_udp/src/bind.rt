//! The sockets of a cable: how each node's is bound, and why one isn't.
ghost use Rattle.std.specs.Prelude.{◌≡◌, IfErr, IfOk};
ghost use Rattle.std.specs.List.{AllZip};
ghost use Rattle.at_udp.specs.Binds.{BindsAt, Has, IsOf, IsUnbound};
ghost use Rattle.at_udp.specs.Sockets.{port_of};

use crate::socket::Socket;
use std::alloc::Allocator;
use std::io;
use std::io::ErrorKind;
use std::net::Net;
use thiserror::Error;

/// Why a cable was not made.
#[derive(Debug, Drop, Error)]
pub enum BindFault {
    /// A node has no socket. Its port is in use, say, or would be over 65,535.
    #[error("node {node} has no socket at port {port}: {why}")]
    NoSocket {
        node: u8,
        /// The port that the node would have.
        port: u32,
        why: io::Error,
    },
    #[error("out of memory")]
    NoMemory,
}

/// The port of a node, if it has one.
pub(crate) fn port_of(first: u16, node: u8) -> Option<u16>
    ensures { result ≡ port_of first node }
{
    first.checked_add(u16::from(node))
}

/// Binds a socket for each of these nodes, in their order, up to the first that fails.
pub(crate) fn sockets_of<S: Socket, A: Allocator + Copy, R: Net>(
    alloc: A,
    net: &R,
    first: u16,
    nodes: &[u8],
) -> Result<Vec<S, A>, BindFault>
    ensures bound { IfOk result (λ sockets. AllZip (Has S.binds first) nodes.now sockets.items) }
    ensures unbound { IfErr result (λ fault. IsUnbound S.binds first nodes.now fault) }
{
    let Ok(mut sockets) = Vec::with_capacity(alloc, nodes.len()) else {
        return Err(BindFault::NoMemory);
    };
    for node in nodes {
        match socket_of(net, first, *node) {
            Ok(socket) => sockets.push(socket).unwrap(),
            Err(fault) => return Err(fault),
        }
    }
    Ok(sockets)
}

// Binds a node's socket.
fn socket_of<S: Socket, R: Net>(net: &R, first: u16, node: u8) -> Result<S, BindFault>
    ensures bound { IfOk result (λ socket. Has S.binds first node socket) }
    ensures unbound { IfErr result (λ fault. IsOf S.binds first node fault) }
{
    match bound(net, first, node) {
        Ok(socket) => Ok(socket),
        Err(why) => Err(BindFault::NoSocket {
            node,
            port: u32::from(first) + u32::from(node),
            why,
        }),
    }
}

fn bound<S: Socket, R: Net>(net: &R, first: u16, node: u8) -> io::Result<S>
    ensures { BindsAt S.binds (port_of first node) result }
{
    match port_of(first, node) {
        Some(port) => S::bind(net, port),
        None => Err(io::Error::from(ErrorKind::InvalidInput)),
    }
}
