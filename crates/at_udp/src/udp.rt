//! The cable of UDP sockets.
ghost use Rattle.std.specs.Prelude.{◌≡◌, if◌then◌else◌, IfOk, IfErr};
ghost use Rattle.at_udp.specs.Binds.{IsBound, IsUnbound};
ghost use Rattle.at_udp.specs.Sockets.{Receives, Sends, counted};

use crate::bind::{BindFault, sockets_of};
use crate::calls::{receive_at, send_from};
use crate::socket::Socket;
use at_cable::{Cable, CableFault};
use std::alloc::{Allocator, Global};
use std::marker::Model;
use std::net::Net;

/// A cable of UDP sockets on 127.0.0.1, where node n is at port P + n. A node that has no socket here may be another
/// program. What a socket does is its own to say, by the relations of [`Socket`].
#[derive(Drop)]
pub struct UdpCable<S: Socket, A: Allocator = Global> {
    first: u16,
    // In the order in which a datagram to every node is sent.
    nodes: Vec<u8, A>,
    // Of each node its own, in the same order.
    sockets: Vec<S, A>,
    failures: u64,
}

impl<S: Socket, A: Allocator> Model for UdpCable<S, A> {
    ghost use Rattle.std.specs.Prelude.{◌≡◌, length};
    ghost use Rattle.at_udp.specs.Sockets.{UdpState};

    ghost Value = { UdpState S };

    ghost view = { λ c. record {
      first = c.first;
      nodes = c.nodes.items;
      sockets = c.sockets.items;
      failed = c.failures;
    } };

    ghost invariant = { λ c. length c.sockets.items ≡ length c.nodes.items };
}

impl<S: Socket, A: Allocator + Copy> UdpCable<S, A> {
    /// Binds a socket for each of these nodes, where node n is at port `first` + n. The error names the first node
    /// whose socket could not be bound, or is out of memory.
    pub fn bind<R: Net>(
        alloc: A,
        net: &R,
        first: u16,
        nodes: &[u8],
    ) -> Result<UdpCable<S, A>, BindFault>
        ensures bound { IfOk result (λ c. IsBound S.binds first nodes.now c) }
        ensures unbound { IfErr result (λ fault. IsUnbound S.binds first nodes.now fault) }
    {
        let Ok(seats) = Vec::from_slice(alloc, nodes) else {
            return Err(BindFault::NoMemory);
        };
        match sockets_of(alloc, net, first, nodes) {
            Ok(sockets) => Ok(UdpCable {
                first,
                nodes: seats,
                sockets,
                failures: 0,
            }),
            Err(fault) => Err(fault),
        }
    }
}

impl<S: Socket, A: Allocator> UdpCable<S, A> {
    // Counts a call, if it failed.
    fn count(&mut self, is_failure: bool)
        ensures { self.new ≡ (if is_failure then counted self.old else self.old) }
    {
        if is_failure {
            self.failures = self.failures.saturating_add(1);
        }
    }
}

impl<S: Socket, A: Allocator> Cable for UdpCable<S, A> {
    ghost failed = { λ c. c.failed };

    ghost sends = { λ before from to bytes answer after. Sends S.sends before from to bytes answer after };

    ghost receives = { λ before node room answer after. Receives S.receives before node room answer after };

    fn send(&mut self, from: u8, to: u8, bytes: &[u8]) -> Result<(), CableFault> {
        if self.failures == u64::MAX {
            return Err(CableFault);
        }
        let answer = send_from(&mut self.sockets, &self.nodes, self.first, from, to, bytes);
        self.count(answer.is_err());
        answer
    }

    fn receive(&mut self, node: u8, buffer: &mut [u8]) -> Result<Option<usize>, CableFault> {
        if self.failures == u64::MAX {
            return Err(CableFault);
        }
        let answer = receive_at(&mut self.sockets, &self.nodes, node, buffer);
        self.count(answer.is_err());
        answer
    }

    fn failures(&self) -> u64 {
        self.failures
    }

    ghost send_is_counted = { λ before from to bytes answer after h. h.counted };

    ghost receive_is_counted = { λ before node room answer after h. h.counted };
}
