//! The sockets of a node for transactions: what they are made of.
ghost use Rattle.std.specs.Prelude.{◌≡◌};
ghost use Rattle.at_transaction_socket.specs.TransactionSockets.{opening};

use at_atp::{Requester, Responder};
use std::alloc::{Allocator, Global};
use std::marker::Model;

/// The socket that asks.
pub const REQUESTER_SOCKET: u8 = 128;

/// The sockets of a node for transactions.
#[derive(Drop)]
pub struct TransactionSocket<A: Allocator = Global> {
    pub(crate) alloc: A,
    pub(crate) requester: Requester<A>,
    // The requests that came to the service's socket.
    pub(crate) service_responder: Responder<A>,
}

impl<A: Allocator> Model for TransactionSocket<A> {
    ghost use Rattle.at_transaction_socket.specs.TransactionSockets.{TransactionState};

    ghost Value = { TransactionState };

    ghost view = { λ t. record {
      requester = t.requester;
      service_responder = t.service_responder;
    } };
}

impl<A: Allocator + Copy> TransactionSocket<A> {
    /// Sockets without transactions and records.
    pub fn new(alloc: A) -> TransactionSocket<A>
        ensures { result ≡ opening }
    {
        TransactionSocket {
            alloc,
            requester: Requester::new(alloc),
            service_responder: Responder::new(alloc),
        }
    }
}
