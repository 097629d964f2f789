//! The sockets of a node for transactions: the one that asks, for the node's user and for others like it, and the
//! service's.
#![tactic(auto)]

mod incoming;
mod refusals;
mod requester_socket;
mod responders;
mod service_socket;
mod standing;
mod transaction_socket;
mod users;

pub use incoming::Incoming;
pub use refusals::refused;
pub use requester_socket::Question;
pub use responders::{answer, hear, release};
pub use service_socket::SERVICE_SOCKET;
pub use transaction_socket::{REQUESTER_SOCKET, TransactionSocket};
pub use users::LastPacket;
