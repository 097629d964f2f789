//! A cable of UDP sockets on this machine. One payload is one datagram.
#![tactic(auto)]

mod answer;
mod bind;
mod calls;
mod local;
mod socket;
mod udp;

pub use bind::BindFault;
pub use local::LocalSocket;
pub use socket::Socket;
pub use udp::UdpCable;
