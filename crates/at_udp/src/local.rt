//! The system's socket.
ghost use Rattle.std.specs.Prelude.{◌≡◌, [], ◌∷◌};
ghost use Rattle.std.specs.Net.Socket.{socket_port};
ghost use Rattle.at_udp.specs.Binds.{HasOctets};

use crate::socket::Socket;
use std::io;
use std::net::{Ipv4Addr, Net, SocketAddr, UdpSocket};

/// A socket of the system at a port of 127.0.0.1. No contract can say what the system answers, so any answer may come.
/// It is never connected, since a connected one blames a later call for a port that is closed.
#[derive(Drop)]
pub struct LocalSocket {
    socket: UdpSocket,
}

impl Socket for LocalSocket {
    ghost binds = { λ port answer. Unit {0} };

    ghost sends = { λ before bytes port answer after. Unit {0} };

    ghost receives = { λ before room answer after. Unit {0} };

    fn bind<R: Net>(net: &R, port: u16) -> io::Result<LocalSocket> {
        let socket = UdpSocket::bind(net, address_of(port))?;
        socket.set_nonblocking(true)?;
        Ok(LocalSocket { socket })
    }

    fn send(&mut self, bytes: &[u8], port: u16) -> io::Result<usize> {
        self.socket.send_to(bytes, address_of(port))
    }

    fn receive(&mut self, buffer: &mut [u8]) -> io::Result<usize> {
        self.socket.recv(buffer)
    }
}

// A port of this machine, which no other machine reaches.
fn address_of(port: u16) -> SocketAddr
    ensures address { HasOctets (127 ∷ 0 ∷ 0 ∷ 1 ∷ []) result }
    ensures port { socket_port result ≡ port }
{
    SocketAddr::from((Ipv4Addr::LOCALHOST, port))
}
