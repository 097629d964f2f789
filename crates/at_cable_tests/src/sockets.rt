//! Cables of UDP sockets, at ports that are looked for and free: what no drive of the program brings about.
use at_cable::Cable;
use at_udp::{BindFault, LocalSocket, UdpCable};
use std::alloc::Global;
use std::net::{Ipv4Addr, Net, UdpSocket};
use std::process::Abort;

// A cable of node 5, and the port of its socket.
fn free_cable<R: Net + Abort>(rt: &R, alloc: Global) -> (UdpCable<LocalSocket>, u16) {
    for place in 0..100u16 {
        let first = 20_000 + place * 256;
        match UdpCable::bind(alloc, rt, first, &[5]) {
            Ok(cable) => return (cable, first + 5),
            Err(BindFault::NoSocket { .. }) => {}
            Err(BindFault::NoMemory) => panic!(rt; "out of memory"),
        }
    }
    panic!(rt; "no free ports")
}

#[test]
fn a_node_past_the_last_port_has_no_socket(rt: HostRuntime) {
    let unbound = match UdpCable::<LocalSocket>::bind(rt.alloc(), &rt, u16::MAX, &[5]) {
        Err(BindFault::NoSocket { node, port, .. }) => Some((node, port)),
        _ => None,
    };
    assert!(rt; unbound == Some((5, 65_540)));
}

#[test]
fn a_call_of_a_node_without_a_socket_fails(rt: HostRuntime) {
    let (mut cable, _) = free_cable(&rt, rt.alloc());
    let mut buffer = [0; 600];
    assert!(rt; cable.send(6, 5, b"a").is_err());
    assert!(rt; cable.receive(6, &mut buffer).is_err());
    assert!(rt; cable.failures() == 2);
}

// A receive that waits never ends, and the test with it.
#[test]
fn a_receive_does_not_wait(rt: HostRuntime) {
    let (mut cable, _) = free_cable(&rt, rt.alloc());
    let mut buffer = [0; 600];
    assert!(rt; cable.receive(5, &mut buffer) == Ok(None));
    assert!(rt; cable.failures() == 0);
}

// Sends a datagram of one byte from a socket that is of no cable.
fn send_byte<R: Net + Abort>(rt: &R, to: Ipv4Addr, port: u16) {
    let Ok(socket) = UdpSocket::bind(rt, (Ipv4Addr::LOCALHOST, 0)) else {
        panic!(rt; "no free port")
    };
    assert!(rt; matches!(socket.send_to(b"a", (to, port)), Ok(1)));
}

// Each address that begins with 127 is of this machine. A socket that is bound at all addresses gets both datagrams.
#[test]
fn a_socket_is_bound_at_one_address(rt: HostRuntime) {
    let (mut cable, port) = free_cable(&rt, rt.alloc());
    let mut buffer = [0; 600];
    send_byte(&rt, Ipv4Addr::new(127, 0, 0, 2), port);
    assert!(rt; cable.receive(5, &mut buffer) == Ok(None));
    send_byte(&rt, Ipv4Addr::LOCALHOST, port);
    assert!(rt; cable.receive(5, &mut buffer) == Ok(Some(1)));
}

// What is lost of a payload of over 600 bytes is its end.
#[test]
fn a_long_payload_is_cut(rt: HostRuntime) {
    let (mut cable, _) = free_cable(&rt, rt.alloc());
    let mut buffer = [0; 600];
    assert!(rt; cable.send(5, 5, &[7; 1_000]) == Ok(()));
    assert!(rt; cable.receive(5, &mut buffer) == Ok(Some(600)));
    assert!(rt; buffer == [7; 600]);
    assert!(rt; cable.receive(5, &mut buffer) == Ok(None));
}
