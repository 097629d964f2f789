//! Checksums, a datagram without data, and the memory that datagrams take.
use at_ddp::{Address, DdpFault, Outbox, decode, encode, rotating_sum};
use std::fs;
use std::process::Abort;
use std::rt::Files;

/// The client's socket.
const ASKER: Address = Address {
    net: 10,
    node: 5,
    socket: 128,
};

/// The router's socket for zones.
const ROUTER: Address = Address {
    net: 10,
    node: 1,
    socket: 6,
};

// Bytes and their checksums.
static SUMS: [(&[u8], u16); 5] = [
    (b"", 0xFFFF),
    (b"\0\0\0", 0xFFFF),
    (b"\x01", 2),
    // A 1 is rotated by 16 places, and 0x80 by 9: the ninth moves the top bit to the bottom.
    (b"\x01\0\0\0\0\0\0\0\0\0\0\0\0\0\0\0", 1),
    (b"\x80\0\0\0\0\0\0\0\0", 1),
];

static EMPTY: &[u8] = b"\x00\x0D\x0F\x26\x00\x0A\x00\x0A\x01\x05\x06\x80\x03";

#[test]
fn bytes_have_their_checksums(rt: HostRuntime) {
    for (bytes, sum) in SUMS.iter() {
        assert!(rt; rotating_sum(bytes) == *sum);
    }
}

#[test]
fn a_datagram_without_data_is_its_header(rt: HostRuntime) {
    let mut out = Vec::new(rt.alloc());
    assert!(rt; encode(ROUTER, ASKER, 3, &[], &mut out) == Ok(()));
    assert!(rt; out.as_slice() == EMPTY);
}

#[test]
fn each_datagram_is_from_the_socket_that_named_itself_last(rt: HostRuntime) {
    let mut out = Outbox::new(rt.alloc());
    assert!(rt; out.is_empty());
    out.send_from(ASKER, 3);
    assert!(rt; out.push(ROUTER, b"ask") == Ok(()));
    out.send_from(ROUTER, 7);
    assert!(rt; out.push(ASKER, b"answer") == Ok(()));
    let (first, _) = decode(out.get(0)).expect(&rt, "no datagram");
    assert!(rt; (first.to, first.from, first.kind, first.data_) == (ROUTER, ASKER, 3, &b"ask"[..]));
    let (second, _) = decode(out.get(1)).expect(&rt, "no datagram");
    assert!(rt; (second.to, second.from, second.kind) == (ASKER, ROUTER, 7));
    assert!(rt; (out.node(0), out.node(1)) == (1, 5));
}

#[test]
fn twelve_bytes_are_too_short_for_a_datagram(rt: HostRuntime) {
    assert!(rt; decode(&EMPTY[..12]) == Err(DdpFault::Short));
}

// The most memory that the process has held so far, in kilobytes.
fn most_memory<R: Files + AllocGlobal + Abort>(rt: &R) -> u64 {
    let state = fs::read_to_string(rt, "/proc/self/status").expect(rt, "no state");
    let (_, rest) = state.as_str().split_once("VmHWM:").expect(rt, "no peak");
    let word = rest.split_whitespace().next().expect(rt, "no number");
    word.parse().expect(rt, "no number")
}

#[test]
fn a_million_datagrams_of_30_bytes_take_less_than_100_megabytes(rt: HostRuntime) {
    let before = most_memory(&rt);
    let mut out = Outbox::new(rt.alloc());
    out.send_from(ASKER, 3);
    // There is room for half of the pushes, so that the list grows for the others.
    assert!(rt; out.room(500_000, 17) == Ok(()));
    for _ in 0..1_000_000u32 {
        assert!(rt; out.push(ROUTER, &[0; 17]) == Ok(()));
    }
    assert!(rt; out.len() == 1_000_000);
    let taken = most_memory(&rt).saturating_sub(before);
    assert!(rt; 30_000 < taken && taken < 100_000);
}
