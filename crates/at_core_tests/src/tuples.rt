//! The tuples of a decoded packet, one after the other.
use at_ddp::Address;
use at_nbp::{Function, Tuple, Tuples, decode, encode};
use std::process::Abort;

const ADA: Tuple<'static> = Tuple {
    address: Address {
        net: 10,
        node: 5,
        socket: 130,
    },
    enumerator: 0,
    object: b"ada",
    kind: b"AFPServer",
    zone: b"*",
};

const EVE: Tuple<'static> = Tuple {
    address: Address {
        net: 10,
        node: 7,
        socket: 131,
    },
    enumerator: 1,
    object: b"",
    kind: b"Workstation",
    zone: b"Lab",
};

// A packet with these tuples, and bytes after it that would spell a tuple.
fn spelled(rt: &(impl Abort + AllocGlobal), function: Function, tuples: &[Tuple<'_>]) -> Vec<u8> {
    let mut bytes = Vec::new(rt.alloc());
    encode(function, 9, tuples, &mut bytes).expect(rt, "no packet");
    bytes.extend_from_slice(&[0; 8]).expect(rt, "no memory");
    bytes
}

// The tuples that are left are these, in this order.
fn compare(rt: &impl Abort, mut left: Tuples<'_>, tuples: &[Tuple<'_>]) {
    for (index, tuple) in tuples.iter().enumerate() {
        assert!(rt; left.unread() == tuples.len() - index);
        assert!(rt; left.next() == Some(*tuple));
    }
    for _again in 0..2 {
        assert!(rt; left.next() == None);
    }
}

#[test]
fn the_tuples_of_a_reply_come_in_their_order_and_end(rt: HostRuntime) {
    for tuples in [[ADA, EVE].as_slice(), &[]] {
        let bytes = spelled(&rt, Function::Reply, tuples);
        let (packet, _) = decode(&bytes).expect(&rt, "no packet");
        compare(&rt, packet.tuples.iter(), tuples);
        assert!(rt; packet.tuples.unread() == tuples.len());
    }
}

#[test]
fn a_packet_that_asks_has_one_tuple(rt: HostRuntime) {
    let bytes = spelled(&rt, Function::LookUp, &[EVE]);
    let (packet, _) = decode(&bytes).expect(&rt, "no packet");
    assert!(rt; packet.tuples.unread() == 1);
    assert!(rt; packet.tuples.only() == EVE);
}
