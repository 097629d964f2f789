//! The finds of a lookup beside the plain list that their contracts speak of, over the same replies.
use crate::chance::following;
use at_ddp::{Address, Outbox, Pascal};
use at_nbp::{Find, Function, Lookup, MAX_FINDS, Name, Tuple, decode, encode};
use std::alloc::Global;
use std::process::Abort;

const OWN: Address = Address {
    net: 10,
    node: 5,
    socket: 2,
};

const REPLIES: u32 = 3_000;

/// Texts of names: finds are compared byte for byte, so these are eight.
const TEXTS: [&[u8]; 8] = [
    b"ada", b"Ada", b"ADA", b"eve", b"Eve", b"\x8Aeve", b"\x80EVE", b"max",
];

fn text(rt: &impl Abort, bytes: &[u8]) -> Pascal {
    Pascal::new(bytes).expect(rt, "a string is too long")
}

fn anything(rt: &impl Abort) -> Name {
    Name {
        object: text(rt, b"="),
        kind: text(rt, b"="),
        zone: text(rt, b"*"),
    }
}

// A name of one of 8 objects and 2 types, on one of 32 sockets.
fn drawn(rt: &impl Abort, number: u32) -> Find {
    Find {
        name: Name {
            object: text(rt, TEXTS[(number >> 16) as usize % 8]),
            kind: text(rt, TEXTS[(number >> 19) as usize % 2]),
            zone: text(rt, b"Lab"),
        },
        address: Address {
            socket: 128 + ((number >> 20) % 32) as u8,
            ..OWN
        },
        enumerator: 0,
    }
}

fn tuple_of(find: &Find) -> Tuple<'_> {
    Tuple {
        address: find.address,
        enumerator: find.enumerator,
        object: find.name.object.bytes(),
        kind: find.name.kind.bytes(),
        zone: find.name.zone.bytes(),
    }
}

// A reply that brings a find.
fn reply(rt: &(impl Abort + AllocGlobal), id: u8, find: &Find) -> Vec<u8> {
    let mut bytes = Vec::new(rt.alloc());
    encode(Function::Reply, id, &[tuple_of(find)], &mut bytes).expect(rt, "no reply");
    bytes
}

// Keeps a find that is new, while there is a place for it, and returns how many it kept.
fn keep_plainly(rt: &impl Abort, plain: &mut Vec<Find>, find: &Find) -> usize {
    if plain.len() >= MAX_FINDS || plain.iter().any(|known| known == find) {
        return 0;
    }
    plain.push(find.copy()).expect(rt, "no memory");
    1
}

// A lookup of anything, which is open, and its identifier.
fn open_lookup(rt: &impl Abort, alloc: Global) -> (Lookup, u8) {
    let mut out = Outbox::new(alloc);
    out.send_from(OWN, 2);
    let mut lookup = Lookup::new(alloc, OWN, OWN, Function::LookUp);
    let id = lookup.start(anything(rt), &mut out);
    (lookup, id.expect(rt, "no lookup"))
}

// How many finds a reply brings to a lookup.
fn receive(rt: &impl Abort, lookup: &mut Lookup, bytes: &[u8]) -> usize {
    let (packet, _) = decode(bytes).expect(rt, "no packet");
    lookup.receive(&packet).expect(rt, "no memory")
}

#[test]
fn the_finds_of_a_lookup_are_the_plain_list_of_what_is_new(rt: HostRuntime) {
    let (mut lookup, id) = open_lookup(&rt, rt.alloc());
    let mut plain = Vec::new(rt.alloc());
    let mut number = 1u32;
    for _reply in 0..REPLIES {
        number = following(number);
        let find = drawn(&rt, number);
        let kept = receive(&rt, &mut lookup, &reply(&rt, id, &find));
        assert!(rt; kept == keep_plainly(&rt, &mut plain, &find));
    }
    assert!(rt; lookup.count(id) == Ok(MAX_FINDS));
    assert!(rt; plain.len() == MAX_FINDS);
}
