//! A node's names beside the plain list that their contracts speak of, over the same calls.
use crate::chance::following;
use at_ddp::{Address, Pascal, same_text};
use at_nbp::{Find, MAX_NAMES, Names, NbpFault, Registered};
use std::process::Abort;

const OWN: Address = Address {
    net: 10,
    node: 5,
    socket: 2,
};

const CALLS: u32 = 4_000;

/// Texts of names: some differ by the case of letters alone.
const TEXTS: [&[u8]; 8] = [
    b"ada", b"Ada", b"ADA", b"eve", b"Eve", b"\x8Aeve", b"\x80EVE", b"max",
];

/// The names of the plain list.
type Plain = Vec<Registered>;

fn text(rt: &impl Abort, number: u32) -> Pascal {
    Pascal::new(TEXTS[(number % 8) as usize]).expect(rt, "a string is too long")
}

fn is_called(name: &Registered, object: &Pascal, kind: &Pascal) -> bool {
    same_text(name.object.bytes(), object.bytes()) && same_text(name.kind.bytes(), kind.bytes())
}

fn least_free(plain: &Plain, socket: u8) -> u8 {
    for number in 0..64 {
        let is_taken = plain
            .iter()
            .any(|name| name.socket == socket && name.enumerator == number);
        if !is_taken {
            return number;
        }
    }
    64
}

fn register_plainly(
    rt: &impl Abort,
    plain: &mut Plain,
    object: Pascal,
    kind: Pascal,
    socket: u8,
) -> Result<(), NbpFault> {
    if plain.iter().any(|name| is_called(name, &object, &kind)) {
        return Err(NbpFault::NameInUse);
    }
    if plain.len() >= MAX_NAMES {
        return Err(NbpFault::NamesFull);
    }
    let enumerator = least_free(plain, socket);
    let name = Registered {
        object,
        kind,
        socket,
        enumerator,
    };
    plain.push(name).expect(rt, "no memory");
    Ok(())
}

fn unregister_plainly(plain: &mut Plain, object: &Pascal, kind: &Pascal) -> Result<(), NbpFault> {
    for index in 0..plain.len() {
        if index < plain.len() && is_called(&plain[index], object, kind) {
            let _name = plain.remove(index);
            return Ok(());
        }
    }
    Err(NbpFault::NoSuchName)
}

// What is found is what was registered.
fn compare_found(rt: &impl Abort, found: &Find, name: &Registered) {
    assert!(rt; found.name.object == name.object);
    assert!(rt; found.name.kind == name.kind);
    assert!(rt; (found.address.socket, found.enumerator) == (name.socket, name.enumerator));
}

// What is found under an object and a type, in this spelling, is the same in both.
fn compare(rt: &impl Abort, names: &Names, plain: &Plain, object: &Pascal, kind: &Pascal) {
    let name = plain.iter().find(|name| is_called(name, object, kind));
    match (names.find(object, kind), name) {
        (Some(found), Some(name)) => compare_found(rt, &found, name),
        (found, name) => assert!(rt; found.is_none() && name.is_none()),
    }
}

#[test]
fn a_nodes_names_are_the_plain_list_of_what_was_registered(rt: HostRuntime) {
    let mut names = Names::new(rt.alloc(), OWN, None);
    let mut plain = Vec::new(rt.alloc());
    let mut number = 1u32;
    for _call in 0..CALLS {
        number = following(number);
        let object = text(&rt, number >> 16);
        let kind = text(&rt, number >> 19);
        if number >> 30 == 0 {
            let done = names.unregister(&object, &kind);
            assert!(rt; done == unregister_plainly(&mut plain, &object, &kind));
        } else {
            let socket = 128 + ((number >> 22) % 4) as u8;
            let done = names.register(text(&rt, number >> 16), text(&rt, number >> 19), socket);
            assert!(rt; done == register_plainly(&rt, &mut plain, object, kind, socket));
        }
        compare(
            &rt,
            &names,
            &plain,
            &text(&rt, number >> 10),
            &text(&rt, number >> 13),
        );
    }
    // The calls reach many names.
    assert!(rt; plain.len() > 16);
}
