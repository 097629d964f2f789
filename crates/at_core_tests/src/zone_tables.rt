//! The two zone tables of a router, and the requests that name one of them.
use at_ddp::{Listed, Pascal};
use at_zip::{TableChoice, Tables, ZipFault, Zones, read_request, request_user};
use std::alloc::Global;
use std::process::Abort;

// The table of one name.
fn table(rt: &impl Abort, alloc: Global, name: &[u8]) -> Zones {
    let name = Pascal::new(name).expect(rt, "a string is too long");
    let names = Vec::from_array(alloc, [name]).expect(rt, "out of memory");
    let zones = Zones::new(Listed::from_vec(names)).ok();
    zones.expect(rt, "no table")
}

// Whether a table has this one name.
fn has(zones: &Zones, name: &[u8]) -> bool {
    match zones.names() {
        [only] => only.bytes() == name,
        _ => false,
    }
}

// Whether the two tables have this one name each.
fn have(tables: &Tables, all: &[u8], local: &[u8]) -> bool {
    has(tables.get(TableChoice::All), all) && has(tables.get(TableChoice::Local), local)
}

#[test]
fn a_table_is_set_in_its_own_place(rt: HostRuntime) {
    let all = table(&rt, rt.alloc(), b"Lab");
    let mut tables = Tables::new(all, table(&rt, rt.alloc(), b"Hall"));
    assert!(rt; have(&tables, b"Lab", b"Hall"));
    tables.set(TableChoice::Local, table(&rt, rt.alloc(), b"Attic"));
    tables.limits();
    assert!(rt; have(&tables, b"Lab", b"Attic"));
    tables.set(TableChoice::All, table(&rt, rt.alloc(), b"Office"));
    assert!(rt; have(&tables, b"Office", b"Attic"));
}

#[test]
fn a_request_names_its_table_by_its_code(rt: HostRuntime) {
    assert!(rt; request_user(TableChoice::All, 258) == [8, 0, 1, 2]);
    assert!(rt; request_user(TableChoice::Local, 258) == [9, 0, 1, 2]);
    assert!(rt; matches!(read_request([8, 0, 1, 2]), Ok((TableChoice::All, 258))));
    assert!(rt; matches!(read_request([9, 7, 1, 2]), Ok((TableChoice::Local, 258))));
}

#[test]
fn a_request_of_another_code_or_from_place_0_is_none(rt: HostRuntime) {
    for user in [[7, 0, 0, 1], [10, 0, 0, 1], [8, 0, 0, 0], [9, 0, 0, 0]] {
        assert!(rt; matches!(read_request(user), Err(ZipFault::NotZip)));
    }
}
