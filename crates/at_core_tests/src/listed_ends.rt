//! The ends of streams beside a plain list of their identifiers and remotes, over the same calls.
use crate::chance::following;
use at_adsp_ends::{EndChange, Ends, MAX_ENDS, Remote, Rooms};
use at_adsp_frame::{Body, OpenKind, Segment};
use at_ddp::{Address, Outbox};
use std::process::Abort;

/// The address of all ends.
const HERE: Address = Address {
    net: 10,
    node: 9,
    socket: 130,
};

const ROOMS: Rooms = Rooms {
    receive: 1,
    send: 1,
};

/// The other ends are at so many nodes, under so many identifiers each.
const NODES: u32 = 3;

const IDS: u32 = 6;

const CALLS: u32 = 400;

/// An end of the list.
#[derive(Drop)]
struct Plain {
    id: u16,
    remote: Option<Remote>,
}

/// The ends, and the identifier to try next.
#[derive(Drop)]
struct PlainEnds {
    next: u16,
    ends: Vec<Plain>,
}

fn remote_of(number: u32) -> Remote {
    let address = Address {
        node: (number % NODES) as u8 + 1,
        ..HERE
    };
    Remote {
        address,
        id: (number / NODES % IDS) as u16 + 1,
    }
}

fn has_remote(plain: &PlainEnds, remote: Remote) -> bool {
    plain.ends.iter().any(|end| end.remote == Some(remote))
}

// The identifier of the next end: the first from the next one on that no end has. It goes round after no call here.
fn next_id(plain: &PlainEnds) -> Option<u16> {
    if plain.ends.len() >= MAX_ENDS {
        return None;
    }
    (plain.next..u16::MAX).find(|id| plain.ends.iter().all(|end| end.id != *id))
}

fn push(rt: &impl Abort, plain: &mut PlainEnds, id: u16, remote: Option<Remote>) {
    plain
        .ends
        .push(Plain { id, remote })
        .expect(rt, "no memory");
    plain.next = id.saturating_add(1);
}

// What came of a segment of this remote, or of a closing.
fn note(rt: &impl Abort, plain: &mut PlainEnds, step: EndChange, remote: Remote) {
    match step {
        EndChange::Made(id) => push(rt, plain, id, Some(remote)),
        EndChange::Opened(id) => open(plain, id, remote),
        EndChange::Denied(id) | EndChange::Freed(id) => plain.ends.retain(|end| end.id != id),
        _ => {}
    }
}

fn open(plain: &mut PlainEnds, id: u16, remote: Remote) {
    for end in plain.ends.iter_mut() {
        if end.id == id {
            end.remote = Some(remote);
        }
    }
}

fn opening(remote: Remote, kind: OpenKind, dest: u16) -> Segment<'static> {
    Segment {
        source: remote.id,
        first: 0,
        next: 0,
        window: 1,
        ack: false,
        body: Body::Open { kind, dest },
    }
}

// The identifier of an end that stands, if any does.
fn some_end(plain: &PlainEnds, number: u32) -> u16 {
    let count = plain.ends.len().max(1);
    match plain.ends.get(number as usize % count) {
        Some(end) => end.id,
        None => 0,
    }
}

// One call or segment, which the number tells.
fn call<R: AllocGlobal + Abort>(rt: &R, ends: &mut Ends, plain: &mut PlainEnds, number: u32) {
    let mut out = Outbox::new(rt.alloc());
    out.send_from(HERE, 7);
    let remote = remote_of(number >> 8);
    let dest = some_end(plain, number >> 16);
    let kind = match number >> 29 {
        0 => {
            if let Ok(id) = ends.connect(remote.address, &mut out) {
                push(rt, plain, id, None);
            }
            return;
        }
        1 => {
            if let Ok(step) = ends.close(dest, &mut out) {
                note(rt, plain, step, remote);
            }
            return;
        }
        2 | 3 => OpenKind::Request,
        4 => OpenKind::Denial,
        5 => OpenKind::Acknowledgement,
        _ => OpenKind::RequestAndAcknowledgement,
    };
    let segment = opening(remote, kind, dest);
    let step = ends
        .receive(remote.address, &segment, &mut out)
        .expect(rt, "no memory");
    note(rt, plain, step, remote);
}

// Both have the same remotes, and give the same identifier next.
fn compare(rt: &impl Abort, ends: &Ends, plain: &PlainEnds) {
    assert!(rt; ends.next_id() == next_id(plain));
    for number in 0..NODES * IDS {
        let remote = remote_of(number);
        assert!(rt; ends.has_remote(remote.address, remote.id) == has_remote(plain, remote));
    }
}

#[test]
fn ends_are_found_as_in_a_plain_list(rt: HostRuntime) {
    let mut ends = Ends::new(rt.alloc(), ROOMS);
    let mut plain = PlainEnds {
        next: 1,
        ends: Vec::new(rt.alloc()),
    };
    ends.listen(true);
    let mut number = 1u32;
    let mut most = 0;
    for _call in 0..CALLS {
        number = following(number);
        call(&rt, &mut ends, &mut plain, number);
        compare(&rt, &ends, &plain);
        most = most.max(plain.ends.len());
    }
    // The calls fill the table.
    assert!(rt; most == MAX_ENDS);
}
