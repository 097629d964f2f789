//! Ends whose sequence numbers begin again at 0. What an end sent and expects is seen by what its timers send.
use at_adsp_end::{End, EndChange, Item, Remote, Rooms, Tick};
use at_adsp_frame::{Body, Segment};
use at_ddp::{Address, HEADER_LEN, Outbox};
use std::process::Abort;

/// The socket of the other end.
const HOST: Address = Address {
    net: 10,
    node: 7,
    socket: 130,
};

/// The other end.
const REMOTE: Remote = Remote {
    address: HOST,
    id: 2,
};

/// Each queue holds five items.
const ROOMS: Rooms = Rooms {
    receive: 5,
    send: 5,
};

/// The last number but one.
const FIRST: u32 = 0xFFFF_FFFE;

const ABCDE: [Item; 5] = [
    Item::Byte(b'a'),
    Item::Byte(b'b'),
    Item::Byte(b'c'),
    Item::Byte(b'd'),
    Item::Byte(b'e'),
];

// A segment was heard, and brought so many items.
fn heard(items: u16) -> EndChange {
    EndChange::Heard { id: 1, items }
}

fn outbox<R: AllocGlobal>(rt: &R) -> Outbox {
    let mut out = Outbox::new(rt.alloc());
    out.send_from(HOST, 7);
    out
}

// An open end whose next item has the last number but one in both directions. It may send as many items as this window
// holds.
fn end_with<R: AllocGlobal + Abort>(rt: &R, window: u16) -> End {
    let mut end = End::open_at(rt.alloc(), ROOMS, 1, REMOTE, FIRST).expect(rt, "out of memory");
    assert!(rt; hear(rt, &mut end, FIRST, FIRST, window, Body::Probe, &[]) == heard(0));
    end
}

// The segments that were sent are these.
fn sends<R: Abort>(rt: &R, out: Outbox, want: &[&[u8]]) {
    assert!(rt; out.len() == want.len());
    for index in 0..out.len() {
        assert!(rt; out.get(index).get(HEADER_LEN..) == want.get(index).copied());
    }
}

// The end hears a segment, and sends these.
fn hear<R: AllocGlobal + Abort>(
    rt: &R,
    end: &mut End,
    first: u32,
    next: u32,
    window: u16,
    body: Body<'_>,
    want: &[&[u8]],
) -> EndChange {
    let segment = Segment {
        source: 2,
        first,
        next,
        window,
        ack: matches!(body, Body::Data { .. }),
        body,
    };
    let mut out = outbox(rt);
    let step = end.receive(&segment, &mut out).expect(rt, "out of memory");
    sends(rt, out, want);
    step
}

// The end writes items, and sends these.
fn write<R: AllocGlobal + Abort>(rt: &R, end: &mut End, items: &[Item], want: &[&[u8]]) -> usize {
    let mut out = outbox(rt);
    let count = end.write(items, &mut out).expect(rt, "out of memory");
    sends(rt, out, want);
    count
}

// A timer of the end fires, and the end sends these.
fn tick<R: AllocGlobal + Abort>(rt: &R, end: &mut End, tick: Tick, want: &[&[u8]]) -> EndChange {
    assert!(rt; !end.is_closed());
    let mut out = outbox(rt);
    let step = end.tick(tick, &mut out).expect(rt, "out of memory");
    sends(rt, out, want);
    step
}

// The end waits for no answer, and this is its probe, which has the number of its next item.
fn waits_for_nothing<R: AllocGlobal + Abort>(rt: &R, end: &mut End, probe: &[u8]) {
    assert!(rt; tick(rt, end, Tick::Retransmit, &[]) == EndChange::Idle);
    assert!(rt; tick(rt, end, Tick::Probe, &[probe]) == EndChange::Again);
}

#[test]
fn three_items_from_the_last_number_but_one_end_at_one(rt: HostRuntime) {
    let mut end = end_with(&rt, 5);
    let abc: &[u8] = b"\0\x01\xFF\xFF\xFF\xFE\xFF\xFF\xFF\xFE\0\x05\x40abc";
    assert!(&rt; write(&rt, &mut end, &ABCDE[..3], &[abc]) == 3);
    assert!(&rt; hear(&rt, &mut end, FIRST, 1, 5, Body::Probe, &[]) == heard(0));
    waits_for_nothing(&rt, &mut end, b"\0\x01\0\0\0\x01\xFF\xFF\xFF\xFE\0\x05\xC0");
}

#[test]
fn a_reset_across_the_wrap_leads_to_one(rt: HostRuntime) {
    let mut end = end_with(&rt, 5);
    let abc: &[u8] = b"\0\x01\xFF\xFF\xFF\xFE\xFF\xFF\xFF\xFE\0\x05\x40abc";
    assert!(&rt; write(&rt, &mut end, &ABCDE[..3], &[abc]) == 3);
    let mut out = outbox(&rt);
    assert!(&rt; end.reset(&mut out) == Ok(()));
    sends(&rt, out, &[b"\0\x01\0\0\0\x01\xFF\xFF\xFF\xFE\0\x05\x86"]);
    let mut other = end_with(&rt, 5);
    let answer: &[u8] = b"\0\x01\xFF\xFF\xFF\xFE\0\0\0\x01\0\x05\x87";
    assert!(&rt;
        hear(&rt, &mut other, 1, FIRST, 5, Body::Reset, &[answer]) == EndChange::Dropped(1)
    );
    assert!(&rt; hear(&rt, &mut end, FIRST, 1, 5, Body::ResetAck, &[]) == heard(0));
    waits_for_nothing(&rt, &mut end, b"\0\x01\0\0\0\x01\xFF\xFF\xFF\xFE\0\x05\xC0");
}

#[test]
fn old_data_from_before_the_wrap_is_not_taken_again(rt: HostRuntime) {
    let mut end = end_with(&rt, 5);
    let abc = Body::Data {
        end: false,
        data_: b"abc",
    };
    let taken: &[u8] = b"\0\x01\xFF\xFF\xFF\xFE\0\0\0\x01\0\x02\x80";
    assert!(&rt; hear(&rt, &mut end, FIRST, FIRST, 5, abc, &[taken]) == heard(3));
    assert!(&rt; hear(&rt, &mut end, FIRST, FIRST, 5, abc, &[taken]) == heard(0));
    waits_for_nothing(&rt, &mut end, b"\0\x01\xFF\xFF\xFF\xFE\0\0\0\x01\0\x02\xC0");
    assert!(&rt; end.unread() == 3);
}

#[test]
fn a_window_across_the_wrap_does_not_move_back(rt: HostRuntime) {
    let mut end = end_with(&rt, 4);
    let abcd: &[u8] = b"\0\x01\xFF\xFF\xFF\xFE\xFF\xFF\xFF\xFE\0\x05\x40abcd";
    assert!(&rt; write(&rt, &mut end, &ABCDE, &[abcd]) == 5);
    // All before 0 is acknowledged, and the window ends at 1, which is before 2.
    assert!(&rt; hear(&rt, &mut end, FIRST, 0, 1, Body::Probe, &[]) == heard(0));
    let e: &[u8] = b"\0\x01\0\0\0\x02\xFF\xFF\xFF\xFE\0\x05\x40e";
    assert!(&rt; hear(&rt, &mut end, FIRST, 0, 3, Body::Probe, &[e]) == heard(0));
    let cde: &[u8] = b"\0\x01\0\0\0\0\xFF\xFF\xFF\xFE\0\x05\x40cde";
    assert!(&rt; tick(&rt, &mut end, Tick::Retransmit, &[cde]) == EndChange::Again);
}
