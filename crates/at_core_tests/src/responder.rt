//! The records of the side that answers.
use at_atp_frame::{Frame, Packet};
use at_atp_responder::{Key, NewRequest, Reception, Responder};
use at_ddp::{Address, Bytes, Outbox};
use std::alloc::Global;
use std::process::Abort;

const ASKER: Address = Address {
    net: 10,
    node: 5,
    socket: 128,
};

const SERVER: Address = Address {
    net: 10,
    node: 7,
    socket: 129,
};

const KEY: Key = Key {
    from: ASKER,
    tid: 9,
};

const REQUEST: Frame<'static> = Frame::Request {
    mask: 1,
    xo: false,
    timer: 0,
    tid: 9,
    user: [0; 4],
    data_: &[],
};

// A request that comes for the first time gets a record.
fn receive(rt: &impl Abort, alloc: Global, answerer: &mut Responder) {
    let mut out = Outbox::new(alloc);
    out.send_from(SERVER, 3);
    let reception = answerer.receive(ASKER, &REQUEST, &mut out);
    assert!(rt; reception == Ok(Reception::New(KEY)));
}

#[test]
fn a_request_has_a_record_under_its_key_alone(rt: HostRuntime) {
    let mut answerer = Responder::new(rt.alloc());
    receive(&rt, rt.alloc(), &mut answerer);
    assert!(rt; answerer.holds(KEY));
    assert!(rt; !answerer.holds(Key { tid: 8, ..KEY }));
}

#[test]
fn a_new_request_is_answered_without_a_record(rt: HostRuntime) {
    let answerer = Responder::new(rt.alloc());
    let request = answerer.new_request(ASKER, &REQUEST);
    let request = request.expect(&rt, "no request");
    assert!(rt;
        request
            == NewRequest {
                key: KEY,
                bitmap: 1
            }
    );
    let bytes = Bytes::copy_of(rt.alloc(), b"Lab").expect(&rt, "out of memory");
    let packets = [Packet::new([1, 0, 0, 1], bytes)];
    let mut out = Outbox::new(rt.alloc());
    out.send_from(SERVER, 3);
    let sent = Responder::answer_at_once(request, &packets, &mut out);
    assert!(rt; sent == Ok(1));
    assert!(rt; out.len() == 1);
    assert!(rt; !answerer.holds(KEY));
}

#[test]
fn a_request_that_has_a_record_is_not_new(rt: HostRuntime) {
    let mut answerer = Responder::new(rt.alloc());
    receive(&rt, rt.alloc(), &mut answerer);
    assert!(rt; answerer.new_request(ASKER, &REQUEST).is_none());
}
