//! A play of a list of events, whose transcript is whole, or goes up to the first event that is refused.
use at_event::{Call, ZoneCall};
use at_print::{Printer, write_event};
use at_schedule::read_setup;
use at_setup::Setup;
use at_world::{Event, EventFault, Refusal, Transcript, play};
use at_zip::TableChoice;
use std::alloc::Global;
use std::process::Abort;

// What the node asks, and what the router answers.
static ASKED: &[u8] =
    b"\x00\x15\x67\x11\x00\x0A\x00\x0A\x01\x05\x06\x80\x03\x40\x01\x00\x00\x08\x00\x00\x01";

static ANSWERED: &[u8] =
    b"\x00\x20\xCA\x71\x00\x0A\x00\x0A\x05\x01\x80\x06\x03\x90\x00\x00\x00\x01\x00\x00\x02\x03Lab\x06Office";

fn compare(rt: &impl Abort, alloc: Global, transcript: &Transcript) {
    let mut text = Vec::new(alloc);
    let mut printer = Printer::new(&mut text);
    for (event, report) in transcript.reports.as_slice().iter().enumerate() {
        write_event(&mut printer, event, report);
    }
    let want = b"0 begun 0\n1 served 1\n2 zones Lab Office\n";
    assert!(rt; text.as_slice() == want.as_slice());
    assert!(rt; transcript.sent.len() == 2);
    assert!(rt; transcript.sent.get(0).bytes == ASKED);
    assert!(rt; transcript.sent.get(1).bytes == ANSWERED);
}

const SETUP: &[u8] = b"net 10\nnode 1 router zone Lab\nnode 5 zone Lab\nzones Lab Office\n";

// The last datagram was not sent.
const EVENTS: [Event; 4] = [
    Event::Call {
        node: 5,
        call: Call::Zones(ZoneCall::Read {
            which: TableChoice::All,
        }),
    },
    Event::Deliver {
        datagram: 0,
        node: 1,
    },
    Event::Deliver {
        datagram: 1,
        node: 5,
    },
    Event::Deliver {
        datagram: 2,
        node: 5,
    },
];

fn compare_stopped(rt: &impl Abort, alloc: Global, setup: &Setup, events: &[Event]) {
    assert!(rt; setup.is_lawful());
    let stopped = play(alloc, setup, events).err();
    let stopped = stopped.expect(rt, "played to the end");
    let no_datagram = EventFault::Refused(Refusal::NoDatagram);
    assert!(rt; (stopped.fault, stopped.at) == (no_datagram, 3));
    compare(rt, alloc, &stopped.transcript);
}

fn compare_played(rt: &impl Abort, alloc: Global, setup: &Setup, events: &[Event]) {
    assert!(rt; setup.is_lawful());
    let played = play(alloc, setup, events).ok();
    compare(rt, alloc, &played.expect(rt, "stopped"));
}

#[test]
fn a_play_of_events_goes_up_to_the_first_that_is_refused(rt: HostRuntime) {
    let mut text = SETUP;
    let setup = read_setup(rt.alloc(), &mut text).expect(&rt, "a fault");
    let events = EVENTS;
    compare_stopped(&rt, rt.alloc(), &setup, &events);
    compare_played(&rt, rt.alloc(), &setup, &events[..3]);
}
