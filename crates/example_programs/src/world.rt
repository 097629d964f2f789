//! A world of two nodes, stepped event by event: a request is lost, and the response to its retry comes late.
use at_atp::{Key, Packet};
use at_ddp::{Address, Bytes, Listed};
use at_event::{
    Call, PacketCount, Report, Timer, TransactionCall, TransactionReport, TransactionTimer,
};
use at_world::{Event, NodeSetup, Setup, World};
use std::alloc::{AllocError, Global};
use std::io;

const CLIENT: u8 = 5;

const SERVER: u8 = 7;

/// The number of their network.
const NET: u16 = 10;

/// The number of the transaction: a node numbers its transactions from 0.
const TID: u16 = 0;

/// How many events there are.
const EVENTS: u32 = 8;

/// Shows a request, its retry, and what comes of both.
pub(crate) fn run<R: Print + AllocGlobal>(rt: &R) -> io::Result<()> {
    let mut world = two_nodes(rt.alloc())?;
    let told = play(rt, &mut world);
    // By this call. Wherever a world ends without one, its end is proved anew.
    drop(world);
    told
}

fn two_nodes(alloc: Global) -> Result<World<Global>, AllocError> {
    let setup = setup(alloc)?;
    World::open(alloc, &setup)
}

// Network 10 has no router and so no zones.
fn setup(alloc: Global) -> Result<Setup, AllocError> {
    let nodes = Vec::from_array(alloc, [node(CLIENT), node(SERVER)])?;
    Ok(Setup {
        net: NET,
        nodes: Listed::from_vec(nodes),
        zones: Listed::from_vec(Vec::new(alloc)),
        local: Listed::from_vec(Vec::new(alloc)),
    })
}

fn node(number: u8) -> NodeSetup {
    NodeSetup {
        node: number,
        router: false,
        zone: None,
        receive_room: 64,
        send_room: 64,
    }
}

fn play<R: Print + AllocGlobal>(rt: &R, world: &mut World<Global>) -> io::Result<()> {
    for number in 0..EVENTS {
        step(rt, world, number)?;
    }
    Ok(())
}

// The event of a number, from 0 on.
fn event(alloc: Global, number: u32) -> Result<Event, AllocError> {
    match number {
        // The request is datagram 0. It is never delivered, so it is lost.
        0 => ask(alloc),
        // The retry sends datagram 1, and the answer to it is datagram 2.
        1 => Ok(retry()),
        2 => Ok(deliver(1, SERVER)),
        3 => answer(alloc),
        // Datagram 2 takes so long that the client asks again, by datagram 3. The response to that is faster.
        4 => Ok(retry()),
        5 => Ok(deliver(3, SERVER)),
        6 => Ok(deliver(4, CLIENT)),
        // Datagram 2 comes late: the transaction has ended.
        _ => Ok(deliver(2, CLIENT)),
    }
}

// Node 5 asks. A node asks from socket 128, and its service has socket 129.
fn ask(alloc: Global) -> Result<Event, AllocError> {
    let call = TransactionCall::Ask {
        node: SERVER,
        socket: 129,
        user: [0; 4],
        data_: Bytes::copy_of(alloc, b"time?")?,
        wanted: PacketCount::new(1).unwrap(),
        exactly_once: true,
        retries: 2,
    };
    Ok(called(CLIENT, call))
}

// Node 7 answers the request.
fn answer(alloc: Global) -> Result<Event, AllocError> {
    let packet = Packet::new([0; 4], Bytes::copy_of(alloc, b"noon")?);
    let packets = Vec::from_array(alloc, [packet])?;
    let from = Address {
        net: NET,
        node: CLIENT,
        socket: 128,
    };
    let call = TransactionCall::Answer {
        key: Key { from, tid: TID },
        packets: Listed::from_vec(packets),
    };
    Ok(called(SERVER, call))
}

fn called(node: u8, call: TransactionCall) -> Event {
    Event::Call {
        node,
        call: Call::Transactions(call),
    }
}

// Node 5's timer fires, as no answer has come.
fn retry() -> Event {
    Event::Timer {
        node: CLIENT,
        timer: Timer::Transactions(TransactionTimer::Retry { tid: TID }),
    }
}

// The datagram of this number comes to a node. Datagrams are numbered from 0, in the order in which they were sent.
fn deliver(datagram: u64, node: u8) -> Event {
    Event::Deliver { datagram, node }
}

// Plays the event of a number, and prints what came of it.
fn step<R: Print + AllocGlobal>(rt: &R, world: &mut World<Global>, number: u32) -> io::Result<()> {
    let event = event(rt.alloc(), number)?;
    match world.step(&event) {
        Ok(report) => tell(rt, number, &report),
        Err(fault) => println!(rt; "event {number} is not played: {fault}"),
    }
}

// Prints what an event of a number reports, in a line.
fn tell(rt: &impl Print, number: u32, report: &Report) -> io::Result<()> {
    match report {
        Report::Transactions(TransactionReport::Begun(tid)) => println!(rt;
            "event {number}: request {tid} is sent"
        ),
        Report::Again => println!(rt; "event {number}: what was sent before is sent again"),
        Report::Transactions(TransactionReport::Asked { .. }) => println!(rt;
            "event {number}: the service is asked"
        ),
        Report::Transactions(TransactionReport::Answered(count)) => println!(rt;
            "event {number}: the answer is sent, packets: {count}"
        ),
        Report::Transactions(TransactionReport::Response { tid, .. }) => println!(rt;
            "event {number}: request {tid} has its answer"
        ),
        Report::Ignored => println!(rt; "event {number}: the datagram is ignored"),
        _ => println!(rt; "event {number}: something else"),
    }
}
