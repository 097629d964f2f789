//! A client asks a service of your own for a sum. The datagrams are handed from node to node until none is left.
ghost use Rattle.std.specs.Prelude.{◌≡◌, List};
ghost use Rattle.at_atp_frame.specs.Packets.{Packet as Parts};
ghost use Rattle.at_event.specs.declared.service.Reply.TheVariants.{Now};

use at_adsp_end::Rooms;
use at_atp::{Key, Packet};
use at_ddp::{Bytes, Listed, Outbox};
use at_event::{
    Call, Deferring, PacketCount, Reply, Report, Seat, Service, TransactionCall, TransactionReport,
};
use at_node::{Node, Settings};
use std::alloc::{AllocError, Global};
use std::io;

const CLIENT: u8 = 5;

const SERVER: u8 = 7;

/// The rooms of the ends of streams, which this example does without.
const ROOMS: Rooms = Rooms {
    receive: 64,
    send: 64,
};

/// A loop must be proved to end, so it has a bound. This exchange ends after three rounds.
const MOST_ROUNDS: u32 = 10;

/// The service: it answers each request at once with the sum of the request's bytes.
#[derive(Clone, Copy)]
struct Adding {
    /// The memory that its answers are made in.
    alloc: Global,
}

impl Service<Global> for Adding {
    // The answer comes at once, and not later by a call of the node.
    ghost serves = { λ before key user bytes said after. (packets : List Parts) × (said ≡ Now packets) };

    fn serve(&mut self, _key: Key, _user: [u8; 4], bytes: &[u8]) -> Result<Reply, AllocError> {
        // The sum goes into the four user bytes, so the packet needs no data.
        let no_data = Bytes::copy_of(self.alloc, &[])?;
        let packet = Packet::new(sum_of(bytes).to_be_bytes(), no_data);
        let packets = Vec::from_array(self.alloc, [packet])?;
        Ok(Reply::Now(Listed::from_vec(packets)))
    }
}

fn sum_of(bytes: &[u8]) -> u32 {
    let mut sum = 0u32;
    for byte in bytes {
        sum = sum.wrapping_add(u32::from(*byte));
    }
    sum
}

/// Shows a client that asks and a service that answers.
pub(crate) fn run<R: Print + AllocGlobal>(rt: &R) -> io::Result<()> {
    let mut client = node(rt.alloc(), CLIENT);
    let mut server = node(rt.alloc(), SERVER);
    let told = exchange(rt, &mut client, &mut server);
    // By these calls. Wherever a node ends without one, its end is proved anew, which takes a minute.
    drop(server);
    drop(client);
    told
}

// A node of network 10, which has no router.
fn node(alloc: Global, number: u8) -> Node {
    let seat = Seat {
        net: 10,
        number,
        router: None,
    };
    let settings = Settings {
        seat,
        zone: None,
        tables: None,
        neighbours: None,
        rooms: ROOMS,
    };
    Node::new(alloc, settings)
}

// The client asks, and datagrams are handed over until none is left.
fn exchange<R: Print + AllocGlobal>(
    rt: &R,
    client: &mut Node,
    server: &mut Node,
) -> io::Result<()> {
    let mut sent = Outbox::new(rt.alloc());
    ask(rt, client, &mut sent)?;
    for _round in 0..MOST_ROUNDS {
        sent = hand_over(rt, client, server, &sent)?;
    }
    println!(rt; "datagrams left: {}", sent.len())
}

// The client asks, and sends what it asks.
fn ask<R: Print + AllocGlobal>(rt: &R, client: &mut Node, sent: &mut Outbox) -> io::Result<()> {
    let request = request(rt.alloc())?;
    let report = client.call(&request, sent);
    tell(rt, CLIENT, &report)
}

// What the client asks. A node's service always has socket 129.
fn request(alloc: Global) -> Result<Call, AllocError> {
    Ok(Call::Transactions(TransactionCall::Ask {
        node: SERVER,
        socket: 129,
        user: [0; 4],
        data_: Bytes::copy_of(alloc, &[2, 3, 5])?,
        wanted: PacketCount::new(1).unwrap(),
        exactly_once: true,
        retries: 3,
    }))
}

// Hands each datagram to the node that it goes to. What the nodes send in return is the next list.
fn hand_over<R: Print + AllocGlobal>(
    rt: &R,
    client: &mut Node,
    server: &mut Node,
    sent: &Outbox,
) -> io::Result<Outbox> {
    let mut next = Outbox::new(rt.alloc());
    for index in 0..sent.len() {
        let (to, bytes) = (sent.node(index), sent.get(index));
        match to {
            SERVER => serve(rt, server, bytes, &mut next)?,
            _ => receive(rt, client, bytes, &mut next)?,
        }
    }
    Ok(next)
}

// The service keeps nothing between requests, so each datagram finds one of its own.
fn serve<R: Print + AllocGlobal>(
    rt: &R,
    server: &mut Node,
    bytes: &[u8],
    next: &mut Outbox,
) -> io::Result<()> {
    let mut service = Adding { alloc: rt.alloc() };
    let report = server.receive(&mut service, bytes, next);
    tell(rt, SERVER, &report)
}

// The client has no service.
fn receive<R: Print>(rt: &R, client: &mut Node, bytes: &[u8], next: &mut Outbox) -> io::Result<()> {
    let report = client.receive(&mut Deferring, bytes, next);
    tell(rt, CLIENT, &report)
}

// Prints what a node reports, in a line.
fn tell(rt: &impl Print, node: u8, report: &Report) -> io::Result<()> {
    match report {
        Report::Transactions(TransactionReport::Begun(tid)) => println!(rt;
            "node {node} sends request {tid}"
        ),
        Report::Transactions(TransactionReport::Asked { data_, .. }) => tell_asked(rt, node, data_),
        Report::Transactions(TransactionReport::Response { packets, .. }) => tell_answer(
            rt,
            node,
            packets.as_slice(),
        ),
        Report::Transactions(TransactionReport::Released) => println!(rt;
            "node {node} learns that its answer came, and forgets it"
        ),
        Report::NoMemory => println!(rt; "node {node} is out of memory"),
        _ => println!(rt; "node {node} has something else to report"),
    }
}

fn tell_asked(rt: &impl Print, node: u8, data: &Bytes) -> io::Result<()> {
    println!(rt;
        "node {node} is asked for the sum of {:?}, and answers",
        data.as_slice()
    )
}

fn tell_answer(rt: &impl Print, node: u8, packets: &[Packet]) -> io::Result<()> {
    for packet in packets {
        println!(rt;
            "node {node} is told that the sum is {}",
            u32::from_be_bytes(packet.user())
        )?;
    }
    Ok(())
}
