//! What an open stream asks of memory: room for what it sends, and nothing else.
use at_adsp_ends::{Ends, Item, Rooms};
use at_ddp::{ADSP, Address, Outbox, decode};
use refusing::Refusing;
use std::alloc::Global;
use std::process::Abort;

const ASKER: Address = Address {
    net: 10,
    node: 5,
    socket: 128,
};

const LISTENER: Address = Address {
    net: 10,
    node: 7,
    socket: 128,
};

const ROOMS: Rooms = Rooms {
    receive: 64,
    send: 64,
};

/// The identifier of the first end of a table.
const FIRST: u16 = 1;

type Heap<'a> = &'a Refusing<Global>;

fn outbox(heap: Heap<'_>, from: Address) -> Outbox<Heap<'_>> {
    let mut out = Outbox::new(heap);
    out.send_from(from, ADSP);
    out
}

// A table hears a datagram. There is nothing if memory is refused.
fn hear<'a>(bytes: &[u8], ends: &mut Ends<Heap<'a>>, answers: &mut Outbox<Heap<'a>>) -> Option<()> {
    let (datagram, _) = decode(bytes).ok()?;
    let segment = at_adsp_frame::decode(datagram.data_).ok()?;
    let _step = ends.receive(datagram.from, &segment, answers).ok()?;
    Some(())
}

// Delivers what was sent to a table, and returns what it sends then. There is none if memory is refused.
fn deliver<'a>(
    heap: Heap<'a>,
    sent: Outbox<Heap<'a>>,
    own: Address,
    ends: &mut Ends<Heap<'a>>,
) -> Option<Outbox<Heap<'a>>> {
    let mut answers = outbox(heap, own);
    for index in 0..sent.len() {
        hear(sent.get(index), ends, &mut answers)?;
    }
    Some(answers)
}

// Opens a stream between two tables, which take their own memory from the one heap, and that of what they send from the
// other. There is none if memory is refused.
fn open<'a>(
    asker: &mut Ends<Heap<'a>>,
    listener: &mut Ends<Heap<'a>>,
    wide: Heap<'a>,
) -> Option<()> {
    listener.listen(true);
    let mut request = outbox(wide, ASKER);
    let _id = asker.connect(LISTENER, &mut request).ok()?;
    let answer = deliver(wide, request, LISTENER, listener)?;
    let acknowledgement = deliver(wide, answer, ASKER, asker)?;
    let _none = deliver(wide, acknowledgement, LISTENER, listener)?;
    Some(())
}

// Fills the rooms of both ends, and reads what came.
fn carry<'a>(
    rt: &impl Abort,
    asker: &mut Ends<Heap<'a>>,
    listener: &mut Ends<Heap<'a>>,
    wide: Heap<'a>,
) {
    let items = [Item::Byte(7); 64];
    let mut sent = outbox(wide, ASKER);
    assert!(rt; asker.write(FIRST, &items, &mut sent) == Ok(64));
    let mut answers = deliver(wide, sent, LISTENER, listener).expect(rt, "memory was refused");
    let mut read = [Item::End; 64];
    assert!(rt; listener.read(FIRST, &mut read, &mut answers) == Ok(64));
    assert!(rt; read == items);
}

// Whether a stream opens. Then items are carried over it.
fn open_and_carry(rt: &impl Abort, heap: Heap<'_>, wide: Heap<'_>) -> bool {
    let mut asker = Ends::new(heap, ROOMS);
    let mut listener = Ends::new(heap, ROOMS);
    let opens = open(&mut asker, &mut listener, wide).is_some();
    if opens {
        carry(rt, &mut asker, &mut listener, wide);
    }
    opens
}

// A list that grows as it is written to asks for memory.
fn fails_to_grow(heap: Heap<'_>) -> bool {
    let mut list = Vec::new(heap);
    list.push(Item::End).is_err()
}

// Whether a stream opens with so many requests for memory. Then the next would be refused, and carrying makes none.
fn opens_with(rt: &impl Abort, alloc: Global, wide: Heap<'_>, granted: u64) -> bool {
    let heap = Refusing::new(alloc, granted);
    let opens = open_and_carry(rt, &heap, wide);
    assert!(rt; opens != heap.has_refused());
    assert!(rt; !opens || fails_to_grow(&heap));
    assert!(rt; heap.has_refused());
    opens
}

// How many requests for memory two tables make to open a stream.
fn requests_to_open(rt: &impl Abort, alloc: Global) -> u64 {
    let wide = Refusing::new(alloc, u64::MAX);
    for granted in 0..100u64 {
        if opens_with(rt, alloc, &wide, granted) {
            return granted;
        }
    }
    panic!(rt; "requests are refused without end")
}

#[test]
fn an_open_stream_asks_for_room_of_what_it_sends_alone(rt: HostRuntime) {
    assert!(rt; requests_to_open(&rt, rt.alloc()) > 2);
}
