//! The calls, timers and reports of streams, and the rules on their words.
ghost use Rattle.std.specs.Prelude.{◌≡◌, ◌<◌, IfSome, IsSome, Some};
ghost use Rattle.std.specs.List.{AllByRecursion};
ghost use Rattle.at_adsp_end.specs.Items.{IsItem};
ghost use Rattle.at_event.specs.Kinds.Streams.{IsStreamCall, stream_sentence};
ghost use Rattle.at_adsp_frame.specs.Fault as segments;
ghost use Rattle.at_adsp_frame.specs.declared.fault.AdspFault.{AdspFault as SegmentWhy};
ghost use Rattle.at_adsp_end.specs.Fault as ends;
ghost use Rattle.at_adsp_end.specs.declared.fault.StreamFault.{StreamFault as EndWhy};

use at_adsp_end::{Item, StreamFault};
use at_adsp_frame::AdspFault;
use at_ddp::Listed;
use std::alloc::{Allocator, Global};

/// A call about streams.
#[derive(Drop)]
pub enum StreamCall<A: Allocator = Global> {
    /// Asks for a connection with the address of an entry of what the last finished lookup found.
    Open {
        /// The place of the entry, from 0.
        index: u64,
    },
    /// Sets whether requests for connections are answered.
    Listen {
        on: bool,
    },
    /// Asks a socket of the cable for a connection.
    Connect {
        node: u8,
        socket: u8,
    },
    /// Writes items to the end of a stream.
    Write {
        /// The identifier of the end.
        id: u16,
        items: Listed<Item, A>,
    },
    /// Reads items from the end of a stream, at most so many.
    Read {
        id: u16,
        count: u16,
    },
    /// Drops all that the end of a stream has queued for sending, and sends a forward reset.
    Reset {
        id: u16,
    },
    /// Closes the end of a stream, or frees one that is closed already or never opened.
    Close {
        id: u16,
    },
}

impl<A: Allocator> StreamCall<A> {
    pub(crate) fn ranges(&self)
        ensures { IsStreamCall self.now }
    {
        match self {
            StreamCall::Connect { node, socket } => {
                let _who = (*node, *socket);
            }
            StreamCall::Write { id, items } => ranges_of_written(*id, items.as_slice()),
            StreamCall::Read { id, count } => {
                let _what = (*id, *count);
            }
            StreamCall::Reset { id } | StreamCall::Close { id } => {
                let _id = *id;
            }
            StreamCall::Open { index: _ } | StreamCall::Listen { on: _ } => {}
        }
    }
}

// What is written to the end of a stream.
fn ranges_of_written(id: u16, items: &[Item])
    ensures id { id < 65536 }
    ensures items { AllByRecursion IsItem items.now }
{
    let _id = id;
    ranges_of_items(items);
}

fn ranges_of_items(items: &[Item])
    ensures { AllByRecursion IsItem items.now }
{
    if let [item, rest @ ..] = items {
        ranges_of_item(*item);
        ranges_of_items(rest);
    }
}

fn ranges_of_item(item: Item)
    ensures { IsItem item }
{
    if let Item::Byte(byte) = item {
        let _byte = byte;
    }
}

/// A timer of the end of a stream.
#[derive(Clone, Copy, Debug, PartialEq, Eq)]
pub enum StreamTimer {
    /// What the end sent last was not answered in time.
    Resend {
        /// The identifier of the end.
        id: u16,
    },
    /// The end heard nothing for a while.
    Probe {
        id: u16,
    },
}

/// How the words of a call or a timer of streams must be.
#[derive(Clone, Copy, Debug, PartialEq, Eq)]
pub enum StreamRule {
    /// `call N open I`
    Open,
    /// `call N listen on|off`
    Listen,
    /// `call N connect NODE SOCKET`
    Connect,
    /// `call N write ID ITEM ..`
    Write,
    /// `call N read ID COUNT`
    Read,
    /// `call N reset ID`
    Reset,
    /// `call N close ID`
    Close,
    /// `timer N resend ID`
    Resend,
    /// `timer N probe ID`
    Probe,
}

impl StreamRule {
    pub(crate) fn sentence(self) -> &'static str
        ensures { result.now ≡ stream_sentence self }
    {
        match self {
            StreamRule::Open =>
                "`open` takes the index of a name that was found, from 0, as in \"call 5 open 0\"",
            StreamRule::Listen => "`listen` takes `on` or `off`, as in \"call 7 listen on\"",
            StreamRule::Connect =>
                "`connect` takes a node and a socket, 1 to 254 each, as in \"call 5 connect 7 130\"",
            StreamRule::Write => {
                "`write` takes an end's identifier, 0 to 65535, and items, each pairs of hexadecimal digits, `-` for \
        no bytes, or `end`, as in \"call 5 write 1 6162 end\""
            }
            StreamRule::Read => {
                "`read` takes an end's identifier and a number of items, 0 to 65535 each, as in \"call 7 read 1 10\""
            }
            StreamRule::Reset =>
                "`reset` takes an end's identifier, 0 to 65535, as in \"call 5 reset 1\"",
            StreamRule::Close =>
                "`close` takes an end's identifier, 0 to 65535, as in \"call 5 close 1\"",
            StreamRule::Resend =>
                "`resend` takes an end's identifier, 0 to 65535, as in \"timer 5 resend 1\"",
            StreamRule::Probe =>
                "`probe` takes an end's identifier, 0 to 65535, as in \"timer 5 probe 1\"",
        }
    }
}

/// What the ends of streams report.
#[derive(Drop)]
pub enum StreamReport<A: Allocator = Global> {
    /// It was set whether requests for connections are answered.
    ListenSet,
    /// An end of a stream asks for its connection, under this identifier.
    Opening(u16),
    /// A request for a connection made this end of a stream.
    Made(u16),
    /// This end of a stream is open.
    Opened(u16),
    /// A request for a connection was denied.
    Turned,
    /// The request of this end was denied, and the end is freed.
    Denied(u16),
    /// So many items were written.
    Wrote(usize),
    /// These items were read.
    Read(Listed<Item, A>),
    /// A stream was reset.
    Reset,
    /// An end of a stream heard a segment, and took so many items of it.
    Heard { id: u16, items: u16 },
    /// This end took a reset of the other end: what it had not read is dropped.
    Dropped(u16),
    /// This end of a stream is closed. What it received stays readable.
    Closed(u16),
    /// This end of a stream is freed.
    Freed(u16),
    /// An end of a stream had nothing to send again.
    Idle,
}

/// The fault of a segment that has this number.
pub(crate) fn segment_fault(number: u8) -> Option<AdspFault>
    ensures found { IfSome result (λ fault. segments.number_of fault ≡ Some number) }
    ensures known { (fault : SegmentWhy) → segments.number_of fault ≡ Some number → IsSome result }
{
    match number {
        40 => Some(AdspFault::ShortAdsp),
        41 => Some(AdspFault::BadControl),
        42 => Some(AdspFault::BadVersion),
        43 => Some(AdspFault::Attention),
        44 => Some(AdspFault::AdspTooLong),
        _ => None,
    }
}

/// The fault of an end that has this number.
pub(crate) fn stream_fault(number: u8) -> Option<StreamFault>
    ensures found { IfSome result (λ fault. ends.number_of fault ≡ Some number) }
    ensures known { (fault : EndWhy) → ends.number_of fault ≡ Some number → IsSome result }
{
    match number {
        50 => Some(StreamFault::EndsFull),
        51 => Some(StreamFault::NotOpen),
        52 => Some(StreamFault::NoSuchEnd),
        53 => Some(StreamFault::NoRoom),
        54 => Some(StreamFault::Denied),
        _ => None,
    }
}
