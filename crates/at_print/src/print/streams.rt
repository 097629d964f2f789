//! How the reports and timers of streams print, and the data of ADSP's datagrams.
ghost use Rattle.std.specs.Prelude.{◌≡◌, ◌<◌, ◌≤◌, ◌++◌, [], List, ℕ, codes, drop, false, length, map, take};
ghost use Rattle.std.specs.Prelude.{◌↔◌, if◌then◌else◌, IfErr, IsOk};
ghost use Rattle.std.specs.Fmt.{decimal};
ghost use Rattle.at_print.specs.Items.{items_text, starts_with_byte};
ghost use Rattle.at_print.specs.Printers.{Prints};
ghost use Rattle.at_event.specs.Kinds.{number_of};
ghost use Rattle.at_print.specs.Refusals.{refusal_line};
ghost use Rattle.at_print.specs.Reports.Streams.{IsSegment, SegmentText, stream_text, stream_timer_text};

use crate::digits::{BLOCK, write_pairs};
use crate::paper::Paper;
use crate::piece::{HEAD, Piece, TIMER, end_with_number, end_with_word};
use crate::printer::Printer;
use crate::segment_lines::write_segment;
use at_adsp_end::Item;
use at_event::{Reason, StreamReport, StreamTimer};
use std::alloc::Allocator;

/// The line that begins with this piece, and ends with a report of streams.
pub(crate) fn write_stream_report<A: Allocator, W: Paper>(
    printer: &mut Printer<W>,
    line: &mut Piece,
    report: &StreamReport<A>,
)
    requires { length line.old ≤ HEAD }
    ensures { Prints W.page printer.old printer.new (line.old ++ (stream_text report.now ++ codes "\n")) }
{
    match report {
        StreamReport::ListenSet => end_with_word(printer, line, b"done"),
        StreamReport::Opening(id) => end_with_number(printer, line, b"opening ", u64::from(*id)),
        StreamReport::Made(id) => end_with_number(printer, line, b"made ", u64::from(*id)),
        StreamReport::Opened(id) => end_with_number(printer, line, b"opened ", u64::from(*id)),
        StreamReport::Turned => end_with_word(printer, line, b"turned"),
        StreamReport::Denied(id) => end_with_number(printer, line, b"denied ", u64::from(*id)),
        StreamReport::Wrote(count) => end_with_number(printer, line, b"wrote ", *count as u64),
        StreamReport::Read(items) => write_read(printer, line, items.as_slice()),
        StreamReport::Reset => end_with_word(printer, line, b"done"),
        StreamReport::Heard { id, items } => write_heard(printer, line, *id, *items),
        StreamReport::Dropped(id) => end_with_number(printer, line, b"dropped ", u64::from(*id)),
        StreamReport::Closed(id) => end_with_number(printer, line, b"closed ", u64::from(*id)),
        StreamReport::Freed(id) => end_with_number(printer, line, b"freed ", u64::from(*id)),
        StreamReport::Idle => end_with_word(printer, line, b"idle"),
    }
}

fn write_heard<W: Paper>(printer: &mut Printer<W>, line: &mut Piece, id: u16, items: u16)
    requires { length line.old ≤ HEAD }
    ensures { Prints W.page printer.old printer.new
        (line.old ++ ((codes "heard " ++ (decimal id ++ (codes " " ++ decimal items))) ++ codes "\n")) }
{
    line.put(b"heard ");
    line.put_number(u64::from(id));
    end_with_number(printer, line, b" ", u64::from(items));
}

fn write_read<W: Paper>(printer: &mut Printer<W>, line: &mut Piece, items: &[Item])
    requires { length line.old ≤ HEAD }
    ensures { Prints W.page printer.old printer.new
        (line.old ++ ((codes "read" ++ items_text false items.now) ++ codes "\n")) }
{
    line.put(b"read");
    printer.write_all(line.text());
    write_items(printer, items);
    printer.write_all(b"\n");
}

// The items that were read: a word for each run of bytes, and one for each end of a message.
fn write_items<W: Paper>(printer: &mut Printer<W>, items: &[Item])
    ensures { Prints W.page printer.old printer.new (items_text false items.now) }
{
    let mut follows_byte = false;
    let mut rest = items;
    while !rest.is_empty() {
        let count = write_front(printer, follows_byte, rest);
        follows_byte = starts_with_byte(rest);
        let (_, after) = rest.split_at(count);
        rest = after;
    }
}

// Prints the bytes at the front, at most a block, or the end that stands there, and returns how many items these are.
fn write_front<W: Paper>(printer: &mut Printer<W>, follows_byte: bool, items: &[Item]) -> usize
    requires { 0 < length items.now }
    ensures some { 0 < result }
    ensures within { result ≤ length items.now }
    ensures printed { (text : List ℕ) × Prints W.page printer.old printer.new text × (items_text follows_byte items.now
        ≡ text ++ items_text (starts_with_byte items.now) (drop result items.now)) }
{
    let mut block = [0; BLOCK];
    let count = front_bytes(items, &mut block);
    if count == 0 {
        printer.write_all(b" end");
        return 1;
    }
    begin_word(printer, follows_byte);
    write_pairs(printer, &block[..count]);
    count
}

// Bytes that follow one go on with its word.
fn begin_word<W: Paper>(printer: &mut Printer<W>, follows_byte: bool)
    ensures { Prints W.page printer.old printer.new (if follows_byte then [] else codes " ") }
{
    if !follows_byte {
        printer.write_all(b" ");
    }
}

// Puts the bytes at the front into the block, as far as it has room, and returns how many they are.
fn front_bytes(items: &[Item], block: &mut [u8; BLOCK]) -> usize
    ensures within { result ≤ length items.now }
    ensures room { result ≤ BLOCK }
    ensures bytes { take result items.now ≡ map Item.Byte (take result block.new) }
    ensures none { result ≡ 0 → starts_with_byte items.now ≡ false }
{
    let most = items.len().min(BLOCK);
    for place in 0..most {
        let Item::Byte(byte) = items[place] else {
            return place;
        };
        block[place] = byte;
    }
    most
}

fn starts_with_byte(items: &[Item]) -> bool
    ensures { result ≡ starts_with_byte items.now }
{
    matches!(items, [Item::Byte(_), ..])
}

/// The line that begins with this piece, and ends with a timer of the end of a stream.
pub(crate) fn write_stream_timer<W: Paper>(
    printer: &mut Printer<W>,
    line: &mut Piece,
    timer: StreamTimer,
)
    requires { length line.old ≤ TIMER }
    ensures { Prints W.page printer.old printer.new (line.old ++ (stream_timer_text timer ++ codes "\n")) }
{
    match timer {
        StreamTimer::Resend { id } => end_with_number(printer, line, b"resend ", u64::from(id)),
        StreamTimer::Probe { id } => end_with_number(printer, line, b"probe ", u64::from(id)),
    }
}

/// Prints the ADSP segment that the data of a datagram are.
pub(crate) fn write_stream_data<W: Paper>(
    printer: &mut Printer<W>,
    bytes: &[u8],
) -> Result<(), Reason>
    ensures done { IsOk result ↔ IsSegment bytes.now }
    ensures printed { IsOk result → (text : List ℕ) × SegmentText bytes.now text
        × Prints W.page printer.old printer.new text }
    ensures refused { IfErr result (λ reason. SegmentText bytes.now (refusal_line (number_of reason))
        × (printer.new ≡ printer.old)) }
{
    match at_adsp_frame::decode(bytes) {
        Ok(segment) => {
            write_segment(printer, &segment);
            Ok(())
        }
        Err(fault) => Err(Reason::OfSegments(fault)),
    }
}
