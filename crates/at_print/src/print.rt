//! What is printed of a report, of a timer, of a datagram and of its data. A protocol has a file below this one.
ghost use Rattle.std.specs.Prelude.{◌≡◌, ◌↔◌, ◌≤◌, ◌++◌, [], IfErr, IsOk, List, ℕ, codes, length};
ghost use Rattle.std.specs.Fmt.{decimal};
ghost use Rattle.at_event.specs.Kinds.{number_of};
ghost use Rattle.at_print.specs.Printers.{Prints};
ghost use Rattle.at_print.specs.Refusals.{refusal_line};
ghost use Rattle.at_print.specs.Reports.{datagram_line, event_line, event_line_at, report_text};
ghost use Rattle.at_print.specs.Reports.{DataText, IsReadable, timer_line};

use crate::packet_lines::write_raw;
use crate::paper::Paper;
use crate::piece::{HEAD, Piece, end_with_hex, end_with_number, end_with_pairs, end_with_word};
use crate::print::names::{write_name_data, write_name_report, write_name_timer};
use crate::print::streams::{write_stream_data, write_stream_report, write_stream_timer};
use crate::print::transactions::{
    write_transaction_data, write_transaction_report, write_transaction_report_at,
    write_transaction_timer,
};
use crate::print::zones::write_zone_report;
use crate::printer::Printer;
use at_ddp::{ADSP, ATP, NBP};
use at_event::{Reason, Report, Timer};
use std::alloc::Allocator;

mod names;
mod streams;
mod transactions;
mod zones;

/// The most bytes of a datagram that is printed with the beginning of its line, by one write.
const SHORT: usize = 40;

/// Prints the report of an event.
pub fn write_event<A: Allocator, W: Paper>(
    printer: &mut Printer<W>,
    event: usize,
    report: &Report<A>,
)
    ensures { Prints W.page printer.old printer.new (event_line event report.now) }
{
    let mut line = Piece::new();
    put_event(&mut line, event);
    write_report(printer, &mut line, report);
}

/// Prints the report of an event on network `net`. A requester of that network is named by its node, as by
/// `write_event`, and one of another network by `NET.NODE`.
pub fn write_event_at<A: Allocator, W: Paper>(
    printer: &mut Printer<W>,
    net: u16,
    event: usize,
    report: &Report<A>,
)
    ensures { Prints W.page printer.old printer.new (event_line_at net event report.now) }
{
    let mut line = Piece::new();
    put_event(&mut line, event);
    match report {
        Report::Transactions(report) => {
            write_transaction_report_at(printer, &mut line, net, report)
        }
        _ => write_report(printer, &mut line, report),
    }
}

// The number of an event, with which its line begins.
fn put_event(line: &mut Piece, event: usize)
    requires { line.old ≡ [] }
    ensures text { line.new ≡ decimal event ++ codes " " }
    ensures short { length line.new ≤ HEAD }
{
    line.put_number(event as u64);
    line.put(b" ");
}

/// Prints a datagram that was sent: its number, the node that it goes to, and its bytes.
pub fn write_datagram<W: Paper>(printer: &mut Printer<W>, number: usize, to: u8, bytes: &[u8])
    ensures { Prints W.page printer.old printer.new (datagram_line number to bytes.now) }
{
    let mut line = Piece::new();
    line.put(b"sent ");
    line.put_number(number as u64);
    line.put(b" ");
    line.put_number(u64::from(to));
    line.put(b" ");
    match bytes.len() {
        1..=SHORT => end_with_pairs(printer, &mut line, bytes),
        _ => end_with_hex(printer, &mut line, bytes),
    }
}

// The line that begins with this piece, and ends with a report.
fn write_report<A: Allocator, W: Paper>(
    printer: &mut Printer<W>,
    line: &mut Piece,
    report: &Report<A>,
)
    requires { length line.old ≤ HEAD }
    ensures { Prints W.page printer.old printer.new (line.old ++ (report_text report.now ++ codes "\n")) }
{
    match report {
        Report::Transactions(report) => write_transaction_report(printer, line, report),
        Report::Zones(report) => write_zone_report(printer, line, report),
        Report::Names(report) => write_name_report(printer, line, report),
        Report::Streams(report) => write_stream_report(printer, line, report),
        Report::Picked => end_with_word(printer, line, b"done"),
        Report::Again => end_with_word(printer, line, b"again"),
        Report::Ignored => end_with_word(printer, line, b"ignored"),
        Report::Refused(number) => end_with_number(printer, line, b"refused ", u64::from(*number)),
        Report::NoMemory => end_with_word(printer, line, b"nomemory"),
    }
}

/// Prints the line of a timer. A requester of network `net` is named by its node, and any other by `NET.NODE`.
pub fn write_timer<W: Paper>(printer: &mut Printer<W>, net: u16, timer: Timer)
    ensures { Prints W.page printer.old printer.new (timer_line net timer) }
{
    let mut line = Piece::new();
    line.put(b"timer ");
    match timer {
        Timer::Transactions(timer) => write_transaction_timer(printer, &mut line, net, timer),
        Timer::Names(timer) => write_name_timer(printer, &mut line, timer),
        Timer::Streams(timer) => write_stream_timer(printer, &mut line, timer),
    }
}

/// Prints the data of a datagram of this type: the lines of its packet, or the bytes, if the type is of no protocol
/// that is read. An error says why the packet is refused, and prints nothing.
pub fn write_data<W: Paper>(printer: &mut Printer<W>, kind: u8, bytes: &[u8]) -> Result<(), Reason>
    ensures done { IsOk result ↔ IsReadable kind bytes.now }
    ensures printed { IsOk result → (text : List ℕ) × DataText kind bytes.now text
        × Prints W.page printer.old printer.new text }
    ensures refused { IfErr result (λ reason. DataText kind bytes.now (refusal_line (number_of reason))
        × (printer.new ≡ printer.old)) }
{
    if kind == NBP {
        write_name_data(printer, bytes)
    } else if kind == ATP {
        write_transaction_data(printer, bytes)
    } else if kind == ADSP {
        write_stream_data(printer, bytes)
    } else {
        write_raw(printer, bytes);
        Ok(())
    }
}
