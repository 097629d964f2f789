//! What came of a step of a drive, as text.
ghost use Rattle.std.specs.Prelude.{◌≡◌, ◌+◌, ◌++◌, if◌then◌else◌, [], codes, slice_get};
ghost use Rattle.std.specs.Fmt.{decimal};
ghost use Rattle.std.specs.List.{flat_map};
ghost use Rattle.at_drive.specs.Drives.{logged};
ghost use Rattle.at_print.specs.Printers.{Prints};
ghost use Rattle.at_drive_text.specs.Driven.{datagram_lines, fault_line, is_idle, news_text, number_of};
ghost use Rattle.at_drive_text.specs.Driven.{report_part, sent_count, sent_part};

use at_ddp::Outbox;
use at_drive::Log;
use at_event::Report;
use at_print::{Paper, Part, Printer, write_datagram, write_event};
use std::alloc::Allocator;

/// Prints what came of the step at this place, before which so many datagrams were sent.
pub(crate) fn write_news<A: Allocator, W: Paper>(
    printer: &mut Printer<W>,
    at: usize,
    number: usize,
    log: &Log<A>,
)
    ensures { Prints W.page printer.old printer.new (news_text at number (logged log.now)) }
{
    write_report(printer, at, &log.reports);
    write_sent(printer, number, &log.sent);
    write_faults(printer, &log.faults);
    write_idle(printer, at, is_idle(log));
}

// Whether nothing waited at a poll, which did not fail.
fn is_idle<A: Allocator>(log: &Log<A>) -> bool
    ensures { result ≡ is_idle (logged log.now) }
{
    log.reports.is_empty() && log.faults.is_empty()
}

/// How many datagrams were sent at a step, and before it.
pub(crate) fn next_number<A: Allocator>(number: usize, log: &Log<A>) -> usize
    ensures { result ≡ number_of (number + sent_count (slice_get log.now.sent.items 0)) }
{
    match log.sent.first() {
        Some(out) => number.saturating_add(out.len()),
        None => number,
    }
}

fn write_report<A: Allocator, W: Paper>(printer: &mut Printer<W>, at: usize, reports: &[Report<A>])
    ensures { Prints W.page printer.old printer.new (report_part at (slice_get reports.now 0)) }
{
    match reports.first() {
        Some(report) => write_event(printer, at, report),
        None => {}
    }
}

fn write_sent<A: Allocator, W: Paper>(printer: &mut Printer<W>, number: usize, sent: &[Outbox<A>])
    ensures { Prints W.page printer.old printer.new (sent_part number (slice_get sent.now 0)) }
{
    match sent.first() {
        Some(out) => write_datagrams(printer, number, out),
        None => {}
    }
}

fn write_datagrams<A: Allocator, W: Paper>(printer: &mut Printer<W>, first: usize, out: &Outbox<A>)
    ensures { Prints W.page printer.old printer.new (datagram_lines first out.now.items) }
{
    for index in 0..out.len() {
        write_datagram(
            printer,
            first.saturating_add(index),
            out.node(index),
            out.get(index),
        );
    }
}

fn write_faults<W: Paper>(printer: &mut Printer<W>, faults: &[usize])
    ensures { Prints W.page printer.old printer.new (flat_map fault_line faults.now) }
{
    for at in faults {
        write_fault(printer, *at);
    }
}

// A call of the cable failed at the step of this place.
fn write_fault<W: Paper>(printer: &mut Printer<W>, at: usize)
    ensures { Prints W.page printer.old printer.new (fault_line at) }
{
    printer.write_each(&[Part::Number(at as u64), Part::Text(b" cable\n")]);
}

fn write_idle<W: Paper>(printer: &mut Printer<W>, at: usize, is_idle: bool)
    ensures { Prints W.page printer.old printer.new (if is_idle then decimal at ++ codes " idle\n" else []) }
{
    if is_idle {
        printer.write_each(&[Part::Number(at as u64), Part::Text(b" idle\n")]);
    }
}
