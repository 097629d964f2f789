//! What is told of an event, as text.
ghost use Rattle.std.specs.Prelude.{◌≡◌, IfOk};
ghost use Rattle.at_print.specs.Reports.{event_line_at};

use at_event::{Reason, Report};
use at_print::{Printer, write_event_at};
use std::alloc::{AllocError, Global};

/// The line of an event of this number, at a node on network `net`.
pub(crate) fn line_of(
    alloc: Global,
    net: u16,
    event: u32,
    report: &Report,
) -> Result<Vec<u8>, AllocError>
    ensures { IfOk result (λ line. line.items ≡ event_line_at net event report.now) }
{
    let mut printer = Printer::new(Vec::new(alloc));
    write_event_at(&mut printer, net, event as usize, report);
    if printer.has_failed() {
        return Err(AllocError);
    }
    Ok(printer.into_writer())
}

/// The sentence of a refusal of this number.
pub(crate) fn sentence_of(alloc: Global, number: u8) -> Result<String, AllocError> {
    match Reason::of(number) {
        Some(reason) => format!(in alloc; "{reason}"),
        None => Ok(String::new(alloc)),
    }
}
