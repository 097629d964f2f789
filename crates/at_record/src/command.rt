//! The recording of what a command line names.
ghost use Rattle.at_print.specs.Printers.{IsSettled};
ghost use Rattle.at_record.specs.Commands.{IsUnrecorded, RecordsSource};

use crate::program::record_text;
use at_diagnostics::{Diagnostics, tell_input};
use at_opened::Source;
use at_print::{Paper, Printer, Status};
use std::alloc::Allocator;
use std::io;
use std::io::Read;

/// Records a schedule from where it is to be read, as `atnode record` does: a stream, what was opened, or a file that
/// can't be opened.
pub fn record_source<A: Allocator + Copy, S: Read + Drop, F: Read + Drop, W: Paper, E: Paper>(
    alloc: A,
    source: Source<S, F>,
    printer: &mut Printer<W>,
    diagnostics: &mut Diagnostics<'_, E>,
) -> Status
    ensures recorded { RecordsSource A S.remaining F.remaining source W.page E.page result printer.old printer.new
        diagnostics.old diagnostics.new }
    ensures settled { IsSettled W.settles printer.new }
{
    match source {
        Source::Stream(mut reader) => {
            tell_input(diagnostics);
            record_text(alloc, &mut reader, printer, diagnostics)
        }
        Source::Opened(mut file) => record_text(alloc, &mut file, printer, diagnostics),
        Source::Unopened(error) => end_unrecorded(error, printer, diagnostics),
    }
}

// Tells why the file can't be opened. Nothing is written.
fn end_unrecorded<W: Paper, E: Paper>(
    error: io::Error,
    printer: &mut Printer<W>,
    diagnostics: &mut Diagnostics<'_, E>,
) -> Status
    ensures ended { IsUnrecorded W.page E.page result printer.old printer.new diagnostics.old diagnostics.new }
    ensures settled { IsSettled W.settles printer.new }
{
    diagnostics.tell_unopened(error);
    let _status = printer.finish(Status::Failed);
    diagnostics.tell_writes(printer);
    Status::Failed
}
