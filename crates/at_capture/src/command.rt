//! The showing of what a command line names.
ghost use Rattle.at_capture.specs.Captures.{TellsCapture, printer_of};
ghost use Rattle.at_capture.specs.Commands.{TellsSource};
ghost use Rattle.at_print.specs.Printers.{IsSettled};

use crate::capture_printer::CapturePrinter;
use at_diagnostics::end_unopened;
use at_opened::Source;
use at_print::{Paper, Status};
use std::alloc::Allocator;
use std::io::{BufReader, Read};

impl<W: Paper, E: Paper, A: Allocator + Copy> CapturePrinter<'_, W, E, A> {
    /// Shows a capture from where it is to be read, as `atnode capture` does: a stream, what was opened, or a file that
    /// can't be opened. It is read once and by blocks, from where it is, so a pipe will do.
    pub fn print_source<S: Read + Drop, F: Read + Drop>(&mut self, source: Source<S, F>) -> Status
        ensures told { TellsSource S.remaining F.remaining source W.page E.page result self.old self.new }
        ensures settled { IsSettled W.settles (printer_of self.new) }
    {
        match source {
            Source::Stream(reader) => {
                self.diagnostics
                    .tell_note("the capture is read from standard input");
                self.print_by_blocks(reader)
            }
            Source::Opened(file) => self.print_by_blocks(file),
            Source::Unopened(error) => {
                end_unopened(error, &mut self.printer, &mut self.diagnostics)
            }
        }
    }

    fn print_by_blocks<R: Read + Drop>(&mut self, reader: R) -> Status
        ensures told { TellsCapture W.page E.page (R.remaining reader) result self.old self.new }
        ensures settled { IsSettled W.settles (printer_of self.new) }
    {
        match BufReader::new(self.alloc, reader) {
            Ok(mut blocks) => self.print(&mut blocks),
            Err(_) => self.end_unread(),
        }
    }
}
