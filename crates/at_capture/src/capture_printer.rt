//! The printing of a capture, frame by frame, up to its end.
ghost use Rattle.std.specs.Prelude.{◌≡◌, ◌↔◌, ◌++◌, [], IsOk, List, Option, ℕ};
ghost use Rattle.at_diagnostics.specs.Diagnostics.{TellsWrites};
ghost use Rattle.at_diagnostics.specs.declared.diagnostics.Diagnostics.{Diagnostics as Told};
ghost use Rattle.at_print.specs.Printers.{HasFailed, IsSettled, Prints};

use crate::asked::{Asked, nothing_asked, take_role};
use crate::ending::write_ending;
use crate::frame::Frame;
use crate::frames::write_frame;
use crate::roles::role_of;
use crate::tally::{Tally, write_tally};
use at_diagnostics::Diagnostics;
use at_pcap::{CaptureError, FrameHeader, Sink, read_capture};
use at_print::{Paper, Printer, Status};
use std::alloc::{AllocError, Allocator};
use std::io::Read;

/// Prints captures: a line for each frame, under it the lines of its datagram and of the frame that it answers, and at
/// the end how many there were.
#[derive(Drop)]
pub struct CapturePrinter<'a, W, E, A: Allocator> {
    pub(crate) alloc: A,
    pub(crate) printer: Printer<W>,
    pub(crate) diagnostics: Diagnostics<'a, E>,
    // The frames of this capture so far.
    tally: Tally,
    // What they ask. This alone grows with the file.
    asked: Asked<A>,
}

impl<'a, W: Paper, E: Paper, A: Allocator + Copy> CapturePrinter<'a, W, E, A> {
    ghost use Rattle.at_capture.specs.Captures.{HasPrinted, TellsCapture, diagnostics_of, printer_of};
    ghost use Rattle.at_capture.specs.Endings.{TellsEnding, ending_line};
    ghost use Rattle.at_capture.specs.Tallies.{end_line};

    /// Prints by this printer, and tells reasons by these diagnostics. No frame was printed yet. This takes no memory.
    pub fn new(
        alloc: A,
        printer: Printer<W>,
        diagnostics: Diagnostics<'a, E>,
    ) -> CapturePrinter<'a, W, E, A>
        ensures printer { printer_of result ≡ printer }
        ensures diagnostics { diagnostics_of result ≡ diagnostics.entry }
        ensures begun { HasPrinted [] [] result }
    {
        CapturePrinter {
            alloc,
            printer,
            diagnostics,
            tally: Tally::new(),
            asked: nothing_asked(alloc),
        }
    }

    /// Reads a capture to its end, and prints its frames, which are numbered from 1. The status is `Done` if it was
    /// read to its end and printed, whatever was refused. A person is told why a datagram is refused, why the capture
    /// was not read to its end, and that something could not be written.
    pub fn print<R: Read>(&mut self, reader: &mut R) -> Status
        ensures told { TellsCapture W.page E.page (R.remaining reader.old) result self.old self.new }
        ensures settled { IsSettled W.settles (printer_of self.new) }
    {
        self.begin();
        let read = read_capture(self.alloc, reader, self);
        self.end(read)
    }

    /// Ends a capture of which nothing could be read, out of memory.
    pub(crate) fn end_unread(&mut self) -> Status
        ensures told { (known : Option (List ℕ)) → TellsCapture W.page E.page known result self.old self.new }
        ensures settled { IsSettled W.settles (printer_of self.new) }
    {
        self.begin();
        self.end(Err(CaptureError::NoMemory))
    }

    // No frame of this capture was printed yet.
    fn begin(&mut self)
        ensures printer { printer_of self.new ≡ printer_of self.old }
        ensures diagnostics { diagnostics_of self.new ≡ diagnostics_of self.old }
        ensures begun { HasPrinted [] [] self.new }
    {
        self.tally = Tally::new();
        self.asked = nothing_asked(self.alloc);
    }

    // Prints why the capture was not read to its end, if so, and how many frames there were.
    fn end(&mut self, read: Result<(), CaptureError>) -> Status
        ensures done { (result ≡ Status.Done) ↔ (IsOk read × ¬ HasFailed (printer_of self.new)) }
        ensures printed { Prints W.page (printer_of self.old) (printer_of self.new)
            (ending_line self.old.tally.frames read ++ end_line self.old.tally) }
        ensures settled { IsSettled W.settles (printer_of self.new) }
        ensures told { (mid : Told E) × TellsEnding E.page read (diagnostics_of self.old) mid
            × TellsWrites E.page (printer_of self.new) mid (diagnostics_of self.new) }
    {
        let status = write_ending(
            read,
            self.tally.frames,
            &mut self.printer,
            &mut self.diagnostics,
        );
        write_tally(&mut self.printer, self.tally);
        let status = self.printer.finish(status);
        self.diagnostics.tell_writes(&self.printer);
        status
    }
}

impl<W: Paper, E: Paper, A: Allocator + Copy> Sink for CapturePrinter<'_, W, E, A> {
    ghost use Rattle.at_capture.specs.Captures.{IsUnprinted, PrintsFrame};
    ghost use Rattle.at_capture.specs.Frames.{frame_of};

    ghost takes = { λ old f new. PrintsFrame W.page E.page (frame_of f) old new };

    ghost keeps = { λ old new. IsUnprinted old new };

    fn take(&mut self, header: FrameHeader, bytes: &[u8]) -> Result<(), AllocError> {
        let frame = Frame::of(header, bytes);
        let number = self.tally.frames.saturating_add(1);
        let answered = take_role(&mut self.asked, role_of(frame), number)?;
        let verdict = write_frame(
            number,
            frame,
            answered,
            &mut self.printer,
            &mut self.diagnostics,
        );
        self.tally = self.tally.with(verdict);
        Ok(())
    }
}
