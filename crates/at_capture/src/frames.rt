//! What is printed of a frame.
ghost use Rattle.std.specs.Prelude.{List, ℕ};
ghost use Rattle.at_capture.specs.Frames.{content};
ghost use Rattle.at_capture.specs.Texts.{FrameText, TellsVerdict};
ghost use Rattle.at_print.specs.Printers.{Prints};

use crate::datagram_lines::show_carried;
use crate::frame::Frame;
use crate::frame_lines::{write_answer, write_carried, write_other};
use crate::tally::{FrameVerdict, verdict_of};
use at_diagnostics::Diagnostics;
use at_frames::datagram_in;
use at_print::{Paper, Printer};

/// Prints the frame of this number, which answers that frame, and returns what it is counted as.
pub(crate) fn write_frame<W: Paper, E: Paper>(
    number: u64,
    frame: Frame<'_>,
    answered: Option<u64>,
    printer: &mut Printer<W>,
    diagnostics: &mut Diagnostics<'_, E>,
) -> FrameVerdict
    ensures printed { (text : List ℕ) × FrameText number answered (content frame.entry) result text
        × Prints W.page printer.old printer.new text }
    ensures told { TellsVerdict E.page result diagnostics.old diagnostics.new }
{
    match datagram_in(frame.link_type, frame.bytes) {
        Ok(carried) => {
            write_carried(
                printer,
                number,
                frame.time,
                carried.carrier,
                carried.stations,
            );
            let status = show_carried(carried.header, carried.bytes, printer, diagnostics);
            write_answer(printer, answered);
            verdict_of(status)
        }
        Err(reason) => {
            write_other(printer, number, frame.time, reason);
            FrameVerdict::Other
        }
    }
}
