//! How the reading of a capture ended.
ghost use Rattle.std.specs.Prelude.{◌≡◌, ◌↔◌, IsOk, None};
ghost use Rattle.at_capture.specs.Endings.{TellsEnding, ending_line, fault_line};
ghost use Rattle.at_diagnostics.specs.Diagnostics.{TellsReason};
ghost use Rattle.at_diagnostics.specs.Lines.{reason_told};
ghost use Rattle.at_print.specs.Printers.{Prints};

use at_diagnostics::{Diagnostics, Stop};
use at_faults::{Fault, Unreadable};
use at_pcap::{CaptureError, CaptureFault};
use at_print::{Paper, Part, Printer, Status};

/// Prints why a capture was not read to its end, and tells it to a person. So many frames were printed.
pub(crate) fn write_ending<W: Paper, E: Paper>(
    read: Result<(), CaptureError>,
    frames: u64,
    printer: &mut Printer<W>,
    diagnostics: &mut Diagnostics<'_, E>,
) -> Status
    ensures done { (result ≡ Status.Done) ↔ IsOk read }
    ensures printed { Prints W.page printer.old printer.new (ending_line frames read) }
    ensures told { TellsEnding E.page read diagnostics.old diagnostics.new }
{
    match read {
        Ok(()) => return Status::Done,
        Err(CaptureError::Fault { fault, at }) => write_fault(fault, at, printer, diagnostics),
        Err(CaptureError::Unreadable(error)) => {
            printer.write_all(b"fault 0\n");
            diagnostics.tell_stop(Stop::Text(Fault::Unreadable(Unreadable::from(error))));
        }
        Err(CaptureError::NoMemory) => {
            printer.write_each(&[
                Part::Text(b"stopped nomemory at "),
                Part::Number(frames),
                Part::Text(b"\n"),
            ]);
            diagnostics.tell_stop(Stop::no_memory(0, 0));
        }
    }
    Status::Failed
}

fn write_fault<W: Paper, E: Paper>(
    fault: CaptureFault,
    at: u64,
    printer: &mut Printer<W>,
    diagnostics: &mut Diagnostics<'_, E>,
)
    ensures printed { Prints W.page printer.old printer.new (fault_line fault at) }
    ensures told { TellsReason E.page (reason_told None) diagnostics.old diagnostics.new }
{
    printer.write_each(&[
        Part::Text(b"fault "),
        Part::Number(fault.number() as u64),
        Part::Text(b" at "),
        Part::Number(at),
        Part::Text(b"\n"),
    ]);
    diagnostics.tell_refusal(CaptureError::Fault { fault, at }, None);
}
