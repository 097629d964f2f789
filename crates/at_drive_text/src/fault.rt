//! The end of a drive that has no schedule.
ghost use Rattle.std.specs.Prelude.{◌≡◌, ◌++◌, codes};
ghost use Rattle.std.specs.Fmt.{decimal};
ghost use Rattle.at_diagnostics.specs.Diagnostics.{TellsReason, TellsStop, TellsWrites, file_of};
ghost use Rattle.at_diagnostics.specs.Lines.{line_told};
ghost use Rattle.at_diagnostics.specs.Stops.{stop_of, text_fault_line};
ghost use Rattle.at_diagnostics.specs.declared.diagnostics.Diagnostics.{Diagnostics as Told};
ghost use Rattle.at_print.specs.Printers.{IsSettled, Prints};

use at_diagnostics::{Diagnostics, Stop, write_fault};
use at_faults::Fault;
use at_print::{Paper, Part, Printer, Status};
use std::fmt::Display;

/// Prints that there is no schedule, and reports why on standard error.
pub fn end_at_fault<W: Paper, E: Paper>(
    fault: Fault,
    printer: &mut Printer<W>,
    diagnostics: &mut Diagnostics<'_, E>,
) -> Status
    ensures failed { result ≡ Status.Failed }
    ensures settled { IsSettled W.settles printer.new }
    ensures printed { Prints W.page printer.old printer.new (text_fault_line fault) }
    ensures told { (mid : Told E) × TellsStop E.page (stop_of fault) diagnostics.old mid
        × TellsWrites E.page printer.new mid diagnostics.new }
{
    write_fault(printer, fault);
    diagnostics.tell_stop(Stop::from(fault));
    let _status = printer.finish(Status::Failed);
    diagnostics.tell_writes(printer);
    Status::Failed
}

/// Prints that the line of this number, counted from 1, is at fault, and reports this reason.
pub fn end_at_line<D: Display + Drop, W: Paper, E: Paper>(
    number: usize,
    reason: D,
    printer: &mut Printer<W>,
    diagnostics: &mut Diagnostics<'_, E>,
) -> Status
    ensures failed { result ≡ Status.Failed }
    ensures settled { IsSettled W.settles printer.new }
    ensures printed { Prints W.page printer.old printer.new
        (codes "fault " ++ (decimal number ++ codes "\n")) }
    ensures told { (mid : Told E)
        × TellsReason E.page (line_told (file_of diagnostics.old) number) diagnostics.old mid
        × TellsWrites E.page printer.new mid diagnostics.new }
{
    printer.write_each(&[
        Part::Text(b"fault "),
        Part::Number(number as u64),
        Part::Text(b"\n"),
    ]);
    diagnostics.tell_line(number, reason);
    let _status = printer.finish(Status::Failed);
    diagnostics.tell_writes(printer);
    Status::Failed
}
