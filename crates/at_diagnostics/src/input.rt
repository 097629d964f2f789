//! What is told of a schedule that is read from the standard input, or of a file that can't be opened.
ghost use Rattle.at_diagnostics.specs.Diagnostics.{TellsLine};
ghost use Rattle.at_diagnostics.specs.Lines.{input_told};
ghost use Rattle.at_diagnostics.specs.Unopened.{IsUnopened};
ghost use Rattle.at_print.specs.Printers.{IsSettled};

use crate::diagnostics::Diagnostics;
use at_print::{Paper, Printer, Status};
use std::io;

/// Tells that the schedule is read from the standard input.
pub fn tell_input<E: Paper>(diagnostics: &mut Diagnostics<'_, E>)
    ensures { TellsLine E.page input_told diagnostics.old diagnostics.new }
{
    diagnostics.tell_note("the schedule is read from standard input");
}

/// Prints that there is no schedule, and tells why the file can't be opened.
pub fn end_unopened<W: Paper, E: Paper>(
    error: io::Error,
    printer: &mut Printer<W>,
    diagnostics: &mut Diagnostics<'_, E>,
) -> Status
    ensures ended { IsUnopened W.page E.page result printer.old printer.new diagnostics.old diagnostics.new }
    ensures settled { IsSettled W.settles printer.new }
{
    printer.write_all(b"fault 0\n");
    diagnostics.tell_unopened(error);
    let _status = printer.finish(Status::Failed);
    diagnostics.tell_writes(printer);
    Status::Failed
}
