//! The recording of a schedule, from its text to what is written.
ghost use Rattle.std.specs.Prelude.{◌≡◌, ◌<◌, ◌↔◌, [], List, length, IfSome, IsErr, IsOk};
ghost use Rattle.at_diagnostics.specs.Diagnostics.{TellsWrites};
ghost use Rattle.at_diagnostics.specs.declared.diagnostics.Diagnostics.{Diagnostics as Told};
ghost use Rattle.at_print.specs.Printers.{HasFailed, IsSettled, Prints};
ghost use Rattle.at_record.specs.Ends.{PlaysText, Recorded, TellsEnd};
ghost use Rattle.at_record.specs.Recordings.{records_text};
ghost use Rattle.at_recording.specs.Recordings.{recording};
ghost use Rattle.at_world.specs.Sents.{SentDatagram};

use crate::playing::record_events;
use at_diagnostics::{Diagnostics, Stop};
use at_faults::{MAX_LEN, read_bytes};
use at_print::{Paper, Printer, Status};
use at_recording::write_front;
use at_schedule::read_setup;
use std::alloc::Allocator;
use std::io::Read;

/// Reads a schedule to its end, plays it as `play` does, and writes a classic capture of all that its events sent. A
/// capture without records is written if there is no schedule. Refusals, and why a play ended before its last event,
/// are told to a person alone.
pub fn record_text<A: Allocator + Copy, R: Read, W: Paper, E: Paper>(
    alloc: A,
    reader: &mut R,
    printer: &mut Printer<W>,
    diagnostics: &mut Diagnostics<'_, E>,
) -> Status
    // A schedule that is too long is not played, if it is known what the reader holds.
    ensures too_long { IfSome (R.remaining reader.old) (λ all. MAX_LEN < length all
        → (result ≡ Status.Failed) × Prints W.page printer.old printer.new (recording [])) }
    ensures recorded { Recorded A W.page E.page (R.remaining reader.old) result printer.old printer.new
        diagnostics.old diagnostics.new }
    ensures settled { IsSettled W.settles printer.new }
{
    write_front(printer);
    let recorded = record_stream(alloc, reader, printer, diagnostics);
    end(recorded, printer, diagnostics)
}

fn record_stream<A: Allocator + Copy, R: Read, W: Paper, E: Paper>(
    alloc: A,
    reader: &mut R,
    printer: &mut Printer<W>,
    diagnostics: &mut Diagnostics<'_, E>,
) -> Result<(), Stop>
    ensures too_long { IfSome (R.remaining reader.old)
        (λ all. MAX_LEN < length all → IsErr result × (printer.new ≡ printer.old)) }
    ensures told { (sent : List SentDatagram)
        × PlaysText A E.page (R.remaining reader.old) result sent diagnostics.old diagnostics.new
        × Prints W.page printer.old printer.new (records_text sent) }
{
    let bytes = read_bytes(alloc, reader)?;
    let setup = read_setup(alloc, &mut bytes.as_slice())?;
    record_events(alloc, &setup, bytes.as_slice(), printer, diagnostics)
}

// Tells how a recording ended.
fn end<W: Paper, E: Paper>(
    recorded: Result<(), Stop>,
    printer: &mut Printer<W>,
    diagnostics: &mut Diagnostics<'_, E>,
) -> Status
    ensures done { (result ≡ Status.Done) ↔ (IsOk recorded × ¬ HasFailed printer.new) }
    ensures printed { Prints W.page printer.old printer.new [] }
    ensures settled { IsSettled W.settles printer.new }
    ensures said { (mid : Told E) × TellsEnd E.page recorded diagnostics.old mid
        × TellsWrites E.page printer.new mid diagnostics.new }
{
    let status = tell_end(recorded, diagnostics);
    let status = printer.finish(status);
    diagnostics.tell_writes(printer);
    status
}

fn tell_end<E: Paper>(recorded: Result<(), Stop>, diagnostics: &mut Diagnostics<'_, E>) -> Status
    ensures done { (result ≡ Status.Done) ↔ IsOk recorded }
    ensures told { TellsEnd E.page recorded diagnostics.old diagnostics.new }
{
    match recorded {
        Ok(()) => Status::Done,
        Err(stop) => {
            diagnostics.tell_stop(stop);
            Status::Failed
        }
    }
}
