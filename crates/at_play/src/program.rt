//! The play of a schedule, from its text to what is printed.
ghost use Rattle.std.specs.Prelude.{◌≡◌, ◌<◌, ◌≤◌, ◌↔◌, List, ℕ, length, IfErr, IfSome, IsOk, OnOk};
ghost use Rattle.at_diagnostics.specs.Diagnostics.{TellsWrites};
ghost use Rattle.at_diagnostics.specs.declared.diagnostics.Diagnostics.{Diagnostics as Told};
ghost use Rattle.at_faults.specs.Reads.{IsOfBytes};
ghost use Rattle.at_faults.specs.declared.fault.Fault.TheVariants as why;
ghost use Rattle.at_play.specs.Ends.{Ended, FileText, IsRejected, IsTooLong, IsUnreadable, IsUnplayed, IsUnwritten};
ghost use Rattle.at_play.specs.Ends.{PlayText, PlaysOpened, PlaysText, ReadTwice, TellsEnd, end_text};
ghost use Rattle.std.specs.Result.{IsErrAnd};
ghost use Rattle.at_print.specs.Printers.{HasFailed, IsSettled, Prints};

use crate::ending::Ending;
use crate::playing::play_lines;
use crate::playing_held::{SMALL, play_held};
use at_diagnostics::{Diagnostics, write_stop};
use at_faults::{Fault, MAX_LEN, Unreadable, check_length, read_at_most, read_bytes};
use at_opened::Opened;
use at_print::{Paper, Printer, Status};
use at_schedule::read_setup;
use std::alloc::Allocator;
use std::io::Read;

/// Reads a schedule to its end, plays it, and prints what came of each event. Why a play ended before its last event is
/// told to a person as well. It ends once a write failed.
pub fn play_text<A: Allocator + Copy, R: Read, W: Paper, E: Paper>(
    alloc: A,
    reader: &mut R,
    printer: &mut Printer<W>,
    diagnostics: &mut Diagnostics<'_, E>,
) -> Status
    // A schedule that is too long is not played, and nothing else is printed, if it is known what the reader holds.
    ensures too_long { IfSome (R.remaining reader.old)
        (λ all. MAX_LEN < length all → IsUnplayed W.page result printer.old printer.new) }
    ensures printed { result ≡ Status.Done → ¬ HasFailed printer.new }
    ensures settled { IsSettled W.settles printer.new }
    ensures ended { Ended (PlayText A (PlaysText A E.page) (R.remaining reader.old) diagnostics.old) W.page E.page
        result printer.old printer.new diagnostics.new }
{
    let played = play_stream(alloc, reader, printer, diagnostics);
    end(played, printer, diagnostics)
}

/// Plays a schedule that can be read again from its beginning, as a file can. It is read for its length first. A small
/// one is kept then, and read once more. Nothing of a larger one is kept but its setup: it is read for its faults, and
/// last to be played. One that changes meanwhile is reported as unreadable.
pub fn play_file<A: Allocator + Copy, F: Opened, W: Paper, E: Paper>(
    alloc: A,
    file: &mut F,
    printer: &mut Printer<W>,
    diagnostics: &mut Diagnostics<'_, E>,
) -> Status
    // One that is too long is not played, and nothing but `fault 0` is printed, if it is known what the file holds.
    ensures too_long { IfSome (F.remaining file.old)
        (λ all. MAX_LEN < length all → IsRejected W.page result printer.old printer.new) }
    ensures printed { result ≡ Status.Done → ¬ HasFailed printer.new }
    ensures settled { IsSettled W.settles printer.new }
    ensures ended { Ended (FileText A (PlaysText A E.page) F.remaining F.goes_back diagnostics.old) W.page E.page
        result printer.old printer.new diagnostics.new }
{
    let played = play_again(alloc, file, printer, diagnostics);
    end(played, printer, diagnostics)
}

/// Plays a file that was opened. A pipe has no beginning to go back to, and is read whole.
pub fn play_opened<A: Allocator + Copy, F: Opened, W: Paper, E: Paper>(
    alloc: A,
    file: &mut F,
    printer: &mut Printer<W>,
    diagnostics: &mut Diagnostics<'_, E>,
) -> Status
    ensures printed { result ≡ Status.Done → ¬ HasFailed printer.new }
    ensures settled { IsSettled W.settles printer.new }
    ensures ended { PlaysOpened A (PlaysText A E.page) F.remaining F.goes_back file.old W.page E.page result
        printer.old printer.new diagnostics.old diagnostics.new }
{
    match file.send_back() {
        Ok(()) => play_file(alloc, file, printer, diagnostics),
        Err(_) => play_text(alloc, file, printer, diagnostics),
    }
}

fn play_stream<A: Allocator + Copy, R: Read, W: Paper, E: Paper>(
    alloc: A,
    reader: &mut R,
    printer: &mut Printer<W>,
    diagnostics: &mut Diagnostics<'_, E>,
) -> Result<(), Ending>
    ensures too_long { IfSome (R.remaining reader.old)
        (λ all. MAX_LEN < length all → IsErrAnd result IsUnreadable × (printer.new ≡ printer.old)) }
    ensures told { (text : List ℕ)
        × PlayText A (PlaysText A E.page) (R.remaining reader.old) diagnostics.old diagnostics.new result text
        × Prints W.page printer.old printer.new text }
    ensures unwritten { IsUnwritten result → HasFailed printer.new }
{
    let bytes = read_bytes(alloc, reader)?;
    play_held(alloc, bytes.as_slice(), printer, diagnostics)
}

fn play_again<A: Allocator + Copy, F: Opened, W: Paper, E: Paper>(
    alloc: A,
    file: &mut F,
    printer: &mut Printer<W>,
    diagnostics: &mut Diagnostics<'_, E>,
) -> Result<(), Ending>
    ensures too_long { IfSome (F.remaining file.old)
        (λ all. MAX_LEN < length all → IsErrAnd result IsTooLong × (printer.new ≡ printer.old)) }
    ensures told { (text : List ℕ)
        × FileText A (PlaysText A E.page) F.remaining F.goes_back diagnostics.old diagnostics.new result text
        × Prints W.page printer.old printer.new text }
    ensures unwritten { IsUnwritten result → HasFailed printer.new }
{
    check_file(file)?;
    file.send_back()?;
    match read_at_most(alloc, file, SMALL) {
        Ok(bytes) => play_held(alloc, bytes.as_slice(), printer, diagnostics),
        Err(fault) => match fault {
            Fault::Unreadable(Unreadable::TooLong) => {
                play_twice_read(alloc, file, printer, diagnostics)
            }
            _ => Err(Ending::from(fault)),
        },
    }
}

// Plays a file of which nothing is kept but its setup.
fn play_twice_read<A: Allocator + Copy, F: Opened, W: Paper, E: Paper>(
    alloc: A,
    file: &mut F,
    printer: &mut Printer<W>,
    diagnostics: &mut Diagnostics<'_, E>,
) -> Result<(), Ending>
    ensures told { (text : List ℕ)
        × ReadTwice A (PlaysText A E.page) F.remaining F.goes_back diagnostics.old diagnostics.new result text
        × Prints W.page printer.old printer.new text }
    ensures unwritten { IsUnwritten result → HasFailed printer.new }
{
    file.send_back()?;
    let setup = read_setup(alloc, file)?;
    file.send_back()?;
    play_lines(alloc, &setup, file, printer, diagnostics)
}

// Reads a file to its end, and tells whether this is too much for a schedule. That asks for no memory.
fn check_file<F: Read>(file: &mut F) -> Result<(), Unreadable>
    ensures fits { OnOk result (IfSome (F.remaining file.old) (λ all. length all ≤ MAX_LEN)) }
    ensures fault { IfErr result (λ u. IsOfBytes (why.Unreadable u)) }
{
    match check_length(file) {
        Ok(()) => Ok(()),
        Err(Fault::Unreadable(why)) => Err(why),
        Err(_) => Err(Unreadable::Failed),
    }
}

// Tells how a play ended, and why it stopped if it did.
fn end<W: Paper, E: Paper>(
    played: Result<(), Ending>,
    printer: &mut Printer<W>,
    diagnostics: &mut Diagnostics<'_, E>,
) -> Status
    ensures done { (result ≡ Status.Done) ↔ (IsOk played × ¬ HasFailed printer.new) }
    ensures printed { Prints W.page printer.old printer.new (end_text played) }
    ensures settled { IsSettled W.settles printer.new }
    ensures said { (mid : Told E) × TellsEnd E.page played diagnostics.old mid
        × TellsWrites E.page printer.new mid diagnostics.new }
{
    let status = finish(played, printer, diagnostics);
    diagnostics.tell_writes(printer);
    status
}

fn finish<W: Paper, E: Paper>(
    played: Result<(), Ending>,
    printer: &mut Printer<W>,
    diagnostics: &mut Diagnostics<'_, E>,
) -> Status
    ensures done { (result ≡ Status.Done) ↔ (IsOk played × ¬ HasFailed printer.new) }
    ensures printed { Prints W.page printer.old printer.new (end_text played) }
    ensures settled { IsSettled W.settles printer.new }
    ensures said { TellsEnd E.page played diagnostics.old diagnostics.new }
{
    match played {
        Ok(()) => printer.finish(Status::Done),
        Err(Ending::Unwritten) => printer.finish(Status::Failed),
        Err(Ending::Stopped(stop)) => {
            write_stop(printer, stop);
            diagnostics.tell_stop(stop);
            printer.finish(Status::Failed)
        }
    }
}
