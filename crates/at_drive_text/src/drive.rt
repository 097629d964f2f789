//! The drive of nodes over a cable: each step is read, driven and printed before the next.
ghost use Rattle.std.specs.Prelude.{◌≡◌, ◌↔◌, ◌<◌, ◌^◌, false, true, IfErr, IsOk, Ok, map};
ghost use Rattle.at_diagnostics.specs.Diagnostics.{TellsWrites};
ghost use Rattle.at_diagnostics.specs.declared.diagnostics.Diagnostics.{Diagnostics as Told};
ghost use Rattle.at_drive.specs.Drives.{number_of as node_number, opening_nodes_of};
ghost use Rattle.at_drive.specs.Steps.{numbers_of};
ghost use Rattle.at_drive_lines.specs.Lines.{HasNext, IsLast};
ghost use Rattle.at_print.specs.Printers.{HasFailed, IsSettled, Prints};
ghost use Rattle.at_drive_text.specs.Courses.{IsGoing};
ghost use Rattle.at_drive_text.specs.Driven.{Driven, Goes, IsUnread, IsUnwritten, WasRead, drive_end, first_progress};
ghost use Rattle.at_drive_text.specs.Told.{TellsEnd};

use crate::course::Course;
use crate::ending::Ending;
use at_cable::Cable;
use at_diagnostics::{Diagnostics, Stop, write_fault};
use at_drive::Drive;
use at_drive_lines::Lines;
use at_drive_lines::laws::each_line_can_be_read;
use at_faults::Fault;
use at_print::{Paper, Part, Printer, Status};
use at_setup::Setup;
use std::alloc::Allocator;

/// Drives the nodes of a setup over a cable by the lines of a drive, which were read before. What came of each step is
/// printed before the next is read: the report, what was sent, a line for each call of the cable that failed, or that
/// nothing waited. Why a node refused something, that a call of the cable failed, and why the drive ended before its
/// last step is reported on standard error too. It ends once a write failed.
pub fn drive_lines<A: Allocator + Copy, L: Lines, C: Cable, W: Paper, E: Paper>(
    alloc: A,
    setup: &Setup<A>,
    lines: &mut L,
    cable: &mut C,
    printer: &mut Printer<W>,
    diagnostics: &mut Diagnostics<'_, E>,
) -> Status
    requires { WasRead setup.now (L.left lines.old) L.may_fail }
    ensures driven { Driven C.sends C.receives setup.now (L.left lines.old) L.may_fail cable.old cable.new W.page
        E.page result printer.old printer.new diagnostics.old diagnostics.new }
    ensures settled { IsSettled W.settles printer.new }
{
    let driven = drive_opened(alloc, setup, lines, cable, printer, diagnostics);
    end(driven, printer, diagnostics)
}

// The error is why the drive ended before its last step.
fn drive_opened<A: Allocator + Copy, L: Lines, C: Cable, W: Paper, E: Paper>(
    alloc: A,
    setup: &Setup<A>,
    lines: &mut L,
    cable: &mut C,
    printer: &mut Printer<W>,
    diagnostics: &mut Diagnostics<'_, E>,
) -> Result<(), Ending>
    requires { WasRead setup.now (L.left lines.old) L.may_fail }
    ensures goes { Goes C.sends C.receives W.page E.page setup.now (L.left lines.old) L.may_fail
        (first_progress (opening_nodes_of setup.now) cable.old diagnostics.old) printer.old cable.new printer.new
        diagnostics.new result }
    ensures unwritten { IsUnwritten result → HasFailed printer.new }
{
    let Ok(mut drive) = Drive::open(alloc, setup) else {
        return Err(Ending::NoMemory(0));
    };
    let mut course = Course::new(alloc, setup);
    let driven = drive_each(&mut drive, &mut course, lines, cable, printer, diagnostics);
    // By this call. Wherever a drive ends without one, its end is proved anew.
    drop(drive);
    driven
}

fn drive_each<A: Allocator + Copy, L: Lines, C: Cable, W: Paper, E: Paper>(
    drive: &mut Drive<A>,
    course: &mut Course<'_, A>,
    lines: &mut L,
    cable: &mut C,
    printer: &mut Printer<W>,
    diagnostics: &mut Diagnostics<'_, E>,
) -> Result<(), Ending>
    requires nodes { map node_number drive.old.nodes ≡ numbers_of course.old.setup.now }
    requires begins { IsGoing course.old.setup.now 0 0 false course.old }
    requires read { WasRead course.old.setup.now (L.left lines.old) L.may_fail }
    ensures goes { Goes C.sends C.receives W.page E.page course.old.setup.now (L.left lines.old) L.may_fail
        (first_progress drive.old cable.old diagnostics.old) printer.old cable.new printer.new diagnostics.new result }
    ensures unwritten { IsUnwritten result → HasFailed printer.new }
{
    each_line_can_be_read::<A>();
    while next_line(lines, course.at())? {
        course.drive_line(drive, lines.line(), cable, printer, diagnostics)?;
    }
    Ok(())
}

// Reads the next line, before the step at this place. False if none is left.
fn next_line<L: Lines>(lines: &mut L, at: usize) -> Result<bool, Ending>
    ensures next { result ≡ Ok true → HasNext (L.left lines.old) (L.line lines.new) (L.left lines.new) }
    ensures less { result ≡ Ok true → L.most lines.new < L.most lines.old }
    ensures few { L.most lines.old < 2 ^ 64 }
    ensures end { result ≡ Ok false → IsLast (L.left lines.old) }
    ensures failed { IfErr result (λ ending. IsUnread (L.left lines.old) at ending × (L.may_fail ≡ true)) }
{
    match lines.advance() {
        Ok(more) => Ok(more),
        Err(Fault::NoMemory) => Err(Ending::NoMemory(at)),
        Err(fault) => Err(Ending::Unread(fault)),
    }
}

// Tells how a drive ended, and why it stopped if it did.
fn end<W: Paper, E: Paper>(
    driven: Result<(), Ending>,
    printer: &mut Printer<W>,
    diagnostics: &mut Diagnostics<'_, E>,
) -> Status
    ensures done { (result ≡ Status.Done) ↔ (IsOk driven × ¬ HasFailed printer.new) }
    ensures printed { Prints W.page printer.old printer.new (drive_end driven) }
    ensures settled { IsSettled W.settles printer.new }
    ensures told { (mid : Told E) × TellsEnd E.page driven diagnostics.old mid
        × TellsWrites E.page printer.new mid diagnostics.new }
{
    let status = finish(driven, printer, diagnostics);
    diagnostics.tell_writes(printer);
    status
}

fn finish<W: Paper, E: Paper>(
    driven: Result<(), Ending>,
    printer: &mut Printer<W>,
    diagnostics: &mut Diagnostics<'_, E>,
) -> Status
    ensures done { (result ≡ Status.Done) ↔ (IsOk driven × ¬ HasFailed printer.new) }
    ensures printed { Prints W.page printer.old printer.new (drive_end driven) }
    ensures settled { IsSettled W.settles printer.new }
    ensures told { TellsEnd E.page driven diagnostics.old diagnostics.new }
{
    match driven {
        Ok(()) => printer.finish(Status::Done),
        Err(Ending::Unwritten(_)) => printer.finish(Status::Failed),
        Err(Ending::NoMemory(at)) => {
            printer.write_each(&[
                Part::Text(b"stopped nomemory at "),
                Part::Number(at as u64),
                Part::Text(b"\n"),
            ]);
            diagnostics.tell_undriven(at);
            printer.finish(Status::Failed)
        }
        Err(Ending::Unread(fault)) => {
            write_fault(printer, fault);
            diagnostics.tell_stop(Stop::from(fault));
            printer.finish(Status::Failed)
        }
    }
}
