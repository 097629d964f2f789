//! The play of a schedule's events: each is read, played and printed before the next.
ghost use Rattle.std.specs.Prelude.{◌≡◌, ◌<◌, ◌∷◌, ◌++◌, [], List, ℕ, false, true, length, IfErr, IfSome, OnOk, Ok};
ghost use Rattle.std.specs.Io.BufRead.{DropsThrough, first_piece};
ghost use Rattle.std.specs.Io.KnownBytes.{IsAtEnd};
ghost use Rattle.at_play.specs.Ends.{IsUnwritten, Obeys};
ghost use Rattle.at_print.specs.Printers.{HasFailed, Prints};
ghost use Rattle.at_schedule.specs.Drafts.{IsRead};
ghost use Rattle.at_schedule.specs.Schedules.{is_event_line};
ghost use Rattle.at_play.specs.Told.{IsStopped, IsUnreadIn, IsWhole, Played, StopsLine, Tells, TellsLine, TellsReports};
ghost use Rattle.at_setup.specs.Setups.{is_lawful};
ghost use Rattle.at_setup.specs.declared.setup.Setup.{Setup as Said};
ghost use Rattle.at_world.specs.Plays.{opening_world};

use crate::ending::Ending;
use crate::laws::plays_obey;
use crate::sent::write_sent;
use at_diagnostics::{Diagnostics, Stop};
use at_faults::{Fault, LineFault, Unreadable};
use at_print::{Paper, Printer, write_event};
use at_schedule::laws::first_line;
use at_schedule::{Draft, read_line};
use at_world::{Event, Setup, World};
use std::alloc::Allocator;
use std::io::{BufRead, BufReader, Read};

/// Plays the events of a schedule whose lines were read before, up to the first that is refused, and prints each.
pub(crate) fn play_lines<A: Allocator + Copy, R: Read, W: Paper, E: Paper>(
    alloc: A,
    setup: &Setup<A>,
    reader: &mut R,
    printer: &mut Printer<W>,
    diagnostics: &mut Diagnostics<'_, E>,
) -> Result<(), Ending>
    requires { is_lawful setup.now ≡ true }
    ensures told { (p : Played setup.now) × Obeys setup.now p
        × Prints W.page printer.old printer.new p.text × IsWhole A (R.remaining reader.old) true result p
        × TellsReports E.page 0 p.reports diagnostics.old diagnostics.new }
    ensures unwritten { IsUnwritten result → HasFailed printer.new }
{
    plays_obey::<A>();
    play_all(alloc, setup, reader, printer, diagnostics)
}

fn play_all<A: Allocator + Copy, R: Read, W: Paper, E: Paper>(
    alloc: A,
    setup: &Setup<A>,
    reader: &mut R,
    printer: &mut Printer<W>,
    diagnostics: &mut Diagnostics<'_, E>,
) -> Result<(), Ending>
    ensures told { (p : Played setup.now)
        × Prints W.page printer.old printer.new p.text × IsWhole A (R.remaining reader.old) true result p
        × TellsReports E.page 0 p.reports diagnostics.old diagnostics.new }
    ensures unwritten { IsUnwritten result → HasFailed printer.new }
{
    let Ok(mut world) = World::open(alloc, setup) else {
        return Err(Ending::Stopped(Stop::no_memory(0, 0)));
    };
    let played = play_in(alloc, &mut world, setup.net, reader, printer, diagnostics);
    // By this call. Wherever a world ends without one, its end is proved anew.
    drop(world);
    played
}

// Plays what a reader gives, in a world of network `net` that was opened.
fn play_in<A: Allocator + Copy, R: Read, W: Paper, E: Paper>(
    alloc: A,
    world: &mut World<A>,
    net: u16,
    reader: &mut R,
    printer: &mut Printer<W>,
    diagnostics: &mut Diagnostics<'_, E>,
) -> Result<(), Ending>
    ensures told { (setup : Said A) → world.old ≡ opening_world setup → net ≡ setup.net → (p : Played setup)
        × Prints W.page printer.old printer.new p.text × IsWhole A (R.remaining reader.old) true result p
        × TellsReports E.page 0 p.reports diagnostics.old diagnostics.new }
    ensures unwritten { IsUnwritten result → HasFailed printer.new }
{
    first_line();
    let Ok(mut lines) = BufReader::new(alloc, reader) else {
        return Err(Ending::Stopped(Stop::no_memory(0, 0)));
    };
    let mut line = Vec::new(alloc);
    let mut draft = Draft::new(alloc);
    let mut number = 0usize;
    for _turn in 0..u64::MAX {
        number = number.saturating_add(1);
        let more = next_line(&mut lines, &mut line, world.played(), number)?;
        if !more {
            return Ok(());
        }
        play_line(world, &mut draft, net, number, &line, printer, diagnostics)?;
        if printer.has_failed() {
            return Err(Ending::Unwritten);
        }
    }
    // No text has so many lines.
    Err(Ending::Stopped(Stop::Text(Fault::Unreadable(Unreadable::Failed))))
}

// Reads the line of this number into the room, before the event of this place. False if there is none.
fn next_line<A: Allocator, R: BufRead>(
    reader: &mut R,
    room: &mut Vec<u8, A>,
    at: u32,
    number: usize,
) -> Result<bool, Stop>
    ensures line { result ≡ Ok true → IfSome (R.remaining reader.old)
        (λ text. (0 < length text) × (room.new.items ≡ first_piece 10 text)) }
    ensures rest { OnOk result (DropsThrough (R.remaining reader.old) (R.remaining reader.new) 10) }
    ensures end { result ≡ Ok false → IsAtEnd (R.remaining reader.old) }
    ensures unread { IfErr result (IsUnreadIn (R.remaining reader.old) at) }
{
    match read_line(reader, room) {
        Ok(more) => Ok(more),
        Err(Fault::NoMemory) => Err(Stop::no_memory(at, number)),
        Err(fault) => Err(Stop::Text(fault)),
    }
}

/// Plays the event of a line, if it has one. The line was lawful when the setup was read.
pub(crate) fn play_line<A: Allocator + Copy, W: Paper, E: Paper>(
    world: &mut World<A>,
    draft: &mut Draft<A>,
    net: u16,
    number: usize,
    line: &[u8],
    printer: &mut Printer<W>,
    diagnostics: &mut Diagnostics<'_, E>,
) -> Result<(), Stop>
    ensures told { OnOk result (TellsLine A W.page E.page net number (is_event_line line.now) line.now world.old
        world.new printer.old printer.new diagnostics.old diagnostics.new) }
    ensures taken { OnOk result ((lines : List (List ℕ)) → IsRead A lines draft.old
        → IsRead A (lines ++ line.now ∷ []) draft.new) }
    ensures stopped { IfErr result
        (λ stop. (printer.new ≡ printer.old) × (diagnostics.new ≡ diagnostics.old)
        × StopsLine A draft.old line.now world.old stop) }
{
    match draft.take_line(net, line) {
        Ok(Some(event)) => play_event(world, &event, number, printer, diagnostics),
        Ok(None) => Ok(()),
        Err(LineFault::NoMemory) => Err(Stop::no_memory(world.played(), number)),
        Err(LineFault::Unlawful(_)) => { Err(Stop::Text(Fault::Unreadable(Unreadable::Changed))) }
    }
}

pub(crate) fn play_event<A: Allocator + Copy, W: Paper, E: Paper>(
    world: &mut World<A>,
    event: &Event<A>,
    line: usize,
    printer: &mut Printer<W>,
    diagnostics: &mut Diagnostics<'_, E>,
) -> Result<(), Stop>
    ensures told { OnOk result (Tells W.page E.page line world.old event.now world.new printer.old printer.new
        diagnostics.old diagnostics.new) }
    ensures stopped { IfErr result
        (λ stop. (printer.new ≡ printer.old) × (diagnostics.new ≡ diagnostics.old)
        × IsStopped world.old event.now world.new stop) }
{
    let at = world.played();
    let first = world.sent_count();
    // (A report is looked at where it lies, since a move of it takes longer.)
    match &world.step(event) {
        Ok(report) => {
            write_event(printer, at as usize, report);
            write_sent(printer, world, first);
            diagnostics.tell_report(report, at as usize, line);
            Ok(())
        }
        Err(fault) => Err(Stop::Event {
            fault: *fault,
            at,
            line,
            datagram: delivered(event),
        }),
    }
}

// The number of the datagram that is to be delivered.
fn delivered<A: Allocator>(event: &Event<A>) -> Option<u64> {
    match event {
        Event::Deliver { datagram, .. } => Some(*datagram),
        _ => None,
    }
}
