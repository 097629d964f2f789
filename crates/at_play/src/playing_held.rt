//! The play of a schedule that lies in memory, from its text to what is printed.
ghost use Rattle.std.specs.Prelude.{List, ℕ, Some};
ghost use Rattle.at_play.specs.Ends.{IsUnwritten, PlayText, PlaysText};
ghost use Rattle.at_print.specs.Printers.{HasFailed, Prints};

use crate::ending::Ending;
use crate::playing_events::play_events;
use crate::playing_text::play_bytes;
use at_diagnostics::Diagnostics;
use at_print::{Paper, Printer};
use at_schedule::{read_schedule, read_setup};
use std::alloc::Allocator;

/// How many bytes a schedule may have whose events are all kept from its one reading. An event takes some ten times the
/// memory of its line.
pub(crate) const SMALL: usize = 524_288;

/// Plays a schedule, and prints what came of each event. A small one is read once. A larger one is read twice, for its
/// faults and to be played, so that its events take no memory.
pub(crate) fn play_held<A: Allocator + Copy, W: Paper, E: Paper>(
    alloc: A,
    text: &[u8],
    printer: &mut Printer<W>,
    diagnostics: &mut Diagnostics<'_, E>,
) -> Result<(), Ending>
    ensures told { (printed : List ℕ)
        × PlayText A (PlaysText A E.page) (Some text.now) diagnostics.old diagnostics.new result printed
        × Prints W.page printer.old printer.new printed }
    ensures unwritten { IsUnwritten result → HasFailed printer.new }
{
    if text.len() <= SMALL {
        play_small(alloc, text, printer, diagnostics)
    } else {
        play_large(alloc, text, printer, diagnostics)
    }
}

fn play_small<A: Allocator + Copy, W: Paper, E: Paper>(
    alloc: A,
    text: &[u8],
    printer: &mut Printer<W>,
    diagnostics: &mut Diagnostics<'_, E>,
) -> Result<(), Ending>
    ensures told { (printed : List ℕ)
        × PlayText A (PlaysText A E.page) (Some text.now) diagnostics.old diagnostics.new result printed
        × Prints W.page printer.old printer.new printed }
    ensures unwritten { IsUnwritten result → HasFailed printer.new }
{
    match read_schedule(alloc, text) {
        Ok(schedule) => play_events(
            alloc,
            &schedule.setup,
            schedule.events.as_slice(),
            printer,
            diagnostics,
        ),
        Err(fault) => Err(Ending::from(fault)),
    }
}

fn play_large<A: Allocator + Copy, W: Paper, E: Paper>(
    alloc: A,
    text: &[u8],
    printer: &mut Printer<W>,
    diagnostics: &mut Diagnostics<'_, E>,
) -> Result<(), Ending>
    ensures told { (printed : List ℕ)
        × PlayText A (PlaysText A E.page) (Some text.now) diagnostics.old diagnostics.new result printed
        × Prints W.page printer.old printer.new printed }
    ensures unwritten { IsUnwritten result → HasFailed printer.new }
{
    let mut rest = text;
    let setup = read_setup(alloc, &mut rest)?;
    play_bytes(alloc, &setup, text, printer, diagnostics)
}
