//! The play of a small schedule, whose lines were all read before its first event.
ghost use Rattle.std.specs.Prelude.{◌≡◌, List, ℕ, Some, false, true};
ghost use Rattle.std.specs.List.{All};
ghost use Rattle.at_play.specs.Ends.{IsUnwritten, Obeys};
ghost use Rattle.at_play.specs.Told.{IsWhole, Played, TellsReports};
ghost use Rattle.at_print.specs.Printers.{HasFailed, Prints};
ghost use Rattle.at_schedule.specs.Says.{IsEventHere, SayAll};
ghost use Rattle.at_schedule.specs.Schedules.{event_lines};
ghost use Rattle.at_schedule.specs.Wholes.{events_of};
ghost use Rattle.at_setup.specs.Setups.{is_lawful};
ghost use Rattle.at_setup.specs.declared.setup.Setup.{Setup as Said};
ghost use Rattle.at_world.specs.Plays.{opening_world};

use crate::ending::Ending;
use crate::laws::plays_obey;
use crate::playing::play_event;
use at_diagnostics::{Diagnostics, Stop};
use at_print::{Paper, Printer};
use at_schedule::NumberedEvent;
use at_world::{Setup, World};
use std::alloc::Allocator;

/// Plays the events of a schedule up to the first that is refused, and prints each.
pub(crate) fn play_events<A: Allocator + Copy, W: Paper, E: Paper>(
    alloc: A,
    setup: &Setup<A>,
    events: &[NumberedEvent<A>],
    printer: &mut Printer<W>,
    diagnostics: &mut Diagnostics<'_, E>,
) -> Result<(), Ending>
    requires lawful { is_lawful setup.now ≡ true }
    requires here { All (IsEventHere setup.now.net) (events_of events.now) }
    ensures told { (p : Played setup.now) × Obeys setup.now p
        × Prints W.page printer.old printer.new p.text
        × ((text : List ℕ) → SayAll (event_lines text) (events_of events.now)
        → IsWhole A (Some text) false result p)
        × TellsReports E.page 0 p.reports diagnostics.old diagnostics.new }
    ensures unwritten { IsUnwritten result → HasFailed printer.new }
{
    plays_obey::<A>();
    play_each(alloc, setup, events, printer, diagnostics)
}

fn play_each<A: Allocator + Copy, W: Paper, E: Paper>(
    alloc: A,
    setup: &Setup<A>,
    events: &[NumberedEvent<A>],
    printer: &mut Printer<W>,
    diagnostics: &mut Diagnostics<'_, E>,
) -> Result<(), Ending>
    requires { All (IsEventHere setup.now.net) (events_of events.now) }
    ensures told { (p : Played setup.now)
        × Prints W.page printer.old printer.new p.text
        × ((text : List ℕ) → SayAll (event_lines text) (events_of events.now)
        → IsWhole A (Some text) false result p)
        × TellsReports E.page 0 p.reports diagnostics.old diagnostics.new }
    ensures unwritten { IsUnwritten result → HasFailed printer.new }
{
    let Ok(mut world) = World::open(alloc, setup) else {
        return Err(Ending::Stopped(Stop::no_memory(0, 0)));
    };
    let played = play_in(&mut world, events, printer, diagnostics);
    drop(world);
    played
}

// Plays events in a world that was opened.
fn play_in<A: Allocator + Copy, W: Paper, E: Paper>(
    world: &mut World<A>,
    events: &[NumberedEvent<A>],
    printer: &mut Printer<W>,
    diagnostics: &mut Diagnostics<'_, E>,
) -> Result<(), Ending>
    ensures told { (setup : Said A) → world.old ≡ opening_world setup
        → All (IsEventHere setup.net) (events_of events.now) → (p : Played setup)
        × Prints W.page printer.old printer.new p.text
        × ((text : List ℕ) → SayAll (event_lines text) (events_of events.now)
        → IsWhole A (Some text) false result p)
        × TellsReports E.page 0 p.reports diagnostics.old diagnostics.new }
    ensures unwritten { IsUnwritten result → HasFailed printer.new }
{
    for next in events {
        play_event(world, &next.event, next.line, printer, diagnostics)?;
        if printer.has_failed() {
            return Err(Ending::Unwritten);
        }
    }
    Ok(())
}
