//! The play of a schedule that lies in memory: whatever its first reading took, its second takes too.
ghost use Rattle.std.specs.Prelude.{◌≡◌, false, true, Some};
ghost use Rattle.at_play.specs.Ends.{IsUnwritten, Obeys};
ghost use Rattle.at_play.specs.Told.{IsWhole, Played, TellsReports};
ghost use Rattle.at_print.specs.Printers.{HasFailed, Prints};
ghost use Rattle.at_schedule.specs.Drafts.{HoldsSetup};
ghost use Rattle.at_setup.specs.Setups.{is_lawful};
ghost use Rattle.at_setup.specs.declared.setup.Setup.{Setup as Said};
ghost use Rattle.at_world.specs.Plays.{opening_world};

use crate::ending::Ending;
use crate::laws::plays_obey;
use crate::playing::play_line;
use at_diagnostics::{Diagnostics, Stop};
use at_print::{Paper, Printer};
use at_schedule::laws::setup_comes_first;
use at_schedule::{Draft, cut_line};
use at_world::{Setup, World};
use std::alloc::Allocator;

/// Plays the events of a schedule, whose setup was read of it before, up to the first that is refused, and prints each.
pub(crate) fn play_bytes<A: Allocator + Copy, W: Paper, E: Paper>(
    alloc: A,
    setup: &Setup<A>,
    text: &[u8],
    printer: &mut Printer<W>,
    diagnostics: &mut Diagnostics<'_, E>,
) -> Result<(), Ending>
    requires lawful { is_lawful setup.now ≡ true }
    requires held { HoldsSetup (Some text.now) setup.now }
    ensures told { (p : Played setup.now) × Obeys setup.now p
        × Prints W.page printer.old printer.new p.text × IsWhole A (Some text.now) false result p
        × TellsReports E.page 0 p.reports diagnostics.old diagnostics.new }
    ensures unwritten { IsUnwritten result → HasFailed printer.new }
{
    plays_obey::<A>();
    play_each(alloc, setup, text, printer, diagnostics)
}

fn play_each<A: Allocator + Copy, W: Paper, E: Paper>(
    alloc: A,
    setup: &Setup<A>,
    text: &[u8],
    printer: &mut Printer<W>,
    diagnostics: &mut Diagnostics<'_, E>,
) -> Result<(), Ending>
    requires { HoldsSetup (Some text.now) setup.now }
    ensures told { (p : Played setup.now)
        × Prints W.page printer.old printer.new p.text × IsWhole A (Some text.now) false result p
        × TellsReports E.page 0 p.reports diagnostics.old diagnostics.new }
    ensures unwritten { IsUnwritten result → HasFailed printer.new }
{
    let Ok(mut world) = World::open(alloc, setup) else {
        return Err(Ending::Stopped(Stop::no_memory(0, 0)));
    };
    let played = play_in(alloc, &mut world, setup.net, text, printer, diagnostics);
    drop(world);
    played
}

// Plays a text in a world of network `net` that was opened.
fn play_in<A: Allocator + Copy, W: Paper, E: Paper>(
    alloc: A,
    world: &mut World<A>,
    net: u16,
    text: &[u8],
    printer: &mut Printer<W>,
    diagnostics: &mut Diagnostics<'_, E>,
) -> Result<(), Ending>
    requires { (setup : Said A) × HoldsSetup (Some text.now) setup }
    ensures told { (setup : Said A) → world.old ≡ opening_world setup → net ≡ setup.net → (p : Played setup)
        × Prints W.page printer.old printer.new p.text × IsWhole A (Some text.now) false result p
        × TellsReports E.page 0 p.reports diagnostics.old diagnostics.new }
    ensures unwritten { IsUnwritten result → HasFailed printer.new }
{
    setup_comes_first();
    let mut draft = Draft::new(alloc);
    let mut number = 0usize;
    let mut rest = text;
    while !rest.is_empty() {
        number = number.saturating_add(1);
        let (line, later) = cut_line(rest);
        play_line(world, &mut draft, net, number, line, printer, diagnostics)?;
        if printer.has_failed() {
            return Err(Ending::Unwritten);
        }
        rest = later;
    }
    Ok(())
}
