//! The play of a schedule that lies in memory, of which all that is sent is recorded.
ghost use Rattle.std.specs.Prelude.{◌≡◌, ◌++◌, ◌∷◌, [], List, ℕ, IfErr, OnOk, Some, true};
ghost use Rattle.at_play.specs.Ends.{Obeys};
ghost use Rattle.at_play.specs.Told.{IsStopped, StopsLine, Tells, TellsLine};
ghost use Rattle.at_print.specs.Printers.{Prints};
ghost use Rattle.at_record.specs.Ends.{PlaysEvents};
ghost use Rattle.at_record.specs.Recordings.{AreSendings, records_text};
ghost use Rattle.at_record.specs.Unseen.{unseen, unseen_page};
ghost use Rattle.at_schedule.specs.Drafts.{HoldsSetup, IsRead};
ghost use Rattle.at_schedule.specs.Schedules.{is_event_line};
ghost use Rattle.at_setup.specs.Setups.{is_lawful};
ghost use Rattle.at_setup.specs.declared.setup.Setup.{Setup as Said};
ghost use Rattle.at_world.specs.Plays.{opening_world};
ghost use Rattle.at_world.specs.Sents.{SentDatagram};

use crate::records::write_records;
use at_diagnostics::{Diagnostics, Stop};
use at_faults::{Fault, LineFault, Unreadable};
use at_play::laws::plays_obey;
use at_print::{Paper, Printer};
use at_schedule::laws::setup_comes_first;
use at_schedule::{Draft, cut_line};
use at_world::{Event, Setup, World};
use std::alloc::Allocator;

/// Plays the events of a schedule, whose setup was read of it before, up to the first that is refused. Then it writes
/// the records of what they sent.
pub(crate) fn record_events<A: Allocator + Copy, W: Paper, E: Paper>(
    alloc: A,
    setup: &Setup<A>,
    text: &[u8],
    printer: &mut Printer<W>,
    diagnostics: &mut Diagnostics<'_, E>,
) -> Result<(), Stop>
    requires lawful { is_lawful setup.now ≡ true }
    requires held { HoldsSetup (Some text.now) setup.now }
    ensures { (sent : List SentDatagram)
        × (events : PlaysEvents A E.page (Some text.now) setup.now result sent diagnostics.old diagnostics.new)
        × Obeys setup.now events.played × AreSendings sent
        × Prints W.page printer.old printer.new (records_text sent) }
{
    plays_obey::<A>();
    record_each(alloc, setup, text, printer, diagnostics)
}

fn record_each<A: Allocator + Copy, W: Paper, E: Paper>(
    alloc: A,
    setup: &Setup<A>,
    text: &[u8],
    printer: &mut Printer<W>,
    diagnostics: &mut Diagnostics<'_, E>,
) -> Result<(), Stop>
    requires { HoldsSetup (Some text.now) setup.now }
    ensures { (sent : List SentDatagram)
        × PlaysEvents A E.page (Some text.now) setup.now result sent diagnostics.old diagnostics.new
        × AreSendings sent × Prints W.page printer.old printer.new (records_text sent) }
{
    let Ok(mut world) = World::open(alloc, setup) else {
        return Err(Stop::no_memory(0, 0));
    };
    let played = play_in(alloc, &mut world, setup.net, text, diagnostics);
    write_records(printer, &world);
    // By this call. Wherever a world ends without one, its end is proved anew.
    drop(world);
    played
}

// Plays a text in a world of network `net` that was opened. At the end the world has all that was sent.
fn play_in<A: Allocator + Copy, E: Paper>(
    alloc: A,
    world: &mut World<A>,
    net: u16,
    text: &[u8],
    diagnostics: &mut Diagnostics<'_, E>,
) -> Result<(), Stop>
    requires { (setup : Said A) × HoldsSetup (Some text.now) setup }
    ensures { (setup : Said A) → world.old ≡ opening_world setup → net ≡ setup.net
        → PlaysEvents A E.page (Some text.now) setup result world.new.sent diagnostics.old diagnostics.new }
{
    setup_comes_first();
    let mut draft = Draft::new(alloc);
    let mut number = 0usize;
    let mut rest = text;
    while !rest.is_empty() {
        number = number.saturating_add(1);
        let (line, later) = cut_line(rest);
        play_line(world, &mut draft, net, number, line, diagnostics)?;
        rest = later;
    }
    Ok(())
}

// Plays the event of a line, if it has one. The line was lawful when the setup was read.
fn play_line<A: Allocator + Copy, E: Paper>(
    world: &mut World<A>,
    draft: &mut Draft<A>,
    net: u16,
    number: usize,
    line: &[u8],
    diagnostics: &mut Diagnostics<'_, E>,
) -> Result<(), Stop>
    ensures told { OnOk result (TellsLine A unseen_page E.page net number (is_event_line line.now) line.now world.old
        world.new unseen unseen diagnostics.old diagnostics.new) }
    ensures taken { OnOk result ((lines : List (List ℕ)) → IsRead A lines draft.old
        → IsRead A (lines ++ line.now ∷ []) draft.new) }
    ensures stopped { IfErr result
        (λ stop. (world.new.sent ≡ world.old.sent) × (diagnostics.new ≡ diagnostics.old)
        × StopsLine A draft.old line.now world.old stop) }
{
    match draft.take_line(net, line) {
        Ok(Some(event)) => play_event(world, &event, number, diagnostics),
        Ok(None) => Ok(()),
        Err(LineFault::NoMemory) => Err(Stop::no_memory(world.played(), number)),
        Err(LineFault::Unlawful(_)) => Err(Stop::Text(Fault::Unreadable(Unreadable::Changed))),
    }
}

fn play_event<A: Allocator + Copy, E: Paper>(
    world: &mut World<A>,
    event: &Event<A>,
    line: usize,
    diagnostics: &mut Diagnostics<'_, E>,
) -> Result<(), Stop>
    ensures told { OnOk result (Tells unseen_page E.page line world.old event.now world.new unseen unseen
        diagnostics.old diagnostics.new) }
    ensures stopped { IfErr result
        (λ stop. (world.new.sent ≡ world.old.sent) × (diagnostics.new ≡ diagnostics.old)
        × IsStopped world.old event.now world.new stop) }
{
    let at = world.played();
    match world.step(event) {
        Ok(report) => {
            diagnostics.tell_report(&report, at as usize, line);
            Ok(())
        }
        Err(fault) => Err(Stop::Event {
            fault,
            at,
            line,
            datagram: delivered(event),
        }),
    }
}

// The number of the datagram that is to be delivered.
fn delivered<A: Allocator>(event: &Event<A>) -> Option<u64> {
    match event {
        Event::Deliver { datagram, .. } => Some(*datagram),
        _ => None,
    }
}
