//! A schedule that is read once: its setup, and the event of each line that says one. It is all in memory then, which
//! serves where a text is small.
ghost use Rattle.std.specs.Prelude.{◌≡◌, ◌⊎◌, ◌++◌, ◌∷◌, [], List, ℕ, Some, IfErr, IfOk, OnOk};
ghost use Rattle.std.specs.List.{All};
ghost use Rattle.at_faults.specs.declared.rule.Rule.{Rule as Told};
ghost use Rattle.at_schedule.specs.Drafts.{BeginSchedule, IsLineFault, IsRead, IsSchedule};
ghost use Rattle.at_schedule.specs.Says.{IsEventHere};
ghost use Rattle.at_schedule.specs.Schedules.{lines_in};
ghost use Rattle.at_schedule.specs.Wholes.{AreRead, events_of};

use crate::cutting::cut_line;
use crate::draft::Draft;
use crate::schedule::{end_at, fault_at};
use at_ddp::Listed;
use at_faults::Fault;
use at_setup::{Event, Setup};
use at_setup_lines::laws::each_draft_can_end;
use std::alloc::{Allocator, Global};

/// How many bytes the line of an event has mostly, or more. So the list of events seldom grows.
const EVENT_LINE: usize = 12;

/// An event, and the number of the line that says it, counted from 1.
#[derive(Drop)]
pub struct NumberedEvent<A: Allocator = Global> {
    pub line: usize,
    pub event: Event<A>,
}

/// All that a schedule says.
#[derive(Drop)]
pub struct Schedule<A: Allocator = Global> {
    pub setup: Setup<A>,
    pub events: Listed<NumberedEvent<A>, A>,
}

/// Reads a schedule that lies in memory, all of whose lines have to be lawful.
pub fn read_schedule<A: Allocator + Copy>(alloc: A, text: &[u8]) -> Result<Schedule<A>, Fault>
    ensures said { IfOk result (λ s. IsSchedule (lines_in text.now) s.setup (events_of s.events)) }
    ensures here { IfOk result (λ s. All (IsEventHere s.setup.net) (events_of s.events)) }
    ensures fault { IfErr result (IsLineFault A (Some text.now)) }
{
    each_draft_can_end::<A>();
    let mut draft = Draft::new(alloc);
    let mut events = Vec::with_capacity(alloc, text.len() / EVENT_LINE)?;
    let mut number = 1usize;
    let mut rest = text;
    while !rest.is_empty() {
        let (line, later) = cut_line(rest);
        if let Err(fault) = take_line(&mut draft, &mut events, number, line) {
            return Err(fault);
        }
        number = number.saturating_add(1);
        rest = later;
    }
    match end_at(draft, number) {
        Ok(setup) => Ok(joined(setup, events)),
        Err(fault) => Err(fault),
    }
}

fn joined<A: Allocator>(setup: Setup<A>, events: Vec<NumberedEvent<A>, A>) -> Schedule<A>
    ensures setup { result.setup ≡ setup }
    ensures events { result.events ≡ events.items }
{
    Schedule {
        setup,
        events: Listed::from_vec(events),
    }
}

// Takes one line more. Its event goes to the end of the list, if it has one.
fn take_line<A: Allocator + Copy>(
    draft: &mut Draft<A>,
    events: &mut Vec<NumberedEvent<A>, A>,
    number: usize,
    line: &[u8],
) -> Result<(), Fault>
    ensures taken { OnOk result ((lines : List (List ℕ)) → AreRead A lines draft.old (events_of events.old.items)
        → AreRead A (lines ++ line.now ∷ []) draft.new (events_of events.new.items)) }
    ensures fault { IfErr result (λ fault. (fault ≡ Fault.NoMemory)
        ⊎ (((rule : Told) × (fault ≡ Fault.Line number rule))
        × ((lines : List (List ℕ)) → IsRead A lines draft.old → ¬ BeginSchedule A (lines ++ line.now ∷ [])))) }
{
    let net = draft.net();
    match draft.take_line(net, line) {
        Ok(Some(event)) => keep(
            events,
            NumberedEvent {
                line: number,
                event,
            },
        ),
        Ok(None) => Ok(()),
        Err(fault) => Err(fault_at(fault, number, line)),
    }
}

fn keep<A: Allocator>(
    events: &mut Vec<NumberedEvent<A>, A>,
    event: NumberedEvent<A>,
) -> Result<(), Fault>
    ensures kept { OnOk result (events.new.items ≡ events.old.items ++ event ∷ []) }
    ensures memory { IfErr result (λ fault. fault ≡ Fault.NoMemory) }
{
    match events.push(event) {
        Ok(()) => Ok(()),
        Err(_) => Err(Fault::NoMemory),
    }
}
