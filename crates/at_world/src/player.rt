//! The play of a whole list of events, up to the first that is refused.
ghost use Rattle.std.specs.Prelude.{◌≡◌, true, [], IfErr, ◌≤◌, length};
ghost use Rattle.at_world.specs.Agreements.{IsAgreedRun};
ghost use Rattle.at_world.specs.ExactlyOnce.{IsOnce};
ghost use Rattle.at_world.specs.Machine.{IsRun};
ghost use Rattle.at_world.specs.Plays.{IsPlay, SendsCanonically};
ghost use Rattle.at_world.specs.Safety.{IsSafePlay};
ghost use Rattle.at_setup.specs.Setups.{is_lawful};

use crate::laws::{exactly_once_requests_run_once, steps_are_a_run};
use crate::sent::SentList;
use crate::transcript::{PlayFault, Transcript};
use crate::world::World;
use at_ddp::Listed;
use at_event::Report;
use at_setup::{Event, EventFault, Setup};
use std::alloc::Allocator;

/// Opens a world and plays events up to the first that is refused.
pub fn play<A: Allocator + Copy>(
    alloc: A,
    setup: &Setup<A>,
    events: &[Event<A>],
) -> Result<Transcript<A>, PlayFault<A>>
    requires { is_lawful setup.now ≡ true }
    ensures follows { IsPlay setup.now events.now result }
    ensures machine { IsRun setup.now events.now result }
    ensures agrees { IsAgreedRun setup.now events.now result }
    ensures once { IsOnce setup.now events.now result }
    ensures sent { SendsCanonically result }
    ensures safe { IsSafePlay setup.now events.now result }
    ensures within { IfErr result (λ f. f.at ≤ length events.now) }
{
    steps_are_a_run::<A>();
    exactly_once_requests_run_once::<A>();
    play_all(alloc, setup, events)
}

fn play_all<A: Allocator + Copy>(
    alloc: A,
    setup: &Setup<A>,
    events: &[Event<A>],
) -> Result<Transcript<A>, PlayFault<A>>
    requires { is_lawful setup.now ≡ true }
    ensures follows { IsPlay setup.now events.now result }
    ensures safe { IsSafePlay setup.now events.now result }
    ensures within { IfErr result (λ f. f.at ≤ length events.now) }
{
    // Room for all reports comes first, so that no event lacks it.
    let Ok(mut reports) = Vec::with_capacity(alloc, events.len()) else {
        return Err(unopened(alloc));
    };
    let Ok(mut world) = World::open(alloc, setup) else {
        return Err(unopened(alloc));
    };
    for (at, event) in events.iter().enumerate() {
        match world.step(event) {
            Err(fault) => return Err(stopped(fault, at, reports, world)),
            Ok(report) => reports.push(report).unwrap(),
        }
    }
    Ok(transcript(reports, world))
}

// The result if there is no memory to open a world, or for its reports.
fn unopened<A: Allocator + Copy>(alloc: A) -> PlayFault<A>
    ensures fault { result.fault ≡ EventFault.NoMemory }
    ensures at { result.at ≡ 0 }
    ensures reports { result.transcript.reports ≡ [] }
    ensures sent { result.transcript.sent ≡ [] }
{
    PlayFault {
        fault: EventFault::NoMemory,
        at: 0,
        transcript: Transcript {
            reports: Listed::from_vec(Vec::new(alloc)),
            sent: SentList::new(alloc),
        },
    }
}

fn stopped<A: Allocator + Copy>(
    fault: EventFault,
    at: usize,
    reports: Vec<Report<A>, A>,
    world: World<A>,
) -> PlayFault<A>
    ensures fault { result.fault ≡ fault }
    ensures at { result.at ≡ at }
    ensures reports { result.transcript.reports ≡ reports.items }
    ensures sent { result.transcript.sent ≡ world.sent }
{
    PlayFault {
        fault,
        at,
        transcript: transcript(reports, world),
    }
}

fn transcript<A: Allocator + Copy>(reports: Vec<Report<A>, A>, world: World<A>) -> Transcript<A>
    ensures reports { result.reports ≡ reports.items }
    ensures sent { result.sent ≡ world.sent }
{
    Transcript {
        reports: Listed::from_vec(reports),
        sent: world.into_sent(),
    }
}
