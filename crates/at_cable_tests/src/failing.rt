//! Drives over a cable in memory, of which each call fails in turn.
use crate::schedules::{
    SESSION, SESSION_REPORTS, ZONE_LIST, ZONE_LIST_REPORTS, compare, driven, reports_of, setup_of,
    steps_of,
};
use at_cable::{Cable, MemoryCable};
use at_ddp::Outbox;
use at_drive::{Log, Step};
use at_setup::Setup;
use std::alloc::{AllocError, Global};
use std::process::Abort;
use std::test::Fail;

const ZONE_NODES: [u8; 2] = [1, 5];

const SESSION_NODES: [u8; 3] = [1, 5, 7];

// Which call fails, the step that it is noted for, and the reports.
static ROWS: [(u64, usize, &str); 4] = [
    (0, 0, "0 begun 0\n"),
    (1, 1, "0 begun 0\n"),
    (2, 1, "0 begun 0\n0 served 1\n"),
    (3, 2, "0 begun 0\n0 served 1\n"),
];

// The log of a drive over a cable in memory, of which this call fails, and how many calls failed.
fn driven_failing(
    rt: &impl Abort,
    alloc: Global,
    (setup, steps): (&Setup, &[Step]),
    nodes: &[u8],
    call: u64,
) -> Result<(Log, u64), AllocError> {
    let mut cable = MemoryCable::new(alloc, nodes)?.failing_at(call);
    let log = driven(rt, alloc, setup, steps, &mut cable);
    Ok((log, cable.failures()))
}

#[test]
fn a_zone_list_over_memory_ends_as_the_play_does(rt: HostRuntime) -> Result<(), Fail> {
    let mut cable = MemoryCable::new(rt.alloc(), &ZONE_NODES)?;
    compare(
        &rt,
        rt.alloc(),
        (ZONE_LIST, 1),
        &mut cable,
        ZONE_LIST_REPORTS,
    )?;
    Ok(())
}

#[test]
fn a_session_over_memory_ends_as_the_play_does(rt: HostRuntime) -> Result<(), Fail> {
    let mut cable = MemoryCable::new(rt.alloc(), &SESSION_NODES)?;
    compare(&rt, rt.alloc(), (SESSION, 1), &mut cable, SESSION_REPORTS)?;
    Ok(())
}

#[test]
fn a_failed_call_is_noted_for_its_step_and_the_drive_goes_on(rt: HostRuntime) -> Result<(), Fail> {
    let setup = setup_of(&rt, rt.alloc(), ZONE_LIST);
    let steps = steps_of(&rt, rt.alloc(), ZONE_LIST, 1)?;
    for (call, at, reports) in ROWS {
        let drive = (&setup, steps.as_slice());
        let (log, failures) = driven_failing(&rt, rt.alloc(), drive, &ZONE_NODES, call)?;
        assert!(rt; reports_of(rt.alloc(), &log).as_slice() == reports.as_bytes());
        assert!(rt; log.faults.as_slice() == [at].as_slice());
        assert_eq!(rt; failures, 1);
    }
    Ok(())
}

// Each call fails in turn, and is noted for its step.
fn fail_each(
    rt: &impl Abort,
    alloc: Global,
    drive: (&Setup, &[Step]),
    calls: &[usize],
) -> Result<(), AllocError> {
    for (call, at) in (0u64..).zip(calls) {
        let (log, failures) = driven_failing(rt, alloc, drive, &SESSION_NODES, call)?;
        assert!(rt; log.faults.as_slice() == [*at].as_slice());
        assert_eq!(rt; failures, 1);
    }
    Ok(())
}

#[test]
fn a_session_notes_each_call_that_fails(rt: HostRuntime) -> Result<(), Fail> {
    let setup = setup_of(&rt, rt.alloc(), SESSION);
    let steps = steps_of(&rt, rt.alloc(), SESSION, 1)?;
    let drive = (&setup, steps.as_slice());
    let (whole, _failures) = driven_failing(&rt, rt.alloc(), drive, &SESSION_NODES, u64::MAX)?;
    let calls = calls_of(rt.alloc(), &steps, &whole)?;
    // Twelve polls, and ten datagrams.
    assert_eq!(rt; calls.len(), 22);
    fail_each(&rt, rt.alloc(), drive, &calls)?;
    Ok(())
}

// The step of each call of the cable, if something came at each poll.
fn calls_of(alloc: Global, steps: &[Step], log: &Log) -> Result<Vec<usize>, AllocError> {
    let mut calls = Vec::new(alloc);
    for (at, (step, sent)) in steps.iter().zip(&log.sent).enumerate() {
        for _call in 0..calls_in(step, sent) {
            calls.push(at)?;
        }
    }
    Ok(calls)
}

// How many calls of the cable a step makes: a poll makes one, and each datagram that is sent another.
fn calls_in(step: &Step, sent: &Outbox) -> usize {
    let polls = usize::from(matches!(step, Step::Poll { .. }));
    polls.saturating_add(sent.len())
}
