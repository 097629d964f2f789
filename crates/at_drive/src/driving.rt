//! The drive of a whole list of steps.
ghost use Rattle.std.specs.Prelude.{◌≡◌, ◌≤◌, ◌+◌, min, ◌==◌, length, true, IfOk, IfErr};
ghost use Rattle.std.specs.List.{list_any};
ghost use Rattle.at_cable.specs.Calls.{last_count};
ghost use Rattle.at_drive.specs.Drives.{IsDrive};
ghost use Rattle.at_drive.specs.Steps.{has_all, numbers_of, stands_in};
ghost use Rattle.at_setup.specs.Setups.{is_lawful};

use crate::log::{DriveFault, Log};
use crate::step::Step;
use crate::stepping::Drive;
use at_cable::Cable;
use at_setup::{NodeSetup, Setup};
use std::alloc::Allocator;

/// Whether a setup has the node of each of these steps, as a drive requires.
pub fn has_all<A: Allocator>(setup: &Setup<A>, steps: &[Step<A>]) -> bool
    ensures { result ≡ has_all setup.now steps.now }
{
    steps.iter().all(|step| has(setup, step.node()))
}

fn has<A: Allocator>(setup: &Setup<A>, number: u8) -> bool
    ensures { result ≡ stands_in (numbers_of setup.now) number }
{
    is_among(setup.nodes.as_slice(), number)
}

fn is_among(nodes: &[NodeSetup], number: u8) -> bool
    ensures { result ≡ list_any (λ n. n.node == number) nodes.now }
{
    nodes.iter().any(|node| node.node == number)
}

/// Drives the nodes of a setup over a cable, step by step. Each failed call of the cable is logged, and the drive goes
/// on after it. The fault is out of memory.
pub fn drive<A: Allocator + Copy, C: Cable>(
    alloc: A,
    setup: &Setup<A>,
    cable: &mut C,
    steps: &[Step<A>],
) -> Result<Log<A>, DriveFault<A>>
    requires lawful { is_lawful setup.now ≡ true }
    requires stand { has_all setup.now steps.now ≡ true }
    ensures driven { IsDrive C.sends C.receives setup.now steps.now cable.old result cable.new }
    ensures counted { IfOk result
        (λ log. C.failed cable.new ≡ min (C.failed cable.old + length log.faults.items) last_count) }
    ensures within { IfErr result (λ fault. fault.at ≤ length steps.now) }
{
    // The count of failures is at most the last number that a `u64` holds.
    let _failures = cable.failures();
    let mut log = Log::new(alloc);
    let Ok(mut drive) = Drive::open(alloc, setup) else {
        return Err(DriveFault { at: 0, log });
    };
    for (at, step) in steps.iter().enumerate() {
        if drive.step(cable, at, step, &mut log).is_err() {
            return Err(DriveFault { at, log });
        }
    }
    Ok(log)
}
