//! The sends of a step.
ghost use Rattle.std.specs.Prelude.{◌≡◌, ◌+◌, ◌<◌, ◌≤◌, ◌++◌, List, ℕ, Result, length, vec_len, vec_capacity};
ghost use Rattle.at_cable.specs.declared.fault.CableFault.{CableFault as Fault};
ghost use Rattle.at_drive.specs.Sendings.{Sends, fault_of};

use at_cable::{Cable, CableFault};
use at_ddp::Outbox;
use std::alloc::Allocator;

/// Sends each datagram of a node once, in order. Each send that fails is noted, and the others follow it all the same.
pub(crate) fn send_all<A: Allocator, C: Cable>(
    cable: &mut C,
    from: u8,
    out: &Outbox<A>,
    at: usize,
    faults: &mut Vec<usize, A>,
)
    requires { vec_len faults.old + length out.now.items ≤ vec_capacity faults.old }
    ensures { (notes : List ℕ) × Sends C.sends at from out.now.items cable.old notes cable.new
        × (faults.new.items ≡ faults.old.items ++ notes) }
{
    for index in 0..out.len() {
        send(cable, from, out.node(index), out.get(index), at, faults);
    }
}

fn send<A: Allocator, C: Cable>(
    cable: &mut C,
    from: u8,
    to: u8,
    bytes: &[u8],
    at: usize,
    faults: &mut Vec<usize, A>,
)
    requires { vec_len faults.old < vec_capacity faults.old }
    ensures sent { (answer : Result (Unit {0}) Fault) × C.sends cable.old from to bytes.now answer cable.new
        × (faults.new.items ≡ faults.old.items ++ fault_of at answer) }
    ensures capacity { vec_capacity faults.old ≤ vec_capacity faults.new }
    ensures one_more { vec_len faults.new ≤ vec_len faults.old + 1 }
{
    match cable.send(from, to, bytes) {
        Ok(()) => {}
        Err(CableFault) => faults.push(at).unwrap(),
    }
}
