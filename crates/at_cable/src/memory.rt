//! A cable in memory, of which one call may be made to fail.
ghost use Rattle.std.specs.Prelude.{◌≡◌, [], None, Some, IfOk};
ghost use Rattle.at_cable.specs.Memory.{Sends, Receives, begun, counted, fails};

use crate::cable::Cable;
use crate::fault::CableFault;
use crate::waiting::{Waiting, copy_start, place_of, push_copies};
use std::alloc::{AllocError, Allocator, Global};
use std::marker::Model;

/// A cable in memory. It loses, repeats and reorders nothing, and one of its calls may be made to fail.
#[derive(Drop)]
pub struct MemoryCable<A: Allocator = Global> {
    alloc: A,
    nodes: Vec<u8, A>,
    waiting: Vec<Waiting<A>, A>,
    // How many calls come before the one that fails.
    due: Option<u64>,
    failures: u64,
}

impl<A: Allocator> Model for MemoryCable<A> {
    ghost use Rattle.std.specs.Prelude.{map};
    ghost use Rattle.at_cable.specs.Memory.{MemoryState};
    ghost use Rattle.at_cable.specs.Waits.{posted};

    ghost Value = { MemoryState };

    ghost view = { λ m. record {
      nodes = m.nodes.items;
      waiting = map posted m.waiting.items;
      due = m.due;
      failed = m.failures;
    } };
}

impl<A: Allocator + Copy> MemoryCable<A> {
    /// A cable on which these nodes are. The error is out of memory.
    pub fn new(alloc: A, nodes: &[u8]) -> Result<MemoryCable<A>, AllocError>
        ensures { IfOk result (λ m. m ≡ record { nodes = nodes.now; waiting = []; due = None; failed = 0 }) }
    {
        Ok(MemoryCable {
            alloc,
            nodes: Vec::from_slice(alloc, nodes)?,
            waiting: Vec::new(alloc),
            due: None,
            failures: 0,
        })
    }

    /// Of the calls from now on, numbered from 0, this one fails.
    pub fn failing_at(self, call: u64) -> MemoryCable<A>
        ensures { result ≡ record self { due = Some call } }
    {
        let mut cable = self;
        cable.due = Some(call);
        cable
    }

    // Begins a call, and tells whether it must fail.
    fn begin(&mut self) -> bool
        ensures fails { result ≡ fails self.old }
        ensures begun { self.new ≡ begun self.old }
    {
        let fails = self.due == Some(0) || self.failures == u64::MAX;
        self.due = match self.due {
            None | Some(0) => None,
            Some(calls) => Some(calls - 1),
        };
        fails
    }

    fn fail(&mut self) -> CableFault
        ensures { self.new ≡ counted self.old }
    {
        self.failures = self.failures.saturating_add(1);
        CableFault
    }
}

impl<A: Allocator + Copy> Cable for MemoryCable<A> {
    ghost use Rattle.at_cable.specs.MemoryCounts.{send_counts, receive_counts};

    ghost failed = { λ m. m.failed };

    ghost sends = { Sends };

    ghost receives = { Receives };

    fn send(&mut self, _from: u8, to: u8, bytes: &[u8]) -> Result<(), CableFault> {
        if self.begin() {
            return Err(self.fail());
        }
        match push_copies(self.alloc, &mut self.waiting, &self.nodes, to, bytes) {
            Ok(()) => Ok(()),
            Err(AllocError) => Err(self.fail()),
        }
    }

    fn receive(&mut self, node: u8, buffer: &mut [u8]) -> Result<Option<usize>, CableFault> {
        if self.begin() {
            return Err(self.fail());
        }
        let Some(place) = place_of(&self.waiting, node) else {
            return Ok(None);
        };
        let first = self.waiting.remove(place);
        Ok(Some(copy_start(first.bytes.as_slice(), buffer)))
    }

    fn failures(&self) -> u64 {
        self.failures
    }

    ghost send_is_counted = { send_counts };

    ghost receive_is_counted = { receive_counts };
}
