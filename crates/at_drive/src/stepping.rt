//! A drive, step by step: the nodes of a setup over a cable. What came of a step goes to the end of a log.
ghost use Rattle.std.specs.Prelude.{◌≡◌, ◌⊎◌, ◌∷◌, [], List, ℕ, Option, Result, map, true, Some, IfOk, OnOk, OnErr};
ghost use Rattle.std.specs.Prelude.{IsErr};
ghost use Rattle.at_cable.specs.declared.fault.CableFault.{CableFault as Fault};
ghost use Rattle.at_steps.specs.Safety.{IsTableOf};
ghost use Rattle.at_nodes.specs.Nodes.{AreWithin};
ghost use Rattle.at_nodes.specs.Taking.{Receives, Takes};
ghost use Rattle.at_drive.specs.Drives.{Drives, IsLeft, Plays, Polls, logged, most_bytes, noting, number_of};
ghost use Rattle.at_drive.specs.Drives.{opening_nodes_of};
ghost use Rattle.at_drive.specs.Logs.{news_of};
ghost use Rattle.at_drive.specs.Safety.{table_wanted};
ghost use Rattle.at_drive.specs.Steps.{node_of, stands_in};

use crate::arrival::Arrival;
use crate::log::Log;
use crate::places::{has_node, place_among};
use crate::sending::send_all;
use crate::step::Step;
use at_cable::{Cable, CableFault};
use at_node::{Input, Node};
use at_nodes::{opening_nodes, take};
use at_packet::Packet;
use at_setup::Setup;
use at_steps::laws::safety::every_event_is_safe;
use std::alloc::{AllocError, Allocator, Global};
use std::marker::Model;

/// The most bytes that a poll takes. No datagram is longer, so what is lost of a longer payload is padding.
const MOST_BYTES: usize = 600;

/// The nodes of a setup, which are driven step by step.
#[derive(Drop)]
pub struct Drive<A: Allocator = Global> {
    alloc: A,
    nodes: Vec<Node<A>, A>,
    failed: bool,
}

impl<A: Allocator> Model for Drive<A> {
    ghost use Rattle.at_drive.specs.Drives.{Driven};
    ghost use Rattle.at_nodes.specs.Nodes.{AreWithin};

    ghost Value = { Driven };

    ghost view = { λ d. record { nodes = d.nodes.items; failed = d.failed } };

    // Each node keeps to its limits.
    ghost invariant = { λ d. AreWithin d.nodes.items };
}

impl<A: Allocator + Copy> Drive<A> {
    /// The nodes of a setup before the first step. The error is out of memory.
    pub fn open(alloc: A, setup: &Setup<A>) -> Result<Drive<A>, AllocError>
        ensures { IfOk result (λ d. d ≡ opening_nodes_of setup.now) }
    {
        let nodes = opening_nodes(alloc, setup)?;
        Ok(Drive {
            alloc,
            nodes,
            failed: false,
        })
    }

    /// Whether there is a node of this number, as a step requires of its own.
    pub fn has(&self, number: u8) -> bool
        ensures { result ≡ stands_in (map number_of self.now.nodes) number }
    {
        has_node(&self.nodes, number)
    }

    /// Drives the step at this place, and adds what came of it to a log. What the node sends is sent on the cable, each
    /// datagram once and in order. If memory runs out, nothing was sent at the step, the log is as it was, and the
    /// drive has failed: it drives no more steps.
    pub fn step<C: Cable>(
        &mut self,
        cable: &mut C,
        at: usize,
        step: &Step<A>,
        log: &mut Log<A>,
    ) -> Result<(), AllocError>
        requires stands { stands_in (map number_of self.old.nodes) (node_of step.now) ≡ true }
        // Each event of a node is safe (`Plays`): what is refused has no effect, and a reason that is told is true.
        ensures driven { OnOk result (Drives C.sends C.receives at step.now (noting self.old log.old) cable.old
            (noting self.new log.new) cable.new) }
        ensures stopped { OnErr result ((self.new.failed ≡ true) × (logged log.new ≡ logged log.old)
            × IsLeft C.receives (Some step.now) cable.old cable.new) }
        ensures failed { self.old.failed ≡ true → IsErr result × (self.new ≡ self.old)
            × (logged log.new ≡ logged log.old) × (cable.new ≡ cable.old) }
        ensures numbers { map number_of self.new.nodes ≡ map number_of self.old.nodes }
        ensures within { AreWithin self.new.nodes }
    {
        let driven = self.step_unless_failed(cable, at, step, log);
        self.limits();
        driven
    }

    // Each node keeps to its limits. The body only visits them.
    fn limits(&self)
        ensures { AreWithin self.now.nodes }
    {
        let _failed = self.failed;
    }

    fn step_unless_failed<C: Cable>(
        &mut self,
        cable: &mut C,
        at: usize,
        step: &Step<A>,
        log: &mut Log<A>,
    ) -> Result<(), AllocError>
        requires stands { stands_in (map number_of self.old.nodes) (node_of step.now) ≡ true }
        ensures driven { OnOk result (Drives C.sends C.receives at step.now (noting self.old log.old) cable.old
            (noting self.new log.new) cable.new) }
        ensures stopped { OnErr result ((self.new.failed ≡ true) × (logged log.new ≡ logged log.old)
            × IsLeft C.receives (Some step.now) cable.old cable.new) }
        ensures failed { self.old.failed ≡ true → IsErr result × (self.new ≡ self.old)
            × (logged log.new ≡ logged log.old) × (cable.new ≡ cable.old) }
        ensures numbers { map number_of self.new.nodes ≡ map number_of self.old.nodes }
    {
        if self.failed {
            return Err(AllocError);
        }
        match self.step_once(cable, at, step, log) {
            Ok(()) => Ok(()),
            Err(error) => {
                self.failed = true;
                Err(error)
            }
        }
    }

    fn step_once<C: Cable>(
        &mut self,
        cable: &mut C,
        at: usize,
        step: &Step<A>,
        log: &mut Log<A>,
    ) -> Result<(), AllocError>
        requires stands { stands_in (map number_of self.old.nodes) (node_of step.now) ≡ true }
        ensures driven { OnOk result (Drives C.sends C.receives at step.now (noting self.old log.old) cable.old
            (noting self.new log.new) cable.new) }
        ensures stopped { OnErr result ((logged log.new ≡ logged log.old)
            × IsLeft C.receives (Some step.now) cable.old cable.new) }
        ensures numbers { map number_of self.new.nodes ≡ map number_of self.old.nodes }
        ensures failed { self.new.failed ≡ self.old.failed }
    {
        match step {
            Step::Call { node, call } => {
                self.play(cable, at, *node, &Input::Call(call), None, log)
            }
            Step::Timer { node, timer } => {
                self.play(cable, at, *node, &Input::Timer(*timer), None, log)
            }
            Step::Poll { node } => self.poll(cable, at, *node, log),
        }
    }

    // Asks the cable once for what waits for a node.
    fn poll<C: Cable>(
        &mut self,
        cable: &mut C,
        at: usize,
        node: u8,
        log: &mut Log<A>,
    ) -> Result<(), AllocError>
        requires stands { stands_in (map number_of self.old.nodes) node ≡ true }
        ensures driven { OnOk result (Polls C.sends C.receives at node (noting self.old log.old) cable.old
            (noting self.new log.new) cable.new) }
        ensures stopped { OnErr result (logged log.new ≡ logged log.old) }
        ensures left { OnErr result ((cable.new ≡ cable.old) ⊎ ((answer : Result (Option (List ℕ)) Fault)
            × C.receives cable.old node most_bytes answer cable.new)) }
        ensures numbers { map number_of self.new.nodes ≡ map number_of self.old.nodes }
        ensures failed { self.new.failed ≡ self.old.failed }
    {
        log.faults.reserve(1)?;
        let mut buffer = [0; MOST_BYTES];
        match cable.receive(node, &mut buffer) {
            Ok(Some(count)) => self.arrive(cable, at, node, &buffer[..count], log),
            Ok(None) => Ok(()),
            Err(CableFault) => {
                log.faults.push(at).unwrap();
                Ok(())
            }
        }
    }

    // A node takes bytes that came.
    fn arrive<C: Cable>(
        &mut self,
        cable: &mut C,
        at: usize,
        node: u8,
        bytes: &[u8],
        log: &mut Log<A>,
    ) -> Result<(), AllocError>
        requires stands { stands_in (map number_of self.old.nodes) node ≡ true }
        ensures driven { OnOk result (Plays C.sends at node (IsTableOf bytes.now) (Receives bytes.now)
            (record { at = at; bytes = bytes.now } ∷ []) (noting self.old log.old) cable.old
            (noting self.new log.new) cable.new) }
        ensures stopped { OnErr result (logged log.new ≡ logged log.old) }
        ensures left { OnErr result (cable.new ≡ cable.old) }
        ensures numbers { map number_of self.new.nodes ≡ map number_of self.old.nodes }
        ensures failed { self.new.failed ≡ self.old.failed }
    {
        let arrival = log.arrival(self.alloc, at, bytes)?;
        let packet = Packet::of(bytes);
        self.play(
            cable,
            at,
            node,
            &Input::Received(&packet),
            Some(arrival),
            log,
        )
    }

    // A node takes an input, and what it sends is sent on the cable. All memory is asked for before anything is sent.
    fn play<C: Cable>(
        &mut self,
        cable: &mut C,
        at: usize,
        number: u8,
        input: &Input<'_, A>,
        news: Option<Arrival<A>>,
        log: &mut Log<A>,
    ) -> Result<(), AllocError>
        requires stands { stands_in (map number_of self.old.nodes) number ≡ true }
        ensures driven { OnOk result (Plays C.sends at number (table_wanted input.now) (Takes input.now) (news_of news)
            (noting self.old log.old) cable.old (noting self.new log.new) cable.new) }
        ensures stopped { OnErr result (logged log.new ≡ logged log.old) }
        ensures left { OnErr result (cable.new ≡ cable.old) }
        ensures numbers { map number_of self.new.nodes ≡ map number_of self.old.nodes }
        ensures failed { self.new.failed ≡ self.old.failed }
    {
        every_event_is_safe::<A>();
        let mut out = log.empty_outbox(self.alloc);
        log.reserve()?;
        let place = place_among(&self.nodes, number);
        let report = take(&mut self.nodes[place], input, &mut out);
        log.faults.reserve(out.len())?;
        send_all(cable, number, &out, at, &mut log.faults);
        log.push(report, out, news);
        Ok(())
    }
}
