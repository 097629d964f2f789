//! The world: its nodes, all that they sent, and the step that plays one event or says why not.
ghost use Rattle.std.specs.Prelude.{◌≡◌, Err, ◌==◌, ◌||◌, IfOk, IfErr, Some, false};
ghost use Rattle.std.specs.Prelude.{true};
ghost use Rattle.std.specs.List.{position_from};
ghost use Rattle.at_node.specs.Numbers.{Draws, drawn_by};
ghost use Rattle.at_world.specs.Plays.{opening_world};
ghost use Rattle.at_nodes.specs.Nodes.{AreWithin};
ghost use Rattle.at_world.specs.Safety.{IsSafe};
ghost use Rattle.at_world.specs.Worlds.{AreFree, IsNotTaken, IsPlayable, Plays, PlaysAt};
ghost use Rattle.at_nodes.specs.Taking.{Takes};
ghost use Rattle.at_world.specs.Worlds.{PlaysDelivery, IsFault};
ghost use Rattle.at_nodes.specs.Nodes.{is_numbered};
ghost use Rattle.at_world.specs.Worlds.{is_over};

use crate::log::{Log, MAX_EVENTS, drawn_by};
use crate::sent::SentList;
use crate::timely::is_fresh;
use at_ddp::Outbox;
use at_event::Report;
use at_node::{Input, Node};
use at_nodes::{is_held, opening_nodes, place_of, take};
use at_packet::Packet;
use at_setup::{Event, EventFault, Refusal, Setup};
use at_steps::laws::safety::every_event_is_safe;
use std::alloc::{AllocError, Allocator};
use std::marker::Model;

/// If more datagrams than this were sent, no event is played.
const MAX_DATAGRAMS: usize = 868_928;

/// The nodes of a cable, and all that they sent.
#[derive(Drop)]
pub struct World<A: Allocator> {
    nodes: Vec<Node<A>, A>,
    // Empty, so that each event uses its room again.
    out: Outbox<A>,
    pub(crate) log: Log<A>,
}

impl<A: Allocator> Model for World<A> {
    ghost use Rattle.std.specs.Prelude.{◌≡◌, []};
    ghost use Rattle.at_nodes.specs.Nodes.{AreWithin};
    ghost use Rattle.at_world.specs.Worlds.{WorldState};

    ghost Value = { WorldState };

    ghost view = { λ w. record {
      nodes = w.nodes.items;
      sent = w.log.sent;
      last = w.log.last;
      events = w.log.events;
      failed = w.log.failed;
    } };

    // Each node keeps to its limits.
    ghost invariant = { λ w. (w.out.items ≡ []) × AreWithin w.nodes.items };
}

impl<A: Allocator + Copy> World<A> {
    /// A world in which nothing has happened yet. The error is out of memory.
    pub fn open(alloc: A, setup: &Setup<A>) -> Result<World<A>, AllocError>
        ensures { IfOk result (λ world. world ≡ opening_world setup.now) }
    {
        let nodes = opening_nodes(alloc, setup)?;
        Ok(World {
            nodes,
            out: Outbox::new(alloc),
            log: Log::new(alloc),
        })
    }

    pub(crate) fn into_sent(self) -> SentList<A>
        ensures { result ≡ self.sent }
    {
        self.log.into_sent()
    }

    /// Plays an event, or says why not. A world that ran out of memory has failed, and plays no more events.
    pub fn step(&mut self, event: &Event<A>) -> Result<Report<A>, EventFault>
        ensures played { IfOk result (λ report. IsPlayable self.old event.now
            × Plays self.old event.now report self.new) }
        ensures not_played { IfErr result (λ fault. IsFault self.old event.now fault self.new) }
        ensures failed { self.old.failed ≡ true → (result ≡ Err EventFault.NoMemory) × (self.new ≡ self.old) }
        ensures safe { IfOk result (λ report. IsSafe self.old event.now report self.new) }
        ensures within { AreWithin self.new.nodes }
    {
        every_event_is_safe::<A>();
        self.limits();
        self.step_once(event)
    }

    // Each node keeps to its limits. The body only visits them.
    fn limits(&self)
        ensures { AreWithin self.now.nodes }
    {
        let _nodes = self.nodes.len();
    }

    fn step_once(&mut self, event: &Event<A>) -> Result<Report<A>, EventFault>
        ensures played { IfOk result (λ report. IsPlayable self.old event.now
            × Plays self.old event.now report self.new) }
        ensures not_played { IfErr result (λ fault. IsFault self.old event.now fault self.new) }
        ensures failed { self.old.failed ≡ true → (result ≡ Err EventFault.NoMemory) × (self.new ≡ self.old) }
        ensures within { AreWithin self.new.nodes }
    {
        if self.log.failed {
            return Err(EventFault::NoMemory);
        }
        if self.is_over() {
            return Err(EventFault::Refused(Refusal::Limit));
        }
        match event {
            Event::Call { node, call } => {
                call.ranges();
                self.play(*node, &Input::Call(call))
            }
            Event::Deliver { datagram, node } => self.deliver(*datagram, *node),
            Event::Timer { node, timer } => self.play(*node, &Input::Timer(*timer)),
            Event::Forge { node, bytes } => self.forge(*node, bytes.as_slice()),
        }
    }

    fn is_over(&self) -> bool
        ensures { result ≡ is_over self.now }
    {
        self.log.events >= MAX_EVENTS || self.log.sent.len() > MAX_DATAGRAMS
    }

    // Bytes that no node sent come to a node.
    fn forge(&mut self, node: u8, bytes: &[u8]) -> Result<Report<A>, EventFault>
        requires whole { self.old.failed ≡ false }
        requires runs { is_over self.old ≡ false }
        ensures played { IfOk result (λ report. IsPlayable {A = A} self.old (Event.Forge node bytes.now)
            × Plays {A = A} self.old (Event.Forge node bytes.now) report self.new) }
        ensures not_played { IfErr result
            (λ fault. IsFault {A = A} self.old (Event.Forge node bytes.now) fault self.new) }
        ensures within { AreWithin self.new.nodes }
    {
        self.play(node, &Input::Received(&Packet::of(bytes)))
    }

    // A node takes an input, unless it would draw a number under which some node still holds a record or an end.
    fn play(&mut self, node: u8, input: &Input<'_, A>) -> Result<Report<A>, EventFault>
        requires whole { self.old.failed ≡ false }
        requires runs { is_over self.old ≡ false }
        ensures played { IfOk result (λ report. PlaysAt self.old node (Takes input.now) report self.new) }
        ensures free { IfOk result (λ report. AreFree self.old.nodes node (λ n draw. Draws n input.now draw)) }
        ensures not_played { IfErr result (λ fault. IsNotTaken self.old node input.now fault self.new) }
        ensures within { AreWithin self.new.nodes }
    {
        let Some(place) = place_of(&self.nodes, node) else {
            return Err(EventFault::Refused(Refusal::NotForNode));
        };
        if draws_held(&self.nodes, place, node, input) {
            return Err(EventFault::Refused(Refusal::Untimely));
        }
        let report = take(&mut self.nodes[place], input, &mut self.out);
        let Ok(()) = self.log.record(node, drawn_by(&report), &mut self.out) else {
            return Err(EventFault::NoMemory);
        };
        Ok(report)
    }

    // The bytes that come stay where they lie, since what the node sends goes to the outbox first.
    fn deliver(&mut self, datagram: u64, node: u8) -> Result<Report<A>, EventFault>
        requires whole { self.old.failed ≡ false }
        requires runs { is_over self.old ≡ false }
        ensures played { IfOk result (λ report. IsPlayable {A = A} self.old (Event.Deliver datagram node)
            × PlaysDelivery self.old datagram node report self.new) }
        ensures not_played { IfErr result
            (λ fault. IsFault {A = A} self.old (Event.Deliver datagram node) fault self.new) }
        ensures within { AreWithin self.new.nodes }
    {
        if datagram >= self.log.sent.len() as u64 {
            return Err(EventFault::Refused(Refusal::NoDatagram));
        }
        let sent = self.log.sent.get(datagram as usize);
        if !is_for(sent.to, node) {
            return Err(EventFault::Refused(Refusal::NotForNode));
        }
        let Some(place) = place_of(&self.nodes, node) else {
            return Err(EventFault::Refused(Refusal::NotForNode));
        };
        let packet = Packet::of(sent.bytes);
        if !is_fresh(&self.log.last, &packet, sent.event) {
            return Err(EventFault::Refused(Refusal::Untimely));
        }
        let input = Input::Received(&packet);
        if draws_held(&self.nodes, place, node, &input) {
            return Err(EventFault::Refused(Refusal::Untimely));
        }
        let report = take(&mut self.nodes[place], &input, &mut self.out);
        let Ok(()) = self.log.record(node, drawn_by(&report), &mut self.out) else {
            return Err(EventFault::NoMemory);
        };
        Ok(report)
    }
}

// Whether the node of a number, at its place, would draw a number under which some node still holds a record or an end.
fn draws_held<A: Allocator + Copy>(
    nodes: &[Node<A>],
    place: usize,
    node: u8,
    input: &Input<'_, A>,
) -> bool
    requires { position_from (is_numbered node) 0 nodes.now ≡ Some place }
    ensures held { result ≡ true → ¬ AreFree nodes.now node (λ n draw. Draws n input.now draw) }
    ensures free { result ≡ false → AreFree nodes.now node (λ n draw. Draws n input.now draw) }
{
    let draw = nodes[place].draw_of(input);
    is_held(nodes, node, draw)
}

// Whether a datagram to this node, or to every node, may be delivered to `node`.
fn is_for(to: u8, node: u8) -> bool
    ensures { result ≡ ((to == node) || (to == 255)) }
{
    to == node || to == 255
}
