//! What a world keeps of the events that it played: what they drew, and what they sent.
ghost use Rattle.std.specs.Prelude.{◌≡◌, ◌<◌, ◌++◌, ◌+◌, [], OnErr, OnOk, false, map, true};
ghost use Rattle.at_node.specs.Numbers.{drawn_by};
ghost use Rattle.at_world.specs.Draws.{noted};
ghost use Rattle.at_world.specs.Sents.{stamp};

use crate::draws::LastDraws;
use crate::sent::SentList;
use at_ddp::Outbox;
use at_event::{NameReport, Report, StreamReport, TransactionReport};
use at_node::Draw;
use std::alloc::{AllocError, Allocator};

/// The most events that are played.
pub(crate) const MAX_EVENTS: u32 = 200_000;

/// What the events drew and sent, and how many they were.
#[derive(Drop)]
pub(crate) struct Log<A: Allocator> {
    pub(crate) sent: SentList<A>,
    pub(crate) last: LastDraws<A>,
    pub(crate) events: u32,
    /// Whether memory ran out for an event. No event is played after that.
    pub(crate) failed: bool,
}

impl<A: Allocator + Copy> Log<A> {
    pub(crate) fn new(alloc: A) -> Log<A>
        ensures { result ≡ record { sent = []; last = []; events = 0; failed = false } }
    {
        Log {
            sent: SentList::new(alloc),
            last: LastDraws::new(alloc),
            events: 0,
            failed: false,
        }
    }

    pub(crate) fn into_sent(self) -> SentList<A>
        ensures { result ≡ self.sent }
    {
        self.sent
    }

    /// Records what a node drew and sent at an event, and empties the outbox. If memory runs out, the log has failed.
    pub(crate) fn record(
        &mut self,
        node: u8,
        drawn: Option<Draw>,
        out: &mut Outbox<A>,
    ) -> Result<(), AllocError>
        requires { self.old.events < MAX_EVENTS }
        ensures recorded { OnOk result (self.new ≡ record {
          sent = self.old.sent ++ map (stamp self.old.events) out.old.items;
          last = noted self.old.last node self.old.events drawn;
          events = self.old.events + 1;
          failed = false;
        }) }
        ensures failed { OnErr result ((self.new.failed ≡ true) × (self.new.sent ≡ self.old.sent)) }
        ensures emptied { out.new.items ≡ [] }
    {
        let recorded = self.add(node, drawn, out);
        out.clear();
        self.failed = recorded.is_err();
        recorded
    }

    fn add(&mut self, node: u8, drawn: Option<Draw>, out: &mut Outbox<A>) -> Result<(), AllocError>
        requires { self.old.events < MAX_EVENTS }
        ensures added { OnOk result (self.new ≡ record {
          sent = self.old.sent ++ map (stamp self.old.events) out.old.items;
          last = noted self.old.last node self.old.events drawn;
          events = self.old.events + 1;
          failed = self.old.failed;
        }) }
        ensures kept { OnErr result (self.new.sent ≡ self.old.sent) }
    {
        note(&mut self.last, node, drawn, self.events)?;
        self.sent.append(out, self.events)?;
        self.events += 1;
        Ok(())
    }
}

// Records the number that an event drew, if it drew one.
fn note<A: Allocator + Copy>(
    last: &mut LastDraws<A>,
    node: u8,
    drawn: Option<Draw>,
    event: u32,
) -> Result<(), AllocError>
    ensures { OnOk result (last.new ≡ noted last.old node event drawn) }
{
    match drawn {
        Some(draw) => last.note(node, draw, event),
        None => Ok(()),
    }
}

/// The number that a node drew, if this is its report.
pub(crate) fn drawn_by<A: Allocator>(report: &Report<A>) -> Option<Draw>
    ensures { result ≡ drawn_by report.now }
{
    match report {
        Report::Transactions(TransactionReport::Begun(tid)) => Some(Draw::Tid(*tid)),
        Report::Names(NameReport::Looking(id)) => Some(Draw::Lookup(*id)),
        Report::Streams(StreamReport::Opening(id) | StreamReport::Made(id)) => {
            Some(Draw::Conn(*id))
        }
        _ => None,
    }
}
