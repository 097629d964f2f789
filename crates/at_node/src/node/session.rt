//! What a node does for its user's session: what it keeps of reports, and the calls that use it.
ghost use Rattle.std.specs.Prelude.{List};
ghost use Rattle.at_ddp.specs.Outbox.{Posted};
ghost use Rattle.at_event.specs.Outcomes.{IsStep};
ghost use Rattle.at_node.specs.Nodes.{called};

use crate::node::Node;
use at_ddp::{Outbox, Pascal};
use at_event::{Call, NameCall, NodeFault, Report, SessionCall, StreamCall};
use std::alloc::Allocator;

impl<A: Allocator + Copy> Node<A> {
    // Sends nothing.
    pub(crate) fn call_session(&mut self, call: &SessionCall) -> Report<A>
        ensures { (sent : List Posted)
            → IsStep (called {A = A} self.old (Call.Session call.now)) self.old sent result self.new sent }
    {
        match call {
            SessionCall::Pick { zone } => self.pick(zone),
        }
    }

    // Picks a zone of a zone list that was read last.
    pub(crate) fn pick(&mut self, zone: &Pascal) -> Report<A>
        ensures { (sent : List Posted)
            → IsStep (called {A = A} self.old (Call.Session (SessionCall.Pick zone.now))) self.old sent result self.new
            sent }
    {
        match self.session.pick(zone) {
            Ok(()) => Report::Picked,
            Err(fault) => Report::Refused(fault.number()),
        }
    }

    // Ends a lookup. What it found is kept, unless it is a claim.
    pub(crate) fn finish(&mut self, id: u8) -> Report<A>
        ensures { (sent : List Posted)
            → IsStep (called {A = A} self.old (Call.Names (NameCall.Finish id))) self.old sent result self.new sent }
    {
        let Ok(finds) = self.names.finds_told(id) else {
            return Report::NoMemory;
        };
        let report = self.names.finish(id);
        self.session.keep_finds(&report, finds);
        report
    }

    // Asks for a connection with what was found.
    pub(crate) fn open(&mut self, index: u64, out: &mut Outbox<A>) -> Report<A>
        ensures { IsStep (called {A = A} self.old (Call.Streams (StreamCall.Open index))) self.old out.old.items result
            self.new out.new.items }
    {
        match self.session.address_at(index) {
            Some(to) => self.streams.connect(self.seat, to, out),
            None => Report::Refused(NodeFault::NotFound.number()),
        }
    }
}
