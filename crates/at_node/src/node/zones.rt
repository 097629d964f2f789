//! What a node does for the calls of zone tables.
ghost use Rattle.std.specs.Prelude.{◌≡◌};
ghost use Rattle.at_event.specs.Outcomes.{IsStep};
ghost use Rattle.at_node.specs.Nodes.{called};
ghost use Rattle.at_node.specs.Numbers.{zone_draw};

use crate::node::Node;
use crate::numbers::Draw;
use at_ddp::Outbox;
use at_event::{Call, Report, ZoneCall};
use std::alloc::Allocator;

impl<A: Allocator + Copy> Node<A> {
    pub(crate) fn call_zones(&mut self, call: &ZoneCall<A>, out: &mut Outbox<A>) -> Report<A>
        ensures { IsStep (called self.old (Call.Zones call.now)) self.old out.old.items result self.new out.new.items }
    {
        match call {
            ZoneCall::Read { which } => self.atp.read_zones(self.seat, *which, out),
            ZoneCall::Set { which, names } => self.atp.set_zones(*which, names.as_slice()),
        }
    }

    pub(crate) fn draw_of_zones(&self, call: &ZoneCall<A>) -> Option<Draw>
        ensures { result ≡ zone_draw self.now call.now }
    {
        match call {
            ZoneCall::Read { .. } => {
                if self.seat.router.is_none() || self.atp.reads_zones() {
                    return None;
                }
                self.next_draw()
            }
            ZoneCall::Set { .. } => None,
        }
    }
}
