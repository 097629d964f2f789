//! What a node does with an input, whatever carried it.
ghost use Rattle.std.specs.Prelude.{◌≡◌};
ghost use Rattle.at_node.specs.Limits.{IsWithin};
ghost use Rattle.at_nodes.specs.Taking.{Takes};

use at_ddp::Outbox;
use at_event::{Deferring, Report};
use at_node::laws::a_node_keeps_its_seat;
use at_node::{Input, Node};
use std::alloc::Allocator;

/// A node takes an input. What it sends goes to the end of the outbox. It keeps its seat and its limits.
/// Its service leaves every answer for later.
pub fn take<A: Allocator + Copy>(
    node: &mut Node<A>,
    input: &Input<'_, A>,
    out: &mut Outbox<A>,
) -> Report<A>
    ensures takes { Takes input.now node.old out.old.items result node.new out.new.items }
    ensures seat { node.new.seat ≡ node.old.seat }
    ensures within { IsWithin node.new }
{
    a_node_keeps_its_seat::<A>();
    let report = give(node, input, out);
    node.limits();
    report
}

fn give<A: Allocator + Copy>(
    node: &mut Node<A>,
    input: &Input<'_, A>,
    out: &mut Outbox<A>,
) -> Report<A>
    ensures { Takes input.now node.old out.old.items result node.new out.new.items }
{
    match input {
        Input::Call(call) => node.call(call, out),
        Input::Timer(timer) => node.timer(*timer, out),
        Input::Received(received) => node.hear(&mut Deferring, received, out),
    }
}
