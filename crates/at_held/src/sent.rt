//! What a node sent and nobody took yet.
ghost use Rattle.std.specs.Prelude.{◌≡◌, ◌≢◌, ◌<◌, ◌∷◌, [], List, MatchOption, drop, length};
ghost use Rattle.at_ddp.specs.Outbox.{Posted};
ghost use Rattle.at_held.specs.Waiting.{nothing_kept, waiting_of};
ghost use Rattle.at_node.specs.Limits.{IsWithin};
ghost use Rattle.at_nodes.specs.Taking.{Takes};

use at_ddp::Outbox;
use at_event::Report;
use at_node::{Input, Node};
use at_nodes::take;
use std::alloc::Global;
use std::marker::Model;
use std::mem;

/// The datagrams that a node sent and nobody took yet, in two lists. They are taken from the earlier one, and what is
/// sent meanwhile goes to the later one. Once all of the earlier list are taken, the two lists change places, and both
/// keep their room. So there is memory for at most twice as many datagrams as ever waited at once, and a node that
/// sends no more than before asks for none.
#[derive(Drop)]
pub(crate) struct Sent {
    earlier: Outbox,
    // How many of the earlier list are taken.
    taken: usize,
    later: Outbox,
}

impl Model for Sent {
    ghost use Rattle.std.specs.Prelude.{◌≤◌, drop, length};
    ghost use Rattle.at_held.specs.Waiting.{FreesTaken, Kept};

    ghost Value = { Kept };

    ghost view = { λ s. record {
      taken = s.taken;
      first = drop s.taken s.earlier.items;
      later = s.later.items;
    } };

    ghost invariant = { λ s. (s.taken ≤ length s.earlier.items)
        × FreesTaken s.taken (length s.earlier.items) s.later.items };
}

impl Sent {
    pub(crate) fn new(alloc: Global) -> Sent
        ensures { result ≡ nothing_kept }
    {
        Sent {
            earlier: Outbox::new(alloc),
            taken: 0,
            later: Outbox::new(alloc),
        }
    }

    /// The node takes an input. What it sends waits behind all that waits already.
    pub(crate) fn take(&mut self, node: &mut Node, input: &Input<'_, Global>) -> Report
        ensures takes { Takes input.now node.old (waiting_of self.old) result node.new (waiting_of self.new) }
        ensures apart { self.old.first ≢ []
            → (self.new.first ≡ self.old.first) × (self.new.taken ≡ self.old.taken) }
        ensures within { IsWithin node.new }
    {
        let report = take(node, input, &mut self.later);
        if self.earlier.is_empty() {
            mem::swap(&mut self.earlier, &mut self.later);
        }
        report
    }

    /// The datagram that waits for longest, and the node that it goes to.
    pub(crate) fn first(&self) -> Option<(u8, &[u8])>
        ensures { MatchOption result (waiting_of self.now ≡ []) (λ first. (rest : List Posted)
            × (waiting_of self.now ≡ record { node = first.0; bytes = first.1.now } ∷ rest)) }
    {
        if self.taken >= self.earlier.len() {
            return None;
        }
        let node = self.earlier.node(self.taken);
        Some((node, self.earlier.get(self.taken)))
    }

    /// The datagram that waits for longest is taken.
    pub(crate) fn pass(&mut self)
        requires { 0 < length (waiting_of self.old) }
        ensures { waiting_of self.new ≡ drop 1 (waiting_of self.old) }
    {
        let left = self.earlier.len() - self.taken;
        if left > 1 {
            self.taken += 1;
        } else {
            self.earlier.clear();
            self.taken = 0;
            mem::swap(&mut self.earlier, &mut self.later);
        }
    }
}
