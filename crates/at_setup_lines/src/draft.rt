//! What is read of the lines of a setup.
ghost use Rattle.std.specs.Prelude.{◌≡◌, ◌≢◌, ◌∷◌, [], List, ℕ, false, true, IsErr, IfErr, IfOk, OnErr, OnOk, codes};
ghost use Rattle.at_words.specs.Words.{words_of};
ghost use Rattle.at_setup_lines.specs.Drafts.{Draft, IsDraft, IsNoSetup, Refuses, Takes};
ghost use Rattle.at_setup_lines.specs.Drafts.{end_rule, event_rule, has_events};
ghost use Rattle.at_setup_lines.specs.SetupLines.{IsSetup};

use crate::node_line::{net_of, node_of};
use crate::nodes::{has_router, lacks_router, rule_broken_by};
use crate::table::table_of;
use at_ddp::{Listed, Pascal};
use at_faults::{LineFault, Rule};
use at_setup::{NodeSetup, Setup};
use at_words::{Words, is_word};
use std::alloc::{Allocator, Global};
use std::marker::Model;

// Which line comes next.
#[derive(Clone, Copy)]
enum Stage {
    /// The network.
    Net,
    /// A node, a zone table or an event.
    Node,
    /// The table of local zones or an event, after the table of all zones.
    Zones,
    /// An event, after the table of local zones.
    Local,
    /// An event, after another one.
    Event,
}

/// What the lines so far say.
#[derive(Drop)]
pub struct SetupDraft<A: Allocator = Global> {
    alloc: A,
    stage: Stage,
    net: u16,
    nodes: Vec<NodeSetup, A>,
    zones: Vec<Pascal, A>,
    local: Vec<Pascal, A>,
}

impl<A: Allocator> Model for SetupDraft<A> {
    ghost use Rattle.at_setup_lines.specs.Drafts.{Draft};

    ghost Value = { Draft };

    ghost view = { λ d. record {
      stage = d.stage;
      net = d.net;
      nodes = d.nodes.items;
      zones = d.zones.items;
      local = d.local.items;
    } };
}

impl<A: Allocator + Copy> SetupDraft<A> {
    /// No line is read yet.
    pub fn new(alloc: A) -> SetupDraft<A>
        ensures draft { IsDraft [] result }
        ensures early { has_events result ≡ false }
    {
        SetupDraft {
            alloc,
            stage: Stage::Net,
            net: 0,
            nodes: Vec::new(alloc),
            zones: Vec::new(alloc),
            local: Vec::new(alloc),
        }
    }

    /// The network, once its line is read.
    pub fn net(&self) -> u16
        ensures { result ≡ self.now.net }
    {
        self.net
    }

    /// The nodes so far.
    pub fn nodes(&self) -> &[NodeSetup]
        ensures { result.now ≡ self.now.nodes }
    {
        self.nodes.as_slice()
    }

    /// Takes the line that begins with this word, which is no event's.
    pub fn take_line(&mut self, word: &[u8], words: Words<'_>) -> Result<(), LineFault>
        ensures taken { OnOk result (Takes self.old (word.now ∷ words_of words.entry.rest.now) self.new) }
        ensures kept { OnErr result (self.new ≡ self.old) }
        ensures only { IfErr result (λ fault. fault ≢ LineFault.NoMemory
            → Refuses A self.old (word.now ∷ words_of words.entry.rest.now)) }
        ensures early { OnOk result (has_events self.new ≡ false) }
        ensures late { has_events self.old ≡ true → IsErr result }
        ensures net { self.old.stage ≢ Stage.Net → self.new.net ≡ self.old.net }
    {
        if is_word(word, b"net") {
            self.take_net(words)
        } else if is_word(word, b"node") {
            self.take_node(words)
        } else if is_word(word, b"zones") {
            self.take_zones(words)
        } else if is_word(word, b"local") {
            self.take_local(words)
        } else {
            Err(LineFault::Unlawful(Rule::FirstWord))
        }
    }

    // Takes the line of the network, after its first word.
    fn take_net(&mut self, words: Words<'_>) -> Result<(), LineFault>
        ensures taken { OnOk result (Takes self.old (codes "net" ∷ words_of words.entry.rest.now) self.new) }
        ensures kept { OnErr result (self.new ≡ self.old) }
        ensures only { IfErr result (λ fault. fault ≢ LineFault.NoMemory
            → Refuses A self.old (codes "net" ∷ words_of words.entry.rest.now)) }
        ensures early { OnOk result (has_events self.new ≡ false) }
        ensures late { has_events self.old ≡ true → IsErr result }
        ensures net { self.old.stage ≢ Stage.Net → self.new.net ≡ self.old.net }
    {
        let net = net_of(words).ok_or(LineFault::Unlawful(Rule::Net))?;
        match self.stage {
            Stage::Net => {
                self.net = net;
                self.stage = Stage::Node;
                Ok(())
            }
            _ => Err(LineFault::Unlawful(Rule::NetOnce)),
        }
    }

    // Takes the line of a node, after its first word.
    fn take_node(&mut self, words: Words<'_>) -> Result<(), LineFault>
        ensures taken { OnOk result (Takes self.old (codes "node" ∷ words_of words.entry.rest.now) self.new) }
        ensures kept { OnErr result (self.new ≡ self.old) }
        ensures only { IfErr result (λ fault. fault ≢ LineFault.NoMemory
            → Refuses A self.old (codes "node" ∷ words_of words.entry.rest.now)) }
        ensures early { OnOk result (has_events self.new ≡ false) }
        ensures late { has_events self.old ≡ true → IsErr result }
        ensures net { self.old.stage ≢ Stage.Net → self.new.net ≡ self.old.net }
    {
        let node = node_of(words).ok_or(LineFault::Unlawful(Rule::Node))?;
        match self.stage {
            Stage::Net => return Err(LineFault::Unlawful(Rule::NetFirst)),
            Stage::Zones | Stage::Local | Stage::Event => return Err(LineFault::Unlawful(
                Rule::NodesFirst,
            )),
            Stage::Node => {}
        }
        if let Some(rule) = rule_broken_by(&self.nodes, &node) {
            return Err(LineFault::Unlawful(rule));
        }
        self.nodes.push(node)?;
        Ok(())
    }

    // Takes the line of the table of all zones, after its first word.
    fn take_zones(&mut self, words: Words<'_>) -> Result<(), LineFault>
        ensures taken { OnOk result (Takes self.old (codes "zones" ∷ words_of words.entry.rest.now) self.new) }
        ensures kept { OnErr result (self.new ≡ self.old) }
        ensures only { IfErr result (λ fault. fault ≢ LineFault.NoMemory
            → Refuses A self.old (codes "zones" ∷ words_of words.entry.rest.now)) }
        ensures early { OnOk result (has_events self.new ≡ false) }
        ensures late { has_events self.old ≡ true → IsErr result }
        ensures net { self.old.stage ≢ Stage.Net → self.new.net ≡ self.old.net }
    {
        match self.stage {
            Stage::Net => return Err(LineFault::Unlawful(Rule::NetFirst)),
            Stage::Local => return Err(LineFault::Unlawful(Rule::ZonesFirst)),
            Stage::Zones | Stage::Event => return Err(LineFault::Unlawful(Rule::ZonesOnce)),
            Stage::Node => {}
        }
        if !has_router(&self.nodes) {
            return Err(LineFault::Unlawful(Rule::ZonesOfRouter));
        }
        self.zones = table_of(self.alloc, words, Rule::Zones, Rule::ZonesFitTable)?;
        self.stage = Stage::Zones;
        Ok(())
    }

    // Takes the line of the table of local zones, after its first word.
    fn take_local(&mut self, words: Words<'_>) -> Result<(), LineFault>
        ensures taken { OnOk result (Takes self.old (codes "local" ∷ words_of words.entry.rest.now) self.new) }
        ensures kept { OnErr result (self.new ≡ self.old) }
        ensures only { IfErr result (λ fault. fault ≢ LineFault.NoMemory
            → Refuses A self.old (codes "local" ∷ words_of words.entry.rest.now)) }
        ensures early { OnOk result (has_events self.new ≡ false) }
        ensures late { has_events self.old ≡ true → IsErr result }
        ensures net { self.old.stage ≢ Stage.Net → self.new.net ≡ self.old.net }
    {
        match self.stage {
            Stage::Net => return Err(LineFault::Unlawful(Rule::NetFirst)),
            Stage::Local | Stage::Event => return Err(LineFault::Unlawful(Rule::LocalOnce)),
            Stage::Node | Stage::Zones => {}
        }
        if !has_router(&self.nodes) {
            return Err(LineFault::Unlawful(Rule::LocalOfRouter));
        }
        self.local = table_of(self.alloc, words, Rule::Local, Rule::LocalFitsTable)?;
        self.stage = Stage::Local;
        Ok(())
    }

    /// Takes the first word of an event's line, after which no line of the setup comes.
    pub fn take_event(&mut self) -> Result<(), Rule>
        ensures taken { OnOk result ((lines : List (List (List ℕ))) → IsDraft lines self.old → IsDraft lines self.new) }
        ensures over { OnOk result (has_events self.new ≡ true) }
        ensures kept { OnErr result (self.new ≡ self.old) }
        ensures only { OnErr result (IsNoSetup A self.old) }
        ensures rule { IfErr result (λ rule. rule ≡ event_rule self.old.stage) }
        ensures net { self.new.net ≡ self.old.net }
    {
        match self.stage {
            Stage::Net => return Err(Rule::NetFirst),
            Stage::Node => {
                if lacks_router(&self.nodes) {
                    return Err(Rule::RouterMissing);
                }
            }
            Stage::Zones | Stage::Local | Stage::Event => {}
        }
        self.stage = Stage::Event;
        Ok(())
    }

    /// The setup, if the lines so far are one, or what is missing.
    pub fn finish(self) -> Result<Setup<A>, Rule>
        ensures said { IfOk result (λ s. (lines : List (List (List ℕ))) → IsDraft lines self → IsSetup lines s) }
        ensures only { OnErr result (IsNoSetup A self) }
        ensures rule { IfErr result (λ rule. rule ≡ end_rule self.net) }
        ensures net { IfOk result (λ s. s.net ≡ self.net) }
    {
        let SetupDraft {
            net,
            nodes,
            zones,
            local,
            ..
        } = self;
        let setup = Setup {
            net,
            nodes: Listed::from_vec(nodes),
            zones: Listed::from_vec(zones),
            local: Listed::from_vec(local),
        };
        if setup.is_lawful() {
            Ok(setup)
        } else {
            Err(missing_after(net))
        }
    }
}

fn missing_after(net: u16) -> Rule
    ensures { result ≡ end_rule net }
{
    if net == 0 {
        Rule::NoNet
    } else {
        Rule::NoRouter
    }
}
