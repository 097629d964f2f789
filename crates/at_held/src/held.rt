//! A node, the datagrams that it sent, and what came of its last event.
ghost use Rattle.std.specs.Prelude.{◌≡◌, ◌∷◌, [], IfErr, IfOk, List, OnOk, Ok, codes, ℕ};
ghost use Rattle.at_words.specs.Words.{words_of};
ghost use Rattle.at_held.specs.Handing.{HandsDatagram, HandsReport, HandsSentence, HandsTimers};
ghost use Rattle.at_held.specs.Held.{Happens, IsOpened, Plays, refusal_in};
ghost use Rattle.at_held.specs.Openings.{IsFault};
ghost use Rattle.at_held.specs.Safety.{IsSafe};
ghost use Rattle.at_node.specs.Limits.{IsWithin};
ghost use Rattle.at_node.specs.Timers.{timers_of};
ghost use Rattle.at_steps.specs.Safety.{IsTableOf, IsTableOfCall};
ghost use Rattle.at_nodes.specs.Taking.{Receives, Takes};

use crate::opening::{OpenFault, node_of};
use crate::room::{place, place_text};
use crate::sent::Sent;
use crate::text::{line_of, sentence_of};
use crate::timers::timer_lines;
use crate::withheld::Withheld;
use at_call_words::{call_of_any, timer_of_any};
use at_event::Report;
use at_faults::{LineFault, Rule};
use at_node::{Input, Node};
use at_packet::Packet;
use at_steps::laws::safety::every_event_is_safe;
use at_words::Words;
use std::alloc::{AllocError, Global};
use std::marker::Model;

/// A node, the datagrams of it that nobody took yet, and what came of its last event.
#[derive(Drop)]
pub struct HeldNode {
    node: Node,
    sent: Sent,
    report: Option<Report>,
}

impl Model for HeldNode {
    ghost use Rattle.at_held.specs.Held.{HeldState};
    ghost use Rattle.at_held.specs.Waiting.{waiting_of};

    ghost Value = { HeldState };

    ghost view = { λ h. record { node = h.node; waiting = waiting_of h.sent; report = h.report } };
}

impl HeldNode {
    /// The node of this number, of the cable that the first lines of a schedule set up. Nothing happened to it yet.
    pub fn open(alloc: Global, setup: &[u8], number: u8) -> Result<HeldNode, OpenFault>
        ensures opened { IfOk result (IsOpened setup.now number) }
        ensures fault { IfErr result (IsFault setup.now number) }
        ensures within { IfOk result (λ held. IsWithin held.node) }
    {
        let node = node_of(alloc, setup, number)?;
        node.limits();
        Ok(HeldNode {
            node,
            sent: Sent::new(alloc),
            report: None,
        })
    }

    /// Plays `call CALL` or `timer TIMER`, as a schedule says them of a node, but with requesters of other networks as
    /// `NET.NODE`. Unlawful if the line says neither. Only a call, or a timer whose step takes memory, can lack memory.
    pub fn play(&mut self, alloc: Global, line: &[u8]) -> Result<(), LineFault>
        ensures played { Plays line.now self.old result self.new }
        ensures safe { OnOk result (IsSafe IsTableOfCall self.old self.new) }
        ensures within { IsWithin self.new.node }
    {
        every_event_is_safe::<Global>();
        self.limits();
        let played = self.play_line(alloc, line);
        self.limits();
        played
    }

    /// Takes bytes that came. A request for the service is reported, and answered later, by a call.
    pub fn receive(&mut self, bytes: &[u8]) -> Result<(), AllocError>
        ensures received { Happens (Receives bytes.now) self.old result self.new }
        ensures safe { OnOk result (IsSafe (IsTableOf bytes.now) self.old self.new) }
        ensures within { IsWithin self.new.node }
    {
        every_event_is_safe::<Global>();
        self.limits();
        let received = self.take(&Input::Received(&Packet::of(bytes)));
        self.limits();
        received
    }

    // The node keeps to its limits. The body only visits it.
    fn limits(&self)
        ensures { IsWithin self.now.node }
    {
        self.node.limits();
    }

    fn play_line(&mut self, alloc: Global, line: &[u8]) -> Result<(), LineFault>
        ensures { Plays line.now self.old result self.new }
    {
        let mut words = Words::of(line);
        if words.take_if(b"call") {
            self.play_call(alloc, words)
        } else if words.take_if(b"timer") {
            self.play_timer(words)
        } else {
            Err(LineFault::Unlawful(Rule::FirstWord))
        }
    }

    // Plays the call of these words, which follow `call` in a line.
    fn play_call(&mut self, alloc: Global, words: Words<'_>) -> Result<(), LineFault>
        ensures { (line : List ℕ) → words_of line ≡ codes "call" ∷ words_of words.entry.rest.now
            → Plays line self.old result self.new }
    {
        let call = call_of_any(alloc, self.node.net(), words)?;
        self.take(&Input::Call(&call))?;
        Ok(())
    }

    // Lets the timer of these words fire, which follow `timer` in a line.
    fn play_timer(&mut self, words: Words<'_>) -> Result<(), LineFault>
        ensures { (line : List ℕ) → words_of line ≡ codes "timer" ∷ words_of words.entry.rest.now
            → Plays line self.old result self.new }
    {
        match timer_of_any(self.node.net(), words) {
            Ok(timer) => {
                self.take(&Input::Timer(timer))?;
                Ok(())
            }
            Err(rule) => Err(LineFault::Unlawful(rule)),
        }
    }

    // If the node is out of memory, nothing changed, and the report of the event before stays.
    fn take(&mut self, input: &Input<'_, Global>) -> Result<(), AllocError>
        ensures { Happens (Takes input.now) self.old result self.new }
    {
        let report = self.sent.take(&mut self.node, input);
        if let Report::NoMemory = report {
            return Err(AllocError);
        }
        self.report = Some(report);
        Ok(())
    }

    /// Copies out the datagram that waits for longest, and gives the node that it goes to and how long it is.
    pub fn next_datagram(&mut self, room: &mut [u8]) -> Result<(u8, usize), Withheld>
        ensures { HandsDatagram self.old room.old result self.new room.new }
    {
        let Some((node, bytes)) = self.sent.first() else {
            return Err(Withheld::Missing);
        };
        let length = place(bytes, room)?;
        self.sent.pass();
        Ok((node, length))
    }

    /// Copies out the line of what came of the last event, under this number, and gives its length.
    pub fn report(&self, alloc: Global, event: u32, room: &mut [u8]) -> Result<usize, Withheld>
        ensures { HandsReport self.now event room.old result room.new }
    {
        let Some(report) = &self.report else {
            return Err(Withheld::Missing);
        };
        place_text(line_of(alloc, self.node.net(), event, report), room)
    }

    /// Copies out a line for each timer that would do something now, and gives their length. A timer that is not
    /// listed does nothing.
    pub fn timers(&self, alloc: Global, room: &mut [u8]) -> Result<usize, Withheld>
        ensures lines { HandsTimers self.now room.old result room.new }
        ensures none { timers_of self.now.node ≡ [] → result ≡ Ok 0 }
    {
        place_text(timer_lines(alloc, &self.node), room)
    }

    /// The number of the refusal, if the last event was refused.
    pub fn refusal(&self) -> Option<u8>
        ensures { result ≡ refusal_in self.now }
    {
        match &self.report {
            Some(Report::Refused(number)) => Some(*number),
            _ => None,
        }
    }

    /// Copies out the sentence of the refusal of the last event, and gives its length.
    pub fn sentence(&self, alloc: Global, room: &mut [u8]) -> Result<usize, Withheld>
        ensures { HandsSentence self.now room.old result room.new }
    {
        let number = self.refusal().ok_or(Withheld::Missing)?;
        match sentence_of(alloc, number) {
            Ok(sentence) => place(sentence.as_bytes(), room),
            Err(_) => Err(Withheld::NoMemory),
        }
    }
}
