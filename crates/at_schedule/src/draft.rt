//! A schedule of which some lines are read.
ghost use Rattle.std.specs.Prelude.{◌≡◌, ◌≢◌, ◌⊎◌, ◌++◌, ◌∷◌, [], List, ℕ, false, true, Err, Some, IfOk, IfSome};
ghost use Rattle.std.specs.Prelude.{IsSome, OnErr, OnOk};
ghost use Rattle.at_call_words.specs.Readings.{IfUnlawful, IsFoundInMemory};
ghost use Rattle.at_setup_lines.specs.Drafts.{IsDraft, IsNoSetup, Refuses, Takes, has_events};
ghost use Rattle.at_setup_lines.specs.SetupLines.{IsSetup};
ghost use Rattle.at_setup.specs.declared.event.Event.{Event as Happening};
ghost use Rattle.at_schedule.specs.Drafts.{BeginSchedule, IsRead};
ghost use Rattle.at_schedule.specs.Says.{IsEventHere, Reads, SaysEvent, SaysFound};
ghost use Rattle.at_schedule.specs.Schedules.{IsKept, is_event_word, is_kept_word, is_passed_over};
ghost use Rattle.at_words.specs.Words.{words_of};

use crate::event_line::{call_event, delivery_event, forged_event, timer_event};
use at_faults::{LineFault, Rule};
use at_setup::{Event, Setup};
use at_setup_lines::SetupDraft;
use at_setup_lines::laws::lines_begin_with_known_words;
use at_words::Words;
use std::alloc::{Allocator, Global};
use std::marker::Model;

/// What the lines so far say.
#[derive(Drop)]
pub struct Draft<A: Allocator = Global> {
    alloc: A,
    setup: SetupDraft<A>,
}

impl<A: Allocator> Model for Draft<A> {
    ghost use Rattle.at_setup_lines.specs.Drafts.{Draft};

    ghost Value = { Draft };

    ghost view = { λ d. d.setup };
}

impl<A: Allocator + Copy> Draft<A> {
    /// No line is read yet.
    pub fn new(alloc: A) -> Draft<A>
        ensures { IsRead A [] result }
    {
        Draft {
            alloc,
            setup: SetupDraft::new(alloc),
        }
    }

    /// The number of the network that the lines so far say; 0 if they say none yet.
    pub fn net(&self) -> u16
        ensures { result ≡ self.now.net }
    {
        self.setup.net()
    }

    /// Takes one line more, and gives its event if it has one. A requester that it names is on network `net`.
    pub fn take_line(&mut self, net: u16, line: &[u8]) -> Result<Option<Event<A>>, LineFault>
        ensures reads { IfOk result (Reads line.now) }
        ensures here { IfOk result (λ found. IfSome found (IsEventHere net)) }
        ensures taken { OnOk result ((lines : List (List ℕ)) → IsRead A lines self.old
            → IsRead A (lines ++ line.now ∷ []) self.new) }
        ensures kept { OnErr result (self.new ≡ self.old) }
        ensures only { IfUnlawful result ((lines : List (List ℕ)) → IsRead A lines self.old
            → ¬ BeginSchedule A (lines ++ line.now ∷ [])) }
        // The network is set once events come.
        ensures net { IfOk result (λ found. (has_events self.old ≡ true) ⊎ IsSome found
            → self.new.net ≡ self.old.net) }
        // A delivery, a timer, and a line that says nothing take none.
        ensures memory { result ≡ Err LineFault.NoMemory → IsKept line.now }
    {
        lines_begin_with_known_words::<A>();
        if is_passed_over(line) {
            return Ok(None);
        }
        let mut words = Words::of(line);
        let Some(word) = words.next() else {
            return Err(LineFault::Unlawful(Rule::SpacesAlone));
        };
        if is_event_word(word) {
            self.take_event(net, word, words)
        } else {
            match self.take_head(word, words) {
                Ok(()) => Ok(None),
                Err(fault) => Err(fault),
            }
        }
    }

    fn take_event(
        &mut self,
        net: u16,
        word: &[u8],
        words: Words<'_>,
    ) -> Result<Option<Event<A>>, LineFault>
        ensures said { IfOk result (λ found. (e : Happening A) × (found ≡ Some e)
            × SaysEvent word.now (words_of words.entry.rest.now) e) }
        ensures here { IfOk result (λ found. IfSome found (IsEventHere net)) }
        ensures taken { OnOk result ((has_events self.new ≡ true)
            × ((lines : List (List (List ℕ))) → IsDraft lines self.old → IsDraft lines self.new)) }
        ensures kept { OnErr result (self.new ≡ self.old) }
        ensures only { IfUnlawful result
            (((e : Happening A) → ¬ SaysEvent word.now (words_of words.entry.rest.now) e) ⊎ IsNoSetup A self.old) }
        ensures net { self.new.net ≡ self.old.net }
        ensures memory { result ≡ Err LineFault.NoMemory → is_kept_word word.now ≡ true }
    {
        let found = event_of(self.alloc, net, word, words);
        if found.is_err() {
            return found;
        }
        self.begin_event()?;
        found
    }

    fn begin_event(&mut self) -> Result<(), LineFault>
        ensures taken { OnOk result ((has_events self.new ≡ true)
            × ((lines : List (List (List ℕ))) → IsDraft lines self.old → IsDraft lines self.new)) }
        ensures kept { OnErr result (self.new ≡ self.old) }
        ensures only { IfUnlawful result (IsNoSetup A self.old) }
        ensures net { self.new.net ≡ self.old.net }
        ensures memory { result ≢ Err LineFault.NoMemory }
    {
        if let Err(rule) = self.setup.take_event() {
            return Err(LineFault::Unlawful(rule));
        }
        Ok(())
    }

    // A line that comes before the events.
    fn take_head(&mut self, word: &[u8], words: Words<'_>) -> Result<(), LineFault>
        ensures taken { OnOk result ((has_events self.old ≡ false) × (has_events self.new ≡ false)
            × Takes self.old (word.now ∷ words_of words.entry.rest.now) self.new) }
        ensures kept { OnErr result (self.new ≡ self.old) }
        ensures only { IfUnlawful result (Refuses A self.old (word.now ∷ words_of words.entry.rest.now)) }
    {
        self.setup.take_line(word, words)
    }

    /// The setup, if the lines so far are a schedule, or what is missing.
    pub(crate) fn finish(self) -> Result<Setup<A>, Rule>
        ensures said { IfOk result (λ s. (lines : List (List (List ℕ))) → IsDraft lines self → IsSetup lines s) }
        ensures net { IfOk result (λ s. s.net ≡ self.net) }
        ensures only { OnErr result (IsNoSetup A self) }
    {
        self.setup.finish()
    }
}

// The event of a line, after its first word. An event is large, so it is handed on as it is found, and never moved from
// one result to another.
fn event_of<A: Allocator + Copy>(
    alloc: A,
    net: u16,
    word: &[u8],
    words: Words<'_>,
) -> Result<Option<Event<A>>, LineFault>
    ensures said { IsFoundInMemory result (SaysFound word.now (words_of words.entry.rest.now)) }
    ensures here { IfOk result (λ found. IfSome found (IsEventHere net)) }
    ensures memory { result ≡ Err LineFault.NoMemory → is_kept_word word.now ≡ true }
{
    if word == b"call".as_slice() {
        return call_event(alloc, net, words);
    }
    if word == b"deliver".as_slice() {
        return delivery_event(words);
    }
    if word == b"timer".as_slice() {
        return timer_event(net, words);
    }
    if word == b"forge".as_slice() {
        return forged_event(alloc, words);
    }
    Err(LineFault::Unlawful(Rule::FirstWord))
}

/// Whether a line says nothing: it is empty, or begins with `#`.
pub fn is_passed_over(line: &[u8]) -> bool
    ensures { result ≡ is_passed_over line.now }
{
    match line.first() {
        Some(byte) => *byte == b'#',
        None => true,
    }
}

fn is_event_word(word: &[u8]) -> bool
    ensures { result ≡ is_event_word word.now }
{
    word == b"call".as_slice()
        || (word == b"deliver".as_slice()
            || (word == b"timer".as_slice() || word == b"forge".as_slice()))
}
