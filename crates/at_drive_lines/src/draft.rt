//! A drive of which some lines are read.
ghost use Rattle.std.specs.Prelude.{◌≡◌, ◌∷◌, ◌++◌, [], List, ℕ, true, false, IfOk, OnErr, OnOk};
ghost use Rattle.at_call_words.specs.Readings.{IfUnlawful};
ghost use Rattle.at_setup.specs.declared.setup.Setup.{Setup as Said};
ghost use Rattle.at_drive.specs.declared.step.Step.{Step as Move};
ghost use Rattle.at_words.specs.Words.{words_of};
ghost use Rattle.at_drive_lines.specs.Drafts.{Adds, Bars, BeginDrive, HasRead, words_in};
ghost use Rattle.at_drive_lines.specs.Says.{AreDrive, is_step_word};

use crate::head::DriveHead;
use crate::ports::{port_of, rule_broken_by};
use crate::step_line::{is_step_word, stands_among, step_of};
use at_faults::{LineFault, Rule};
use at_schedule::is_passed_over;
use at_setup_lines::SetupDraft;
use at_setup_lines::laws::{
    a_router_wants_a_number, lines_begin_with_known_words, lines_say_one_setup,
};
use at_words::{Words, is_word};
use std::alloc::Allocator;

// Which line comes next.
#[derive(Clone, Copy)]
enum Stage {
    /// The network.
    Net,
    /// The port.
    Port,
    /// Any other.
    Body,
}

/// What the lines so far say.
#[derive(Drop)]
pub(crate) struct DriveDraft<A: Allocator> {
    alloc: A,
    stage: Stage,
    setup: SetupDraft<A>,
    port: u16,
}

impl<A: Allocator + Copy> DriveDraft<A> {
    /// No line is read yet.
    pub(crate) fn new(alloc: A) -> DriveDraft<A>
        ensures { HasRead A [] result }
    {
        DriveDraft {
            alloc,
            stage: Stage::Net,
            setup: SetupDraft::new(alloc),
            port: 0,
        }
    }

    /// Takes one line more.
    pub(crate) fn take_line(&mut self, line: &[u8]) -> Result<(), LineFault>
        ensures taken { OnOk result ((lines : List (List ℕ)) → HasRead A (words_in lines) self.old
            → HasRead A (words_in (lines ++ line.now ∷ [])) self.new) }
        ensures only { IfUnlawful result ((lines : List (List ℕ)) → HasRead A (words_in lines) self.old
            → ¬ BeginDrive A (lines ++ line.now ∷ [])) }
    {
        lines_begin_with_known_words::<A>();
        if is_passed_over(line) {
            return Ok(());
        }
        let mut words = Words::of(line);
        let Some(word) = words.next() else {
            return Err(LineFault::Unlawful(Rule::SpacesAlone));
        };
        self.take_words(word, words)
    }

    fn take_words(&mut self, word: &[u8], words: Words<'_>) -> Result<(), LineFault>
        ensures taken { OnOk result (Adds A self.old (word.now ∷ words_of words.entry.rest.now) self.new) }
        ensures only { IfUnlawful result (Bars A self.old (word.now ∷ words_of words.entry.rest.now)) }
    {
        match self.stage {
            Stage::Net => self.take_net(word, words),
            Stage::Port => self.take_port(word, words),
            Stage::Body => self.take_body(word, words),
        }
    }

    fn take_net(&mut self, word: &[u8], words: Words<'_>) -> Result<(), LineFault>
        requires { self.old.stage ≡ Stage.Net }
        ensures taken { OnOk result (Adds A self.old (word.now ∷ words_of words.entry.rest.now) self.new) }
        ensures only { IfUnlawful result (Bars A self.old (word.now ∷ words_of words.entry.rest.now)) }
    {
        if let Err(fault) = self.setup.take_line(word, words) {
            return Err(fault);
        }
        self.stage = Stage::Port;
        Ok(())
    }

    fn take_port(&mut self, word: &[u8], words: Words<'_>) -> Result<(), LineFault>
        requires { self.old.stage ≡ Stage.Port }
        ensures taken { OnOk result (Adds A self.old (word.now ∷ words_of words.entry.rest.now) self.new) }
        ensures only { IfUnlawful result (Bars A self.old (word.now ∷ words_of words.entry.rest.now)) }
    {
        let Some(port) = port_of(word, words) else {
            return Err(LineFault::Unlawful(port_rule(word)));
        };
        self.port = port;
        self.stage = Stage::Body;
        Ok(())
    }

    fn take_body(&mut self, word: &[u8], words: Words<'_>) -> Result<(), LineFault>
        requires { self.old.stage ≡ Stage.Body }
        ensures taken { OnOk result (Adds A self.old (word.now ∷ words_of words.entry.rest.now) self.new) }
        ensures only { IfUnlawful result (Bars A self.old (word.now ∷ words_of words.entry.rest.now)) }
    {
        if is_step_word(word) {
            self.take_step(word, words)
        } else {
            self.take_head(word, words)
        }
    }

    // A line of the setup after the port. Where a node or the router to come has no port, nothing more is taken.
    fn take_head(&mut self, word: &[u8], words: Words<'_>) -> Result<(), LineFault>
        requires stage { self.old.stage ≡ Stage.Body }
        requires word { is_step_word word.now ≡ false }
        ensures taken { OnOk result (Adds A self.old (word.now ∷ words_of words.entry.rest.now) self.new) }
        ensures only { IfUnlawful result (Bars A self.old (word.now ∷ words_of words.entry.rest.now)) }
    {
        lines_begin_with_known_words::<A>();
        lines_say_one_setup::<A>();
        a_router_wants_a_number::<A>();
        if let Err(fault) = self.setup.take_line(word, words) {
            return Err(fault);
        }
        match rule_broken_by(self.port, self.setup.nodes()) {
            Some(rule) => Err(LineFault::Unlawful(rule)),
            None => Ok(()),
        }
    }

    fn take_step(&mut self, word: &[u8], words: Words<'_>) -> Result<(), LineFault>
        requires stage { self.old.stage ≡ Stage.Body }
        requires word { is_step_word word.now ≡ true }
        ensures taken { OnOk result (Adds A self.old (word.now ∷ words_of words.entry.rest.now) self.new) }
        ensures only { IfUnlawful result (Bars A self.old (word.now ∷ words_of words.entry.rest.now)) }
    {
        lines_begin_with_known_words::<A>();
        lines_say_one_setup::<A>();
        let step = match step_of(self.alloc, self.setup.net(), word, words) {
            Ok(step) => step,
            Err(fault) => return Err(fault),
        };
        if let Err(rule) = self.setup.take_event() {
            return Err(LineFault::Unlawful(rule));
        }
        if !stands_among(self.setup.nodes(), step.node()) {
            return Err(LineFault::Unlawful(Rule::NodeStands));
        }
        Ok(())
    }

    /// The drive, if the lines so far are one, or what is missing.
    pub(crate) fn finish(self) -> Result<DriveHead<A>, Rule>
        ensures said { IfOk result (λ head. (lines : List (List (List ℕ))) → HasRead A lines self
            → (steps : List (Move A)) × AreDrive lines head.setup head.port steps) }
        ensures only { OnErr result ((lines : List (List (List ℕ))) → HasRead A lines self
            → (s : Said A) (port : ℕ) (steps : List (Move A)) → ¬ AreDrive lines s port steps) }
    {
        lines_begin_with_known_words::<A>();
        lines_say_one_setup::<A>();
        let DriveDraft {
            stage,
            setup,
            port,
            ..
        } = self;
        match stage {
            Stage::Net => Err(Rule::NoNet),
            Stage::Port => Err(Rule::NoPort),
            Stage::Body => match setup.finish() {
                Ok(setup) => Ok(DriveHead { setup, port }),
                Err(rule) => Err(rule),
            },
        }
    }
}

fn port_rule(word: &[u8]) -> Rule {
    if is_word(word, b"port") {
        Rule::Port
    } else {
        Rule::PortSecond
    }
}
