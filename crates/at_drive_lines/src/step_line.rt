//! The line of a step.
ghost use Rattle.std.specs.Prelude.{◌≡◌, ◌==◌, ℕ, codes, true, Err, IfOk, IfSome};
ghost use Rattle.std.specs.List.{list_any};
ghost use Rattle.at_call_words.specs.Readings.{IfUnlawful, IsFoundInMemory};
ghost use Rattle.at_words.specs.Readings.{IsFound};
ghost use Rattle.at_words.specs.Words.{words_of};
ghost use Rattle.at_drive_lines.specs.Says.{AreStep, IsStepHere, StepSays, is_step_word};
ghost use Rattle.at_drive_lines.specs.StepLines.{IsStepOf, IsUnfit, ReadsStep, SaysNoStepOf, is_step_line};
ghost use Rattle.at_faults.specs.declared.fault.LineFault.TheVariants.{NoMemory};

use at_call_words::{call_of, timer_of};
use at_drive::Step;
use at_event::EventRule;
use at_faults::{LineFault, Rule};
use at_schedule::is_passed_over;
use at_setup::{NodeSetup, Setup};
use at_words::{Words, node_number};
use std::alloc::Allocator;

/// The step of a line of a drive whose setup was read before, if it says one. Its node is one of the setup. After a
/// step no other line may follow.
pub fn step_in<A: Allocator + Copy>(
    alloc: A,
    setup: &Setup<A>,
    after_step: bool,
    line: &[u8],
) -> Result<Option<Step<A>>, LineFault>
    ensures reads { IfOk result (ReadsStep after_step line.now) }
    ensures here { IfOk result (λ found. IfSome found (IsStepHere (setup.now).net)) }
    ensures stands { IfOk result (λ found. IfSome found (IsStepOf setup.now)) }
    ensures memory { result ≡ Err NoMemory → is_step_line line.now ≡ true }
    ensures only { IfUnlawful result (IsUnfit setup.now after_step line.now) }
{
    if !is_step_line(line) {
        return if after_step && !is_passed_over(line) {
            Err(LineFault::Unlawful(Rule::DriveFirstWord))
        } else {
            Ok(None)
        };
    }
    match step_on(alloc, setup, line) {
        Ok(step) => Ok(Some(step)),
        Err(fault) => Err(fault),
    }
}

fn is_step_line(line: &[u8]) -> bool
    ensures { result ≡ is_step_line line.now }
{
    if is_passed_over(line) {
        return false;
    }
    match Words::of(line).next() {
        Some(word) => is_step_word(word),
        None => false,
    }
}

fn step_on<A: Allocator + Copy>(
    alloc: A,
    setup: &Setup<A>,
    line: &[u8],
) -> Result<Step<A>, LineFault>
    ensures said { IfOk result (AreStep (words_of line.now)) }
    ensures here { IfOk result (IsStepHere (setup.now).net) }
    ensures stands { IfOk result (IsStepOf setup.now) }
    ensures only { IfUnlawful result (SaysNoStepOf setup.now line.now) }
{
    let mut words = Words::of(line);
    let Some(word) = words.next() else {
        return Err(LineFault::Unlawful(Rule::SpacesAlone));
    };
    let step = match step_of(alloc, setup.net, word, words) {
        Ok(step) => step,
        Err(fault) => return Err(fault),
    };
    if !stands_among(setup.nodes.as_slice(), step.node()) {
        return Err(LineFault::Unlawful(Rule::NodeStands));
    }
    Ok(step)
}

/// Whether a line that begins with this word says a step.
pub(crate) fn is_step_word(word: &[u8]) -> bool
    ensures { result ≡ is_step_word word.now }
{
    word == b"call".as_slice() || (word == b"timer".as_slice() || word == b"poll".as_slice())
}

/// Whether a node of this number is among these.
pub(crate) fn stands_among(nodes: &[NodeSetup], number: u8) -> bool
    ensures { result ≡ list_any (λ n. n.node == number) nodes.now }
{
    nodes.iter().any(|node| node.node == number)
}

/// The step of a line, after its first word. A requester that it names is on network `net`.
pub(crate) fn step_of<A: Allocator + Copy>(
    alloc: A,
    net: u16,
    word: &[u8],
    words: Words<'_>,
) -> Result<Step<A>, LineFault>
    ensures said { IsFoundInMemory result (StepSays word.now (words_of words.entry.rest.now)) }
    ensures here { IfOk result (IsStepHere net) }
{
    match word {
        b"call" => call_step(alloc, net, words),
        b"timer" => timer_step(net, words),
        b"poll" => poll_step(words).ok_or(LineFault::Unlawful(Rule::Poll)),
        _ => Err(LineFault::Unlawful(Rule::DriveFirstWord)),
    }
}

// `N` and a call.
fn call_step<A: Allocator + Copy>(
    alloc: A,
    net: u16,
    mut words: Words<'_>,
) -> Result<Step<A>, LineFault>
    ensures said { IsFoundInMemory result (StepSays (codes "call") (words_of words.entry.rest.now)) }
    ensures here { IfOk result (IsStepHere net) }
{
    let node = words
        .next()
        .ok_or(LineFault::Unlawful(Rule::Event(EventRule::Call)))?;
    let node = node_number(node).ok_or(LineFault::Unlawful(Rule::Event(EventRule::Call)))?;
    let call = call_of(alloc, net, words)?;
    Ok(Step::Call { node, call })
}

// `N` and a timer.
fn timer_step<A: Allocator>(net: u16, mut words: Words<'_>) -> Result<Step<A>, LineFault>
    ensures said { IsFoundInMemory result (StepSays (codes "timer") (words_of words.entry.rest.now)) }
    ensures here { IfOk result (IsStepHere net) }
{
    let node = words
        .next()
        .ok_or(LineFault::Unlawful(Rule::Event(EventRule::Timer)))?;
    let node = node_number(node).ok_or(LineFault::Unlawful(Rule::Event(EventRule::Timer)))?;
    match timer_of(net, words) {
        Ok(timer) => Ok(Step::Timer { node, timer }),
        Err(rule) => Err(LineFault::Unlawful(rule)),
    }
}

// `N`
fn poll_step<A: Allocator>(mut words: Words<'_>) -> Option<Step<A>>
    ensures said { IsFound result (StepSays (codes "poll") (words_of words.entry.rest.now)) }
    ensures here { (net : ℕ) → IfSome result (IsStepHere net) }
{
    let node = node_number(words.next()?)?;
    words.end()?;
    Some(Step::Poll { node })
}
