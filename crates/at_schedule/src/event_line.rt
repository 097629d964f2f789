//! The line of an event, after its first word.
ghost use Rattle.std.specs.Prelude.{◌≢◌, ℕ, codes, Err, IfOk, IfSome, IsNone};
ghost use Rattle.at_call_words.specs.Readings.{IsFoundInMemory};
ghost use Rattle.at_schedule.specs.Says.{DeliverSays, IsEventHere, SaysFound};
ghost use Rattle.at_words.specs.Words.{words_of};

use at_call_words::{call_of, data_of, timer_of};
use at_event::EventRule;
use at_faults::{LineFault, Rule};
use at_setup::Event;
use at_words::{Words, node_number, number};
use std::alloc::Allocator;

/// `N` and a call.
pub(crate) fn call_event<A: Allocator + Copy>(
    alloc: A,
    net: u16,
    mut words: Words<'_>,
) -> Result<Option<Event<A>>, LineFault>
    ensures said { IsFoundInMemory result (SaysFound (codes "call") (words_of words.entry.rest.now)) }
    ensures here { IfOk result (λ found. IfSome found (IsEventHere net)) }
{
    let node = words
        .next()
        .ok_or(LineFault::Unlawful(Rule::Event(EventRule::Call)))?;
    let node = node_number(node).ok_or(LineFault::Unlawful(Rule::Event(EventRule::Call)))?;
    match call_of(alloc, net, words) {
        Ok(call) => Ok(Some(Event::Call { node, call })),
        Err(fault) => Err(fault),
    }
}

/// `K N`
pub(crate) fn delivery_event<A: Allocator>(words: Words<'_>) -> Result<Option<Event<A>>, LineFault>
    ensures said { IsFoundInMemory result (SaysFound (codes "deliver") (words_of words.entry.rest.now)) }
    ensures here { (net : ℕ) → IfOk result (λ found. IfSome found (IsEventHere net)) }
    ensures memory { result ≢ Err LineFault.NoMemory }
{
    match delivery(words) {
        Some((datagram, node)) => Ok(Some(Event::Deliver { datagram, node })),
        None => Err(LineFault::Unlawful(Rule::Deliver)),
    }
}

// A datagram's number and a node's.
fn delivery(mut words: Words<'_>) -> Option<(u64, u8)>
    ensures said { IfSome result (λ r. DeliverSays (words_of words.entry.rest.now) r.0 r.1) }
    ensures only { IsNone result
        → (datagram node : ℕ) → ¬ DeliverSays (words_of words.entry.rest.now) datagram node }
{
    let datagram = number(words.next()?)?;
    let node = node_number(words.next()?)?;
    words.end()?;
    Some((datagram, node))
}

/// `N` and a timer.
pub(crate) fn timer_event<A: Allocator>(
    net: u16,
    mut words: Words<'_>,
) -> Result<Option<Event<A>>, LineFault>
    ensures said { IsFoundInMemory result (SaysFound (codes "timer") (words_of words.entry.rest.now)) }
    ensures here { IfOk result (λ found. IfSome found (IsEventHere net)) }
    ensures memory { result ≢ Err LineFault.NoMemory }
{
    let node = words
        .next()
        .ok_or(LineFault::Unlawful(Rule::Event(EventRule::Timer)))?;
    let node = node_number(node).ok_or(LineFault::Unlawful(Rule::Event(EventRule::Timer)))?;
    match timer_of(net, words) {
        Ok(timer) => Ok(Some(Event::Timer { node, timer })),
        Err(rule) => Err(LineFault::Unlawful(rule)),
    }
}

/// `N HEX`
pub(crate) fn forged_event<A: Allocator>(
    alloc: A,
    mut words: Words<'_>,
) -> Result<Option<Event<A>>, LineFault>
    ensures said { IsFoundInMemory result (SaysFound (codes "forge") (words_of words.entry.rest.now)) }
    ensures here { (net : ℕ) → IfOk result (λ found. IfSome found (IsEventHere net)) }
{
    let node = words.next().ok_or(LineFault::Unlawful(Rule::Forge))?;
    let node = node_number(node).ok_or(LineFault::Unlawful(Rule::Forge))?;
    let hex = words.next().ok_or(LineFault::Unlawful(Rule::Forge))?;
    words.end().ok_or(LineFault::Unlawful(Rule::Forge))?;
    match data_of(alloc, hex) {
        Ok(bytes) => Ok(Some(Event::Forge { node, bytes })),
        Err(fault) => Err(fault),
    }
}
