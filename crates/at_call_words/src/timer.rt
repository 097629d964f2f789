//! A timer, as words.
ghost use Rattle.std.specs.Prelude.{codes, IfOk};
ghost use Rattle.at_call_words.specs.Readings.{IsFoundLawful};
ghost use Rattle.at_call_words.specs.Requesters.{Names};
ghost use Rattle.at_call_words.specs.Timers.{AreAnyTimer, AreTimer, AreTimerBy, IsOwn, IsTimerHere};
ghost use Rattle.at_call_words.specs.Timers.{SaysPlainTimer, SaysTimer};
ghost use Rattle.at_words.specs.Readings.{IsFound};
ghost use Rattle.at_words.specs.Words.{words_of};

use crate::requester::{Requesters, requester};
use crate::words::{one, three};
use at_atp::Key;
use at_event::{
    EventRule, NameRule, NameTimer, StreamRule, StreamTimer, Timer, TransactionRule,
    TransactionTimer,
};
use at_faults::Rule;
use at_words::{Words, byte, is_word, two_bytes};

/// Reads a timer: its word, and what the words after it say. The error is the rule that is broken if the words say no
/// timer. A requester is named by its node and socket, and is on network `net`.
pub fn timer_of(net: u16, words: Words<'_>) -> Result<Timer, Rule>
    ensures said { IsFoundLawful result (AreTimer (words_of words.entry.rest.now)) }
    ensures here { IfOk result (IsTimerHere net) }
{
    timer_by(Requesters::Here, net, words)
}

/// The same where every requester can be named, as `call_of_any` reads it.
pub fn timer_of_any(net: u16, words: Words<'_>) -> Result<Timer, Rule>
    ensures { IsFoundLawful result (AreAnyTimer net (words_of words.entry.rest.now)) }
{
    timer_by(Requesters::Any, net, words)
}

fn timer_by(requesters: Requesters, net: u16, mut words: Words<'_>) -> Result<Timer, Rule>
    ensures { IsFoundLawful result (AreTimerBy (Names requesters net) (words_of words.entry.rest.now)) }
{
    let word = words.next().ok_or(Rule::Event(EventRule::Timer))?;
    if is_word(word, b"release") {
        return release(requesters, net, words).ok_or(Rule::Event(EventRule::Transactions(
            TransactionRule::Release,
        )));
    }
    said_by(word, words)
}

// The timer of another word, with the words after it.
fn said_by(word: &[u8], words: Words<'_>) -> Result<Timer, Rule>
    ensures { IsFoundLawful result (SaysPlainTimer word.now (words_of words.entry.rest.now)) }
{
    if is_word(word, b"retry") {
        retry(words).ok_or(Rule::Event(EventRule::Transactions(TransactionRule::Retry)))
    } else if is_word(word, b"lookup") {
        lookup(words).ok_or(Rule::Event(EventRule::Names(NameRule::Lookup)))
    } else if is_word(word, b"resend") {
        resend(words).ok_or(Rule::Event(EventRule::Streams(StreamRule::Resend)))
    } else if is_word(word, b"probe") {
        probe(words).ok_or(Rule::Event(EventRule::Streams(StreamRule::Probe)))
    } else {
        Err(Rule::Event(EventRule::Timer))
    }
}

// `T`
fn retry(words: Words<'_>) -> Option<Timer>
    ensures { IsFound result (SaysPlainTimer (codes "retry") (words_of words.entry.rest.now)) }
{
    let tid = two_bytes(one(words)?)?;
    Some(Timer::Transactions(TransactionTimer::Retry { tid }))
}

// `OWN NODE SOCKET T`
fn release(requesters: Requesters, net: u16, mut words: Words<'_>) -> Option<Timer>
    ensures { IsFound result (SaysTimer (Names requesters net) (codes "release") (words_of words.entry.rest.now)) }
{
    let own = own_socket(words.next()?)?;
    let (node, socket, tid) = three(words)?;
    let from = requester(requesters, net, node, socket)?;
    let tid = two_bytes(tid)?;
    Some(Timer::Transactions(TransactionTimer::Release {
        own,
        key: Key { from, tid },
    }))
}

// The sockets that answer are 6 and 129.
fn own_socket(word: &[u8]) -> Option<u8>
    ensures { IsFound result (IsOwn word.now) }
{
    let own = byte(word)?;
    if own == 6 || own == 129 {
        Some(own)
    } else {
        None
    }
}

// `ID`
fn lookup(words: Words<'_>) -> Option<Timer>
    ensures { IsFound result (SaysPlainTimer (codes "lookup") (words_of words.entry.rest.now)) }
{
    let id = byte(one(words)?)?;
    Some(Timer::Names(NameTimer::Lookup { id }))
}

// `ID`
fn resend(words: Words<'_>) -> Option<Timer>
    ensures { IsFound result (SaysPlainTimer (codes "resend") (words_of words.entry.rest.now)) }
{
    let id = two_bytes(one(words)?)?;
    Some(Timer::Streams(StreamTimer::Resend { id }))
}

// `ID`
fn probe(words: Words<'_>) -> Option<Timer>
    ensures { IsFound result (SaysPlainTimer (codes "probe") (words_of words.entry.rest.now)) }
{
    let id = two_bytes(one(words)?)?;
    Some(Timer::Streams(StreamTimer::Probe { id }))
}
