//! A call, as words. A protocol has its words in files below this one.
ghost use Rattle.std.specs.Prelude.{IfOk};
ghost use Rattle.at_call_words.specs.Calls.{AreAnyCall, AreCall, AreCallBy, IsHere, SaysPlain};
ghost use Rattle.at_call_words.specs.Readings.{IsFoundInMemory};
ghost use Rattle.at_call_words.specs.Requesters.{Names};
ghost use Rattle.at_words.specs.Words.{words_of};

use crate::call::answers::answer;
use crate::call::asks::ask;
use crate::call::names::{claim, find, finish, register, unregister};
use crate::call::session::pick;
use crate::call::streams::{close, connect, listen, open, read, reset, write};
use crate::call::tables::{set_zones, zones};
use crate::requester::Requesters;
use at_event::{Call, EventRule, ZoneRule};
use at_faults::{LineFault, Rule};
use at_words::{Words, is_word};
use at_zip::TableChoice;
use std::alloc::Allocator;

mod answers;
mod asks;
mod items;
mod names;
mod session;
mod streams;
mod tables;

/// Reads a call: its word, and what the words after it say. Unlawful if the words say no call. A requester is named by
/// its node and socket, and is on network `net`.
pub fn call_of<A: Allocator + Copy>(
    alloc: A,
    net: u16,
    words: Words<'_>,
) -> Result<Call<A>, LineFault>
    ensures said { IsFoundInMemory result (AreCall (words_of words.entry.rest.now)) }
    ensures here { IfOk result (IsHere net) }
{
    call_by(alloc, Requesters::Here, net, words)
}

/// The same where every requester can be named: its node by `NODE` on network `net`, or by `NET.NODE`. NET is 0 to
/// 65,535, and NODE and SOCKET are 0 to 255, so whatever came can be named.
pub fn call_of_any<A: Allocator + Copy>(
    alloc: A,
    net: u16,
    words: Words<'_>,
) -> Result<Call<A>, LineFault>
    ensures { IsFoundInMemory result (AreAnyCall net (words_of words.entry.rest.now)) }
{
    call_by(alloc, Requesters::Any, net, words)
}

fn call_by<A: Allocator + Copy>(
    alloc: A,
    requesters: Requesters,
    net: u16,
    mut words: Words<'_>,
) -> Result<Call<A>, LineFault>
    ensures { IsFoundInMemory result (AreCallBy (Names requesters net) (words_of words.entry.rest.now)) }
{
    let word = words
        .next()
        .ok_or(LineFault::Unlawful(Rule::Event(EventRule::Call)))?;
    if is_word(word, b"answer") {
        return answer(alloc, requesters, net, words);
    }
    said_by(alloc, word, words)
}

// The call of another word, with the words after it. A function clears its locals as it begins. So each kind of call is
// returned where it is read, and what it needs for itself is in a function of its own.
fn said_by<A: Allocator + Copy>(
    alloc: A,
    word: &[u8],
    words: Words<'_>,
) -> Result<Call<A>, LineFault>
    ensures { IsFoundInMemory result (SaysPlain word.now (words_of words.entry.rest.now)) }
{
    if is_word(word, b"zones") {
        return zones(TableChoice::All, ZoneRule::Zones, words);
    }
    if is_word(word, b"setzones") {
        return set_zones(alloc, TableChoice::All, ZoneRule::SetZones, words);
    }
    if is_word(word, b"localzones") {
        return zones(TableChoice::Local, ZoneRule::LocalZones, words);
    }
    if is_word(word, b"setlocal") {
        return set_zones(alloc, TableChoice::Local, ZoneRule::SetLocal, words);
    }
    if is_word(word, b"ask") {
        return ask(alloc, words);
    }
    if is_word(word, b"pick") {
        return pick(words);
    }
    if is_word(word, b"find") {
        return find(words);
    }
    if is_word(word, b"claim") {
        return claim(words);
    }
    if is_word(word, b"finish") {
        return finish(words);
    }
    if is_word(word, b"register") {
        return register(words);
    }
    if is_word(word, b"unregister") {
        return unregister(words);
    }
    if is_word(word, b"open") {
        return open(words);
    }
    if is_word(word, b"listen") {
        return listen(words);
    }
    if is_word(word, b"connect") {
        return connect(words);
    }
    if is_word(word, b"write") {
        return write(alloc, words);
    }
    if is_word(word, b"read") {
        return read(words);
    }
    if is_word(word, b"reset") {
        return reset(words);
    }
    if is_word(word, b"close") {
        return close(words);
    }
    Err(LineFault::Unlawful(Rule::Event(EventRule::Call)))
}
