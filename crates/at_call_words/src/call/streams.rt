//! The words of streams.
ghost use Rattle.std.specs.Prelude.{codes};
ghost use Rattle.at_call_words.specs.Calls.Streams.{IsSwitch};
ghost use Rattle.at_call_words.specs.Calls.{SaysPlain};
ghost use Rattle.at_call_words.specs.Readings.{IsFoundInMemory};
ghost use Rattle.at_words.specs.Readings.{IsFound};
ghost use Rattle.at_words.specs.Words.{words_of};

use crate::call::items::{broken, items_of};
use crate::words::{one, two};
use at_event::{Call, StreamCall, StreamRule};
use at_faults::LineFault;
use at_words::{Words, node_number, number, two_bytes};
use std::alloc::Allocator;

/// `I`
pub(crate) fn open<A: Allocator>(words: Words<'_>) -> Result<Call<A>, LineFault>
    ensures { IsFoundInMemory result (SaysPlain (codes "open") (words_of words.entry.rest.now)) }
{
    let fault = broken(StreamRule::Open);
    let index = number(one(words).ok_or(fault)?).ok_or(fault)?;
    Ok(Call::Streams(StreamCall::Open { index }))
}

/// `on` or `off`
pub(crate) fn listen<A: Allocator>(words: Words<'_>) -> Result<Call<A>, LineFault>
    ensures { IsFoundInMemory result (SaysPlain (codes "listen") (words_of words.entry.rest.now)) }
{
    let fault = broken(StreamRule::Listen);
    let on = is_on(one(words).ok_or(fault)?).ok_or(fault)?;
    Ok(Call::Streams(StreamCall::Listen { on }))
}

fn is_on(word: &[u8]) -> Option<bool>
    ensures { IsFound result (IsSwitch word.now) }
{
    match word {
        b"on" => Some(true),
        b"off" => Some(false),
        _ => None,
    }
}

/// `NODE SOCKET`
pub(crate) fn connect<A: Allocator>(words: Words<'_>) -> Result<Call<A>, LineFault>
    ensures { IsFoundInMemory result (SaysPlain (codes "connect") (words_of words.entry.rest.now)) }
{
    let fault = broken(StreamRule::Connect);
    let (node, socket) = two(words).ok_or(fault)?;
    let node = node_number(node).ok_or(fault)?;
    let socket = node_number(socket).ok_or(fault)?;
    Ok(Call::Streams(StreamCall::Connect { node, socket }))
}

/// `ID ITEM ..`
pub(crate) fn write<A: Allocator>(alloc: A, mut words: Words<'_>) -> Result<Call<A>, LineFault>
    ensures { IsFoundInMemory result (SaysPlain (codes "write") (words_of words.entry.rest.now)) }
{
    let id = words.next().ok_or(broken(StreamRule::Write))?;
    let id = two_bytes(id).ok_or(broken(StreamRule::Write))?;
    let items = items_of(alloc, words)?;
    Ok(Call::Streams(StreamCall::Write { id, items }))
}

/// `ID COUNT`
pub(crate) fn read<A: Allocator>(words: Words<'_>) -> Result<Call<A>, LineFault>
    ensures { IsFoundInMemory result (SaysPlain (codes "read") (words_of words.entry.rest.now)) }
{
    let fault = broken(StreamRule::Read);
    let (id, count) = two(words).ok_or(fault)?;
    let id = two_bytes(id).ok_or(fault)?;
    let count = two_bytes(count).ok_or(fault)?;
    Ok(Call::Streams(StreamCall::Read { id, count }))
}

/// `ID`
pub(crate) fn reset<A: Allocator>(words: Words<'_>) -> Result<Call<A>, LineFault>
    ensures { IsFoundInMemory result (SaysPlain (codes "reset") (words_of words.entry.rest.now)) }
{
    let fault = broken(StreamRule::Reset);
    let id = two_bytes(one(words).ok_or(fault)?).ok_or(fault)?;
    Ok(Call::Streams(StreamCall::Reset { id }))
}

/// `ID`
pub(crate) fn close<A: Allocator>(words: Words<'_>) -> Result<Call<A>, LineFault>
    ensures { IsFoundInMemory result (SaysPlain (codes "close") (words_of words.entry.rest.now)) }
{
    let fault = broken(StreamRule::Close);
    let id = two_bytes(one(words).ok_or(fault)?).ok_or(fault)?;
    Ok(Call::Streams(StreamCall::Close { id }))
}
