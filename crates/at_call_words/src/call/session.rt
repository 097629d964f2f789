//! The words of a session: which zone is picked.
ghost use Rattle.std.specs.Prelude.{codes};
ghost use Rattle.at_call_words.specs.Calls.{SaysPlain};
ghost use Rattle.at_call_words.specs.Readings.{IsFoundInMemory};
ghost use Rattle.at_words.specs.Words.{words_of};

use crate::words::one;
use at_event::{Call, EventRule, SessionCall, SessionRule};
use at_faults::{LineFault, Rule};
use at_words::{Words, text};
use std::alloc::Allocator;

/// `TEXT`
pub(crate) fn pick<A: Allocator>(words: Words<'_>) -> Result<Call<A>, LineFault>
    ensures { IsFoundInMemory result (SaysPlain (codes "pick") (words_of words.entry.rest.now)) }
{
    let fault = LineFault::Unlawful(Rule::Event(EventRule::Session(SessionRule::Pick)));
    let zone = text(one(words).ok_or(fault)?).ok_or(fault)?;
    Ok(Call::Session(SessionCall::Pick { zone }))
}
