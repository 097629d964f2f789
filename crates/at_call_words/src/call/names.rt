//! The words of names and lookups.
ghost use Rattle.std.specs.Prelude.{◌≡◌, ◌∷◌, [], List, ℕ, codes, IfSome, IsNone};
ghost use Rattle.at_call_words.specs.Calls.{SaysPlain};
ghost use Rattle.at_call_words.specs.Calls.Names.{SocketSays};
ghost use Rattle.at_call_words.specs.Readings.{IsFoundInMemory};
ghost use Rattle.at_words.specs.Readings.{IsFound};
ghost use Rattle.at_words.specs.Numbers.{IsNode};
ghost use Rattle.at_words.specs.Texts.{AreZone, IsText};
ghost use Rattle.at_words.specs.Words.{words_of};

use crate::words::{one, three, two};
use at_ddp::Pascal;
use at_event::{Call, EventRule, NameCall, NameRule};
use at_faults::{LineFault, Rule};
use at_words::{Words, byte, node_number, text};
use std::alloc::Allocator;

/// `TEXT TEXT [TEXT]`
pub(crate) fn find<A: Allocator>(mut words: Words<'_>) -> Result<Call<A>, LineFault>
    ensures { IsFoundInMemory result (SaysPlain (codes "find") (words_of words.entry.rest.now)) }
{
    let fault = broken(NameRule::Find);
    let object = text(words.next().ok_or(fault)?).ok_or(fault)?;
    let kind = text(words.next().ok_or(fault)?).ok_or(fault)?;
    let zone = zone_of(words).ok_or(fault)?;
    Ok(Call::Names(NameCall::Find { object, kind, zone }))
}

// The zone that the last word says, if there is one.
fn zone_of(mut words: Words<'_>) -> Option<Option<Pascal>>
    ensures { IsFound result (AreZone (words_of words.entry.rest.now)) }
{
    let Some(word) = words.next() else {
        return Some(None);
    };
    words.end()?;
    let zone = text(word)?;
    Some(Some(zone))
}

/// `TEXT TEXT SOCKET`
pub(crate) fn claim<A: Allocator>(words: Words<'_>) -> Result<Call<A>, LineFault>
    ensures { IsFoundInMemory result (SaysPlain (codes "claim") (words_of words.entry.rest.now)) }
{
    let Some((object, kind, socket)) = socket_name(words) else {
        return Err(broken(NameRule::Claim));
    };
    Ok(Call::Names(NameCall::Claim {
        object,
        kind,
        socket,
    }))
}

/// `ID`
pub(crate) fn finish<A: Allocator>(words: Words<'_>) -> Result<Call<A>, LineFault>
    ensures { IsFoundInMemory result (SaysPlain (codes "finish") (words_of words.entry.rest.now)) }
{
    let fault = broken(NameRule::Finish);
    let id = byte(one(words).ok_or(fault)?).ok_or(fault)?;
    Ok(Call::Names(NameCall::Finish { id }))
}

/// `TEXT TEXT SOCKET`
pub(crate) fn register<A: Allocator>(words: Words<'_>) -> Result<Call<A>, LineFault>
    ensures { IsFoundInMemory result (SaysPlain (codes "register") (words_of words.entry.rest.now)) }
{
    let Some((object, kind, socket)) = socket_name(words) else {
        return Err(broken(NameRule::Register));
    };
    Ok(Call::Names(NameCall::Register {
        object,
        kind,
        socket,
    }))
}

// An object, a type and a socket.
fn socket_name(words: Words<'_>) -> Option<(Pascal, Pascal, u8)>
    ensures said { IfSome result (λ r. SocketSays (words_of words.entry.rest.now) r.0 r.1 r.2) }
    ensures only { IsNone result → (o k s object kind : List ℕ) (socket : ℕ)
        → words_of words.entry.rest.now ≡ o ∷ k ∷ s ∷ [] → IsText o object → IsText k kind → ¬ IsNode s socket }
{
    let (object, kind, socket) = three(words)?;
    let object = text(object)?;
    let kind = text(kind)?;
    let socket = node_number(socket)?;
    Some((object, kind, socket))
}

/// `TEXT TEXT`
pub(crate) fn unregister<A: Allocator>(words: Words<'_>) -> Result<Call<A>, LineFault>
    ensures { IsFoundInMemory result (SaysPlain (codes "unregister") (words_of words.entry.rest.now)) }
{
    let fault = broken(NameRule::Unregister);
    let (object, kind) = two(words).ok_or(fault)?;
    let object = text(object).ok_or(fault)?;
    let kind = text(kind).ok_or(fault)?;
    Ok(Call::Names(NameCall::Unregister { object, kind }))
}

// The fault of words of names that break a rule.
fn broken(rule: NameRule) -> LineFault
    ensures { result ≡ LineFault.Unlawful (Rule.Event (EventRule.Names rule)) }
{
    LineFault::Unlawful(Rule::Event(EventRule::Names(rule)))
}
