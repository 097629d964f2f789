//! The words of an ask.
ghost use Rattle.std.specs.Prelude.{◌≡◌, ◌∷◌, [], List, ℕ, Bool, codes, IfSome, IsNone};
ghost use Rattle.at_call_words.specs.Calls.Transactions.{IsMode, IsWanted};
ghost use Rattle.at_call_words.specs.Calls.{SaysPlain};
ghost use Rattle.at_call_words.specs.Readings.{IsFoundInMemory};
ghost use Rattle.at_words.specs.Hexes.{IsUser};
ghost use Rattle.at_words.specs.Numbers.{IsByte, IsNode};
ghost use Rattle.at_words.specs.Readings.{IsFound};
ghost use Rattle.at_words.specs.Words.{words_of};

use crate::data_word::data_of;
use at_event::{Call, EventRule, PacketCount, TransactionCall, TransactionRule};
use at_faults::{LineFault, Rule};
use at_words::{Words, byte, node_number, user_of};
use std::alloc::Allocator;

/// `NODE SOCKET USER DATA WANTED`, `alo` or `xo`, and `RETRIES`
#[derive(Drop)]
struct AskWords<'a> {
    node: u8,
    socket: u8,
    user: [u8; 4],
    data_: &'a [u8],
    wanted: PacketCount,
    exactly_once: bool,
    retries: u8,
}

impl<'a> AskWords<'a> {
    fn of(mut words: Words<'a>) -> Option<AskWords<'a>>
        ensures said { IfSome result (λ a. (n s u w m r : List ℕ)
            × (words_of words.entry.rest.now ≡ n ∷ s ∷ u ∷ a.data_.now ∷ w ∷ m ∷ r ∷ [])
            × IsNode n a.node × IsNode s a.socket × IsUser u a.user
            × IsWanted w a.wanted × IsMode m a.exactly_once × IsByte r a.retries) }
        ensures only { IsNone result → (n s u d w m r : List ℕ) (node socket wanted retries : ℕ) (user : List ℕ)
            (once : Bool) → words_of words.entry.rest.now ≡ n ∷ s ∷ u ∷ d ∷ w ∷ m ∷ r ∷ []
            → IsNode n node → IsNode s socket → IsUser u user → IsWanted w wanted → IsMode m once
            → ¬ IsByte r retries }
    {
        let node = node_number(words.next()?)?;
        let socket = node_number(words.next()?)?;
        let user = user_of(words.next()?)?;
        let data_ = words.next()?;
        let wanted = wanted(words.next()?)?;
        let exactly_once = is_exactly_once(words.next()?)?;
        let retries = byte(words.next()?)?;
        words.end()?;
        Some(AskWords {
            node,
            socket,
            user,
            data_,
            wanted,
            exactly_once,
            retries,
        })
    }
}

// `alo` or `xo`
fn is_exactly_once(word: &[u8]) -> Option<bool>
    ensures { IsFound result (IsMode word.now) }
{
    match word {
        b"alo" => Some(false),
        b"xo" => Some(true),
        _ => None,
    }
}

// 1 to 8
fn wanted(word: &[u8]) -> Option<PacketCount>
    ensures { IsFound result (IsWanted word.now) }
{
    PacketCount::new(byte(word)?)
}

/// An ask, after its word.
pub(crate) fn ask<A: Allocator>(alloc: A, words: Words<'_>) -> Result<Call<A>, LineFault>
    ensures { IsFoundInMemory result (SaysPlain (codes "ask") (words_of words.entry.rest.now)) }
{
    let Some(said) = AskWords::of(words) else {
        return Err(broken(TransactionRule::Ask));
    };
    match data_of(alloc, said.data_) {
        Ok(data_) => Ok(Call::Transactions(TransactionCall::Ask {
            node: said.node,
            socket: said.socket,
            user: said.user,
            data_,
            wanted: said.wanted,
            exactly_once: said.exactly_once,
            retries: said.retries,
        })),
        Err(fault) => Err(fault),
    }
}

/// The fault of words of transactions that break a rule.
pub(crate) fn broken(rule: TransactionRule) -> LineFault
    ensures { result ≡ LineFault.Unlawful (Rule.Event (EventRule.Transactions rule)) }
{
    LineFault::Unlawful(Rule::Event(EventRule::Transactions(rule)))
}
