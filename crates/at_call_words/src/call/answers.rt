//! The words of an answer.
ghost use Rattle.std.specs.Prelude.{◌≡◌, ◌++◌, ◌∷◌, List, ℕ, codes, IfSome, IsNone};
ghost use Rattle.std.specs.List.{AllZip};
ghost use Rattle.at_call_words.specs.Calls.Transactions.{IsPacketWord};
ghost use Rattle.at_call_words.specs.Calls.{SaysCall};
ghost use Rattle.at_call_words.specs.Readings.{IsFoundInMemory};
ghost use Rattle.at_call_words.specs.Requesters.{Names};
ghost use Rattle.at_ddp.specs.declared.address.Address.{Address as Socket};
ghost use Rattle.at_words.specs.Hexes.{IsUser};
ghost use Rattle.at_words.specs.Numbers.{IsTwoBytes};
ghost use Rattle.at_words.specs.Words.{words_of};

use crate::call::asks::broken;
use crate::data_word::data_of;
use crate::requester::{Requesters, requester};
use at_atp::{Key, Packet};
use at_ddp::Listed;
use at_event::{Call, TransactionCall, TransactionRule};
use at_faults::LineFault;
use at_words::{Words, two_bytes, user_of};
use std::alloc::Allocator;

/// `NODE SOCKET T USER:DATA ..`
#[derive(Clone, Copy)]
struct AnswerWords<'a> {
    key: Key,
    packets: Words<'a>,
}

impl<'a> AnswerWords<'a> {
    fn of(requesters: Requesters, net: u16, mut words: Words<'a>) -> Option<AnswerWords<'a>>
        ensures said { IfSome result (λ a. (n s t : List ℕ)
            × (words_of words.entry.rest.now ≡ n ∷ s ∷ t ∷ words_of a.packets.rest.now)
            × Names requesters net n s (a.key).from × IsTwoBytes t (a.key).tid) }
        ensures only { IsNone result → (n s t : List ℕ) (ps : List (List ℕ)) (from : Socket) (tid : ℕ)
            → words_of words.entry.rest.now ≡ n ∷ s ∷ t ∷ ps → Names requesters net n s from → ¬ IsTwoBytes t tid }
    {
        let node = words.next()?;
        let socket = words.next()?;
        let from = requester(requesters, net, node, socket)?;
        let tid = two_bytes(words.next()?)?;
        Some(AnswerWords {
            key: Key { from, tid },
            packets: words,
        })
    }
}

/// An answer, after its word.
pub(crate) fn answer<A: Allocator + Copy>(
    alloc: A,
    requesters: Requesters,
    net: u16,
    words: Words<'_>,
) -> Result<Call<A>, LineFault>
    ensures { IsFoundInMemory result
        (SaysCall (Names requesters net) (codes "answer") (words_of words.entry.rest.now)) }
{
    let said = AnswerWords::of(requesters, net, words).ok_or(broken(TransactionRule::Answer))?;
    let packets = packets_of(alloc, said.packets)?;
    Ok(Call::Transactions(TransactionCall::Answer {
        key: said.key,
        packets,
    }))
}

fn packets_of<A: Allocator + Copy>(
    alloc: A,
    words: Words<'_>,
) -> Result<Listed<Packet<A>, A>, LineFault>
    ensures { IsFoundInMemory result (AllZip IsPacketWord (words_of words.entry.rest.now)) }
{
    let mut packets = Vec::new(alloc);
    for word in words {
        packets.push(packet_of(alloc, word)?)?;
    }
    Ok(Listed::from_vec(packets))
}

// The packet that a word `USER:DATA` spells.
fn packet_of<A: Allocator>(alloc: A, word: &[u8]) -> Result<Packet<A>, LineFault>
    ensures { IsFoundInMemory result (IsPacketWord word.now) }
{
    let (user, bytes) = packet_words(word).ok_or(broken(TransactionRule::Answer))?;
    Ok(Packet::new(user, data_of(alloc, bytes)?))
}

// The user bytes of `USER:DATA`, and the word of its data.
fn packet_words(word: &[u8]) -> Option<([u8; 4], &[u8])>
    ensures said { IfSome result (λ r. (user : List ℕ) × (word.now ≡ user ++ (58 ∷ r.1.now)) × IsUser user r.0) }
    ensures only { IsNone result → (user word_of_user bytes : List ℕ) → word.now ≡ word_of_user ++ (58 ∷ bytes)
        → ¬ IsUser word_of_user user }
{
    let (user, rest) = word.split_at_checked(8)?;
    let (colon, data_) = rest.split_first()?;
    if *colon == b':' {
        Some((user_of(user)?, data_))
    } else {
        None
    }
}
