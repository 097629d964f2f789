//! The items of a stream as words: bytes, and ends of messages.
ghost use Rattle.std.specs.Prelude.{◌≡◌, ◌<◌, ◌≤◌, ◌*◌, ◌++◌, List, ℕ, length, map, IfOk, Ok};
ghost use Rattle.hex.specs.Hex.{decode_of};
ghost use Rattle.at_adsp_end.specs.declared.item.Item.{Item as Carried};
ghost use Rattle.at_adsp_end.specs.declared.item.Item.TheVariants.{Byte};
ghost use Rattle.at_call_words.specs.Items.{AreItems, IsRun};
ghost use Rattle.at_call_words.specs.Readings.{IfUnlawful, IsFoundInMemory};
ghost use Rattle.at_words.specs.Words.{words_of};

use at_adsp_end::Item;
use at_ddp::Listed;
use at_event::{EventRule, StreamRule};
use at_faults::{LineFault, Rule};
use at_words::{Words, put_bytes};
use std::alloc::Allocator;

// How many bytes are read at once.
const BLOCK: usize = 64;

/// `ITEM ..`: each word is pairs of hexadecimal digits, `-` for no bytes, or `end` for the end of a message. A word and
/// the space before it have two bytes at least for each item, so the memory for all items is asked for at once.
pub(crate) fn items_of<A: Allocator>(
    alloc: A,
    words: Words<'_>,
) -> Result<Listed<Item, A>, LineFault>
    ensures { IsFoundInMemory result (AreItems (words_of words.entry.rest.now)) }
{
    let mut items = Vec::with_capacity(alloc, words.rest.len() / 2)?;
    for word in words {
        push_word(&mut items, word)?;
    }
    Ok(Listed::from_vec(items))
}

// The items of a word.
fn push_word<A: Allocator>(items: &mut Vec<Item, A>, word: &[u8]) -> Result<(), LineFault>
    requires { 0 < length word.now }
    ensures said { IfOk result (λ _. (run : List Carried)
        × IsRun word.now run × (items.new.items ≡ items.old.items ++ run)) }
    ensures only { IfUnlawful result ((run : List Carried) → ¬ IsRun word.now run) }
{
    if word == b"end".as_slice() {
        items.push(Item::End)?;
        Ok(())
    } else if word == b"-".as_slice() {
        Ok(())
    } else {
        push_bytes(items, word)
    }
}

// The bytes that pairs of digits spell.
fn push_bytes<A: Allocator>(items: &mut Vec<Item, A>, digits: &[u8]) -> Result<(), LineFault>
    ensures said { IfOk result (λ _. (bytes : List ℕ)
        × (decode_of digits.now ≡ Ok bytes) × (items.new.items ≡ items.old.items ++ map Byte bytes)) }
    ensures only { IfUnlawful result ((bytes : List ℕ) → ¬ (decode_of digits.now ≡ Ok bytes)) }
{
    let mut rest = digits;
    while let Some((block, after)) = rest.split_at_checked(2 * BLOCK) {
        push_block(items, block)?;
        rest = after;
    }
    push_block(items, rest)
}

// The bytes of one block.
fn push_block<A: Allocator>(items: &mut Vec<Item, A>, digits: &[u8]) -> Result<(), LineFault>
    requires { length digits.now ≤ 2 * BLOCK }
    ensures said { IfOk result (λ _. (bytes : List ℕ)
        × (decode_of digits.now ≡ Ok bytes) × (items.new.items ≡ items.old.items ++ map Byte bytes)) }
    ensures only { IfUnlawful result ((bytes : List ℕ) → ¬ (decode_of digits.now ≡ Ok bytes)) }
{
    let mut room = [0u8; BLOCK];
    let bytes = &mut room[..digits.len() / 2];
    if !put_bytes(digits, bytes) {
        return Err(broken(StreamRule::Write));
    }
    for byte in bytes.iter() {
        items.push(Item::Byte(*byte))?;
    }
    Ok(())
}

/// The fault of words of streams that break a rule.
pub(crate) fn broken(rule: StreamRule) -> LineFault
    ensures { result ≡ LineFault.Unlawful (Rule.Event (EventRule.Streams rule)) }
{
    LineFault::Unlawful(Rule::Event(EventRule::Streams(rule)))
}
