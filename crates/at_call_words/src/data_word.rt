//! Data as a word.
ghost use Rattle.at_call_words.specs.Readings.{IsFoundInMemory};
ghost use Rattle.at_words.specs.Hexes.{IsHex};

use at_ddp::Bytes;
use at_faults::{LineFault, Rule};
use at_words::{HexFault, bytes_of};
use std::alloc::Allocator;

/// The bytes that a word spells. The error is a word that spells none, or out of memory.
pub fn data_of<A: Allocator>(alloc: A, word: &[u8]) -> Result<Bytes<A>, LineFault>
    ensures { IsFoundInMemory result (IsHex word.now) }
{
    let mut room = Vec::new(alloc);
    match bytes_of(word, &mut room) {
        Ok(()) => Ok(Bytes::from_vec(room)),
        Err(HexFault::NoHex) => Err(LineFault::Unlawful(Rule::Data)),
        Err(HexFault::NoMemory) => Err(LineFault::NoMemory),
    }
}
