//! Words of hexadecimal digits.
ghost use Rattle.std.specs.Prelude.{◌<◌, ◌/◌, List, ℕ, length, vec_capacity, OnOk, IsErrOf};
ghost use Rattle.at_words.specs.Hexes.{IsHex, IsUser};
ghost use Rattle.at_words.specs.Readings.{IsFound};

use crate::pairs::put_bytes;
use crate::word::is_word;
use hex::FromHex;
use std::alloc::Allocator;

/// Why a word spells no bytes.
#[derive(Clone, Copy)]
pub enum HexFault {
    /// It has no digits, an odd number of them, or something that is none.
    NoHex,
    /// There was no memory for the bytes.
    NoMemory,
}

/// Puts the bytes that a word spells into the room, for pairs of digits in either case, or none for `-`.
pub fn bytes_of<A: Allocator>(word: &[u8], room: &mut Vec<u8, A>) -> Result<(), HexFault>
    ensures found { OnOk result (IsHex word.now room.new.items) }
    ensures fault { IsErrOf result HexFault.NoHex → (bytes : List ℕ) → ¬ IsHex word.now bytes }
    // The room that stands is used first.
    ensures memory { IsErrOf result HexFault.NoMemory → vec_capacity room.old < length word.now / 2 }
{
    if word.is_empty() {
        return Err(HexFault::NoHex);
    }
    room.clear();
    if is_word(word, b"-") {
        return Ok(());
    }
    if room.resize(word.len() / 2, 0).is_err() {
        return Err(HexFault::NoMemory);
    }
    if put_bytes(word, room.as_mut_slice()) {
        Ok(())
    } else {
        Err(HexFault::NoHex)
    }
}

/// The four bytes that a word of eight digits spells.
pub fn user_of(word: &[u8]) -> Option<[u8; 4]>
    ensures { IsFound result (IsUser word.now) }
{
    <[u8; 4] as FromHex>::from_hex(word).ok()
}
