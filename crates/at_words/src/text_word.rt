//! Texts as words.
ghost use Rattle.std.specs.Prelude.{◌≡◌, ◌<◌, ◌∷◌, [], List, ℕ, length, IfSome, IsNone, Ok};
ghost use Rattle.hex.specs.Hex.{decode_of};
ghost use Rattle.at_words.specs.Readings.{IsFound};
ghost use Rattle.at_words.specs.Texts.{AreGlyphs, IsText, IsZoneName, SpellsFirst};

use arrayvec::ArrayVec;
use at_ddp::Pascal;
use hex::FromHex;

/// The text of at most 32 bytes that a word spells: `%` and two digits are any byte, and `%` alone is the empty text.
pub fn text(word: &[u8]) -> Option<Pascal>
    ensures { IsFound result (IsText word.now) }
{
    if word == b"%".as_slice() {
        Pascal::new(b"")
    } else {
        glyphs(word)
    }
}

/// The name of a zone, 1 to 32 bytes.
pub fn zone_name(word: &[u8]) -> Option<Pascal>
    ensures { IsFound result (IsZoneName word.now) }
{
    let name = text(word)?;
    if name.bytes().is_empty() {
        None
    } else {
        Some(name)
    }
}

// The text that a word spells byte by byte.
fn glyphs(word: &[u8]) -> Option<Pascal>
    ensures { IsFound result (λ text. AreGlyphs word.now text × (length text < 33)) }
{
    let mut bytes: ArrayVec<u8, 32> = ArrayVec::new();
    let mut rest = word;
    while !rest.is_empty() {
        let (byte, after) = text_byte(rest)?;
        bytes.try_push(byte).ok()?;
        rest = after;
    }
    Pascal::new(bytes.as_slice())
}

// The byte that the front of a text spells, and what follows it.
fn text_byte(text: &[u8]) -> Option<(u8, &[u8])>
    ensures spelled { IfSome result (λ r. SpellsFirst text.now r.0 r.1.now) }
    ensures only { IsNone result → (byte : ℕ) (rest : List ℕ) → ¬ SpellsFirst text.now byte rest }
    ensures shorter { IfSome result (λ r. length r.1.now < length text.now) }
{
    let (byte, rest) = text.split_first()?;
    if *byte == b'%' {
        let (digits, after) = rest.split_at_checked(2)?;
        Some((any_byte(digits)?, after))
    } else if byte.is_ascii_graphic() {
        Some((*byte, rest))
    } else {
        None
    }
}

// The byte that two hexadecimal digits spell.
fn any_byte(digits: &[u8]) -> Option<u8>
    ensures { IsFound result (λ byte. decode_of digits.now ≡ Ok (byte ∷ [])) }
{
    let bytes = <[u8; 1] as FromHex>::from_hex(digits).ok()?;
    Some(bytes[0])
}
