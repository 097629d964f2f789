//! Pairs of hexadecimal digits as bytes.
ghost use Rattle.std.specs.Prelude.{◌≡◌, ◌<◌, ◌*◌, List, ℕ, length, true, false, None, Some, Ok};
ghost use Rattle.hex.specs.Hex.{decode_of, hex_digit_value};

/// Puts the bytes that pairs of digits spell, in either case, into the room. False if there are not two digits for each
/// byte of the room, or if one is no digit; what is in the room then means nothing.
pub fn put_bytes(digits: &[u8], room: &mut [u8]) -> bool
    ensures spelled { result ≡ true → decode_of digits.now ≡ Ok room.new }
    ensures only { result ≡ false → (bytes : List ℕ) → length bytes ≡ length room.old
        → ¬ (decode_of digits.now ≡ Ok bytes) }
    ensures kept { length room.new ≡ length room.old }
{
    if digits.len() / 2 != room.len() || digits.len() % 2 != 0 {
        return false;
    }
    // No branch in it, so that many pairs are read at once.
    let mut largest = 0u8;
    for place in 0..room.len() {
        let high = value_of(digits[2 * place]);
        let low = value_of(digits[2 * place + 1]);
        room[place] = high % 16 * 16 + low % 16;
        largest = largest.max(high).max(low);
    }
    largest < 16
}

// The value of a digit, or 16 of what is none.
fn value_of(digit: u8) -> u8
    ensures digit { result < 16 → hex_digit_value digit ≡ Some result }
    ensures other { 15 < result → hex_digit_value digit ≡ None }
{
    match digit {
        b'A'..=b'F' => digit - b'A' + 10,
        b'a'..=b'f' => digit - b'a' + 10,
        b'0'..=b'9' => digit - b'0',
        _ => 16,
    }
}
