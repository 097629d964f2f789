//! The words of a line, and the number that a word says.
ghost use Rattle.std.specs.Prelude.{◌≡◌, ◌<◌, ◌≤◌, ◌↔◌, ◌+◌, ◌*◌, ◌∷◌, [], List, ℕ, true, false, length, min, IsSome};
ghost use Rattle.std.specs.List.{position_from, prefix_len};
ghost use Rattle.at_words.specs.Numbers.{IsByte, IsCount, IsNode, IsPositive, IsTwoBytes};
ghost use Rattle.at_words.specs.Readings.{IsFound};
ghost use Rattle.at_words.specs.Words.{is_no_space, is_space, words_of};

use memchr::memchr;

/// The words of a line, parted by spaces.
#[derive(Clone, Copy)]
pub struct Words<'a> {
    /// What is left of the line.
    pub rest: &'a [u8],
}

impl<'a> Words<'a> {
    /// All words of a line.
    pub fn of(line: &'a [u8]) -> Words<'a>
        ensures { result.rest.now ≡ line.now }
    {
        Words { rest: line }
    }

    /// Takes the next word if it is this one.
    pub fn take_if(&mut self, word: &[u8]) -> bool
        ensures taken { result ≡ true → words_of self.old.rest.now ≡ word.now ∷ words_of self.new.rest.now }
        ensures left { result ≡ false → self.new ≡ self.old }
        ensures only { result ≡ false → (ws : List (List ℕ)) → ¬ (words_of self.old.rest.now ≡ word.now ∷ ws) }
    {
        let mut ahead = *self;
        let Some(next) = ahead.next() else {
            return false;
        };
        if next == word {
            *self = ahead;
            true
        } else {
            false
        }
    }

    /// None if a word is left.
    pub fn end(mut self) -> Option<()>
        ensures { IsSome result ↔ words_of self.entry.rest.now ≡ [] }
    {
        match self.next() {
            Some(_) => None,
            None => Some(()),
        }
    }
}

impl<'a> Iterator for Words<'a> {
    ghost use Rattle.std.specs.Iterator.{YieldsFirstRef, at_most};

    type Item = &'a [u8];

    ghost next_gives = { YieldsFirstRef (λ s. words_of s.rest.now) };

    ghost remaining = { λ s. at_most (length s.rest.now) };

    fn next(&mut self) -> Option<&'a [u8]> {
        let rest = &self.rest[spaces(self.rest)..];
        if rest.is_empty() {
            return None;
        }
        let len = word_len(rest);
        self.rest = &rest[len..];
        Some(&rest[..len])
    }
}

// How many spaces a text begins with.
fn spaces(text: &[u8]) -> usize
    ensures value { result ≡ prefix_len is_space text.now }
    ensures within { result ≤ length text.now }
{
    first_of_word(text).unwrap_or(text.len())
}

fn first_of_word(text: &[u8]) -> Option<usize>
    ensures { result ≡ position_from is_no_space 0 text.now }
{
    text.iter().position(|byte| *byte != b' ')
}

// How many bytes stand before the first space.
fn word_len(text: &[u8]) -> usize
    ensures value { result ≡ prefix_len is_no_space text.now }
    ensures within { result ≤ length text.now }
{
    first_space(text).unwrap_or(text.len())
}

fn first_space(text: &[u8]) -> Option<usize>
    ensures { result ≡ position_from is_space 0 text.now }
{
    // A word is mostly over before memchr would pay.
    if text.len() < 64 {
        return text.iter().position(|byte| *byte == b' ');
    }
    first_space_of_many(text)
}

// The same by memchr. It stays out of line, since a short word would clear the locals of memchr too.
#[inline(never)]
fn first_space_of_many(text: &[u8]) -> Option<usize>
    ensures { result ≡ position_from is_space 0 text.now }
{
    memchr(b' ', text)
}

/// The number that a word of digits writes, or the largest if it is larger.
pub fn number(word: &[u8]) -> Option<u64>
    ensures { IsFound result (IsCount word.now) }
{
    if word.is_empty() {
        return None;
    }
    let mut number = 0u64;
    for byte in word {
        if !byte.is_ascii_digit() {
            return None;
        }
        number = with_digit(number, *byte - b'0');
    }
    Some(number)
}

// One digit more, or the largest number.
fn with_digit(number: u64, digit: u8) -> u64
    ensures { result ≡ min (number * 10 + digit) 18446744073709551615 }
{
    if number < 1_000_000_000_000_000_000 {
        number * 10 + u64::from(digit)
    } else {
        number.saturating_mul(10).saturating_add(u64::from(digit))
    }
}

/// The number of a node or of a socket, 1 to 254.
pub fn node_number(word: &[u8]) -> Option<u8>
    ensures { IsFound result (IsNode word.now) }
{
    let node = u8::try_from(number(word)?).ok()?;
    if node > 0 && node < 255 {
        Some(node)
    } else {
        None
    }
}

/// A network's number or a room's size, 1 to 65,535.
pub fn positive(word: &[u8]) -> Option<u16>
    ensures { IsFound result (IsPositive word.now) }
{
    let value = u16::try_from(number(word)?).ok()?;
    if value > 0 { Some(value) } else { None }
}

/// A number of one byte.
pub fn byte(word: &[u8]) -> Option<u8>
    ensures { IsFound result (IsByte word.now) }
{
    u8::try_from(number(word)?).ok()
}

/// A number of two bytes.
pub fn two_bytes(word: &[u8]) -> Option<u16>
    ensures { IsFound result (IsTwoBytes word.now) }
{
    u16::try_from(number(word)?).ok()
}

/// Whether a word is a known one.
pub fn is_word(word: &[u8], known: &[u8]) -> bool
    ensures { result ≡ true ↔ word.now ≡ known.now }
{
    word == known
}
