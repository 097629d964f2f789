//! Whether a part of a pattern stands for a text. A text is looked at once, and nothing is copied.
ghost use Rattle.std.specs.Prelude.{◌≡◌, ◌<◌, IfSome, length};
ghost use Rattle.std.specs.List.{position_from};
ghost use Rattle.at_patterns.specs.Patterns.{is_any_text, is_between, is_wildcard, stands_around, stands_for};

use at_ddp::same_text;

// Stands for zero or more bytes.
const WILDCARD: u8 = 0xC5;

/// Whether an object or a type of a pattern stands for a text: `=` alone for every one, and each other for the same
/// text. But its first byte 0xC5, if it has one, stands for zero or more bytes. The case of letters a to z does not
/// matter.
pub fn matches_text(pattern: &[u8], text: &[u8]) -> bool
    ensures { result ≡ stands_for pattern.now text.now }
{
    is_any_text(pattern) || matches_around(pattern, text)
}

/// Whether an object or a type of a pattern is `=` alone.
pub fn is_any_text(pattern: &[u8]) -> bool
    ensures { result ≡ is_any_text pattern.now }
{
    matches!(pattern, [b'='])
}

fn matches_around(pattern: &[u8], text: &[u8]) -> bool
    ensures { result ≡ stands_around (position_from is_wildcard 0 pattern.now) pattern.now text.now }
{
    match wildcard_in(pattern) {
        None => same_text(pattern, text),
        Some(at) => is_between(&pattern[..at], &pattern[at + 1..], text),
    }
}

// The place of the first wildcard.
fn wildcard_in(pattern: &[u8]) -> Option<usize>
    ensures first { result ≡ position_from is_wildcard 0 pattern.now }
    ensures within { IfSome result (λ at. at < length pattern.now) }
{
    pattern.iter().position(|byte| *byte == WILDCARD)
}

// Whether a text begins with the one and ends with the other, and these do not overlap.
fn is_between(before: &[u8], after: &[u8], text: &[u8]) -> bool
    ensures { result ≡ is_between before.now after.now text.now }
{
    if before.len() + after.len() > text.len() {
        return false;
    }
    let (front, _) = text.split_at(before.len());
    let (_, back) = text.split_at(text.len() - after.len());
    same_text(before, front) && same_text(after, back)
}
