//! The lines of a text that lies in memory.
ghost use Rattle.std.specs.Prelude.{◌≡◌, ◌==◌, ◌<◌, ◌∷◌, length, IfSome};
ghost use Rattle.memchr.specs.Find.{IsFirstByte};
ghost use Rattle.at_schedule.specs.Schedules.{lines_in};

use memchr::memchr;

/// The first line of a text that has one, without its line feed, and what follows it.
pub fn cut_line(text: &[u8]) -> (&[u8], &[u8])
    requires { 0 < length text.now }
    ensures cut { lines_in text.now ≡ result.0.now ∷ lines_in result.1.now }
    ensures less { length result.1.now < length text.now }
{
    match end_of_line(text) {
        Some(end) => (&text[..end], &text[end + 1..]),
        None => (text, &[]),
    }
}

fn end_of_line(text: &[u8]) -> Option<usize>
    ensures first { IsFirstByte (λ byte. byte == 10) text.now result }
    ensures within { IfSome result (λ end. end < length text.now) }
{
    memchr(b'\n', text)
}
