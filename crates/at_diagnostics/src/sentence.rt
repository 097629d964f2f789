//! Sentences of reasons. A line that has one is known but for its words, since no clause says how a fault is displayed.
ghost use Rattle.at_diagnostics.specs.Lines.{IsOneLine};

use arrayvec::ArrayString;
use at_setup::Refusal;
use std::fmt::{Display, Write};
use std::io;

/// The most bytes of a sentence.
const MAX_LEN: usize = 512;

/// A reason in English, without a full stop.
#[derive(Drop)]
pub(crate) struct Sentence {
    text: ArrayString<MAX_LEN>,
}

impl Sentence {
    /// What is printed of it. Each reason is one line; nothing would be printed of another.
    pub(crate) fn words(&self) -> &[u8]
        ensures { IsOneLine result.now }
    {
        one_line(self.text.as_str().as_bytes())
    }
}

fn one_line(words: &[u8]) -> &[u8]
    ensures { IsOneLine result.now }
{
    if words.contains(&b'\n') { &[] } else { words }
}

/// The sentence of a fault.
pub(crate) fn sentence_of<F: Display + Drop>(fault: F) -> Sentence {
    let mut text = ArrayString::new();
    let _whole = write!(text, "{fault}");
    Sentence { text }
}

/// Why a file can't be opened, without the number of the system's error.
pub(crate) fn unopened_of(error: io::Error) -> Sentence {
    let whole = sentence_of(error);
    match whole.text.as_str().split_once(" (os error ") {
        Some((reason, _)) => unopened_for(reason),
        None => unopened_for(whole.text.as_str()),
    }
}

fn unopened_for(reason: &str) -> Sentence {
    let mut text = ArrayString::new();
    let _whole = write!(text, "can't be opened: {reason}");
    Sentence { text }
}

/// Why an event was not played. A delivery may be untimely for what it carries, and for what it would draw.
pub(crate) fn reason_of(fault: at_setup::EventFault, datagram: Option<u64>) -> Sentence {
    let mut text = ArrayString::new();
    let _whole = match (fault, datagram) {
        (at_setup::EventFault::Refused(Refusal::Untimely), Some(datagram)) => write!(
            text,
            "a number in datagram {datagram} has been drawn again since, \
                or a node still holds a record or an end under the number that it would draw"
        ),
        (at_setup::EventFault::Refused(Refusal::Untimely), None) => write!(
            text,
            "a node still holds a record or an end under the number that would be drawn"
        ),
        (fault, _) => write!(text, "{fault}"),
    };
    Sentence { text }
}
