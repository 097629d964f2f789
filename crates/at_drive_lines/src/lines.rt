//! The lines of a text, one after another.
ghost use Rattle.std.specs.Prelude.{◌≡◌, ◌<◌, ◌^◌, Bool, List, ℕ, Option, Err, Ok, Some, IfErr, IfSome, false, length};
ghost use Rattle.std.specs.Prelude.{true};
ghost use Rattle.at_faults.specs.Reads.{IsOfRead};
ghost use Rattle.at_schedule.specs.Schedules.{lines_in};
ghost use Rattle.at_drive_lines.specs.Lines.{HasNext, IsLast, lines_of};

use at_faults::{Fault, Unreadable};
use at_schedule::laws::first_line;
use at_schedule::{cut_line, read_line};
use std::alloc::{Allocator, Global};
use std::io::BufRead;

/// A text that is read line by line.
pub trait Lines {
    /// The line that was read last.
    ghost line: { Self → List ℕ };

    /// The lines that are left, if that is known.
    ghost left: { Self → Option (List (List ℕ)) };

    /// No more lines than this are read.
    ghost most: { Self → ℕ };

    /// Whether a line can fail to be read.
    ghost may_fail: { Bool };

    /// Reads the next line. False if none is left.
    fn advance(&mut self) -> Result<bool, Fault>
        ensures next { result ≡ Ok true → HasNext (left self.old) (line self.new) (left self.new) }
        ensures less { result ≡ Ok true → most self.new < most self.old }
        ensures few { most self.old < 2 ^ 64 }
        ensures end { result ≡ Ok false → IsLast (left self.old) }
        ensures failed { IfErr result (λ fault. IsOfRead fault × (may_fail ≡ true)) }
        // Memory is missing only for a line that is left.
        ensures memory { result ≡ Err Fault.NoMemory → IfSome (left self.old) (λ lines. 0 < length lines) };

    /// The line that was read last, without its line feed.
    fn line(&self) -> &[u8]
        ensures { result.now ≡ line self.now };
}

/// The lines of a text that lies in memory. They can always be read.
#[derive(Drop)]
pub struct TextLines<'a> {
    line: &'a [u8],
    rest: &'a [u8],
}

impl<'a> TextLines<'a> {
    /// All lines of a text are left.
    pub fn of(text: &'a [u8]) -> TextLines<'a>
        ensures { result.rest.now ≡ text.now }
    {
        TextLines {
            line: &[],
            rest: text,
        }
    }
}

impl<'a> Lines for TextLines<'a> {
    ghost line = { λ t. t.line.now };

    ghost left = { λ t. Some (lines_in t.rest.now) };

    ghost most = { λ t. length t.rest.now };

    ghost may_fail = { false };

    fn advance(&mut self) -> Result<bool, Fault> {
        if self.rest.len() == 0 {
            return Ok(false);
        }
        let (line, rest) = cut_line(self.rest);
        self.line = line;
        self.rest = rest;
        Ok(true)
    }

    fn line(&self) -> &[u8] {
        self.line
    }
}

/// The lines of what a reader gives. Each is kept in the room of the one before it.
#[derive(Drop)]
pub struct ReadLines<B, A: Allocator = Global> {
    reader: B,
    room: Vec<u8, A>,
    turns: u64,
}

impl<B: BufRead, A: Allocator> ReadLines<B, A> {
    /// All lines of what the reader gives are left.
    pub fn of(alloc: A, reader: B) -> ReadLines<B, A>
        ensures { result.reader ≡ reader }
    {
        ReadLines {
            reader,
            room: Vec::new(alloc),
            turns: u64::MAX,
        }
    }
}

impl<B: BufRead, A: Allocator> Lines for ReadLines<B, A> {
    ghost line = { λ l. l.room.items };

    ghost left = { λ l. lines_of (B.remaining l.reader) };

    ghost most = { λ l. l.turns };

    ghost may_fail = { true };

    fn advance(&mut self) -> Result<bool, Fault> {
        first_line();
        if self.turns == 0 {
            // No text has so many lines.
            return Err(Fault::Unreadable(Unreadable::Failed));
        }
        self.turns -= 1;
        read_line(&mut self.reader, &mut self.room)
    }

    fn line(&self) -> &[u8] {
        &self.room
    }
}
