//! The beginning of a line, or a short line, in one piece: a write costs more than a few bytes.
ghost use Rattle.std.specs.Prelude.{◌≡◌, ◌≤◌, ◌+◌, ◌*◌, ◌++◌, [], codes, length};
ghost use Rattle.std.specs.Fmt.{decimal};
ghost use Rattle.at_print.specs.Lines.{hex_text, pairs};
ghost use Rattle.at_print.specs.Printers.{Prints};

use crate::digits::{digits_of, write_hex};
use crate::paper::Paper;
use crate::printer::Printer;
use arrayvec::ArrayVec;
use itoa::Buffer;
use std::marker::Model;

/// Room for four numbers and a word, or for the line of a short datagram.
pub(crate) const ROOM: usize = 128;

/// The number of an event and a space, with which its line begins.
pub(crate) const HEAD: usize = 21;

/// The word with which the line of a timer begins, and a space.
pub(crate) const TIMER: usize = 6;

/// A text that is not printed yet, of at most 128 bytes.
#[derive(Drop)]
pub(crate) struct Piece {
    text: ArrayVec<u8, ROOM>,
}

impl Model for Piece {
    ghost use Rattle.std.specs.Prelude.{ℕ, List};

    ghost Value = { List ℕ };

    ghost view = { λ p. p.text.items };
}

impl Piece {
    pub(crate) fn new() -> Piece
        ensures { result ≡ [] }
    {
        Piece {
            text: ArrayVec::new(),
        }
    }

    pub(crate) fn put(&mut self, word: &[u8])
        requires { length self.old + length word.now ≤ ROOM }
        ensures { self.new ≡ self.old ++ word.now }
    {
        let _all = self.text.try_extend_from_slice(word);
    }

    pub(crate) fn put_number(&mut self, number: u64)
        requires { length self.old + 20 ≤ ROOM }
        ensures text { self.new ≡ self.old ++ decimal number }
        ensures short { length self.new ≤ length self.old + 20 }
    {
        let mut digits = Buffer::new();
        self.put(digits.format(number).as_bytes());
    }

    /// Two hexadecimal digits for each byte.
    pub(crate) fn put_pairs(&mut self, bytes: &[u8])
        requires { length self.old + 2 * length bytes.now ≤ ROOM }
        ensures text { self.new ≡ self.old ++ pairs bytes.now }
        ensures short { length self.new ≤ length self.old + 2 * length bytes.now }
    {
        let digits = digits_of(bytes);
        self.put(&digits[..2 * bytes.len()]);
    }

    pub(crate) fn text(&self) -> &[u8]
        ensures { result.now ≡ self.now }
    {
        self.text.as_slice()
    }
}

/// Prints a line that begins with this piece and ends with a word.
pub(crate) fn end_with_word<W: Paper>(printer: &mut Printer<W>, line: &mut Piece, word: &[u8])
    requires { length line.old + length word.now + 1 ≤ ROOM }
    ensures { Prints W.page printer.old printer.new (line.old ++ (word.now ++ codes "\n")) }
{
    line.put(word);
    line.put(b"\n");
    printer.write_all(line.text());
}

/// Prints a line that begins with this piece and ends with a word, a space included, and a number.
pub(crate) fn end_with_number<W: Paper>(
    printer: &mut Printer<W>,
    line: &mut Piece,
    word: &[u8],
    number: u64,
)
    requires { length line.old + length word.now + 21 ≤ ROOM }
    ensures { Prints W.page printer.old printer.new (line.old ++ ((word.now ++ decimal number) ++ codes "\n")) }
{
    line.put(word);
    line.put_number(number);
    line.put(b"\n");
    printer.write_all(line.text());
}

/// Prints a line that begins with this piece and ends with two digits for each byte.
pub(crate) fn end_with_pairs<W: Paper>(printer: &mut Printer<W>, line: &mut Piece, bytes: &[u8])
    requires { length line.old + 2 * length bytes.now + 1 ≤ ROOM }
    ensures { Prints W.page printer.old printer.new (line.old ++ (pairs bytes.now ++ codes "\n")) }
{
    line.put_pairs(bytes);
    line.put(b"\n");
    printer.write_all(line.text());
}

/// Prints a line that begins with this piece and ends with bytes, however many.
pub(crate) fn end_with_hex<W: Paper>(printer: &mut Printer<W>, line: &mut Piece, bytes: &[u8])
    ensures { Prints W.page printer.old printer.new (line.old ++ (hex_text bytes.now ++ codes "\n")) }
{
    printer.write_all(line.text());
    write_hex(printer, bytes);
    printer.write_all(b"\n");
}
