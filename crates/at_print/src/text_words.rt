//! Texts as words of a line.
ghost use Rattle.std.specs.Prelude.{◌≡◌, ◌≤◌, ◌+◌, ◌++◌, length};
ghost use Rattle.std.specs.List.{flat_map};
ghost use Rattle.at_print.specs.Printers.{Prints};
ghost use Rattle.at_print.specs.TextWords.{glyph, is_sign, stands_for_itself, text_word};

use crate::paper::Paper;
use crate::piece::{Piece, ROOM};
use crate::printer::Printer;

/// How many bytes of a text are written at a time. A write for each byte costs more than what it writes.
const BLOCK: usize = 32;

/// Letters, digits and a few signs as they are, `%` and two digits for every other byte, and `%` for the empty text.
pub fn write_text<W: Paper>(printer: &mut Printer<W>, text: &[u8])
    ensures { Prints W.page printer.old printer.new (text_word text.now) }
{
    if text.is_empty() {
        printer.write_all(b"%");
    } else {
        write_glyphs(printer, text);
    }
}

fn write_glyphs<W: Paper>(printer: &mut Printer<W>, text: &[u8])
    ensures { Prints W.page printer.old printer.new (flat_map glyph text.now) }
{
    let mut rest = text;
    while rest.len() > BLOCK {
        let (block, after) = rest.split_at(BLOCK);
        write_block(printer, block);
        rest = after;
    }
    write_block(printer, rest);
}

fn write_block<W: Paper>(printer: &mut Printer<W>, block: &[u8])
    requires { length block.now ≤ BLOCK }
    ensures { Prints W.page printer.old printer.new (flat_map glyph block.now) }
{
    let mut line = Piece::new();
    for byte in block {
        put_glyph(&mut line, *byte);
    }
    printer.write_all(line.text());
}

fn put_glyph(line: &mut Piece, byte: u8)
    requires { length line.old + 3 ≤ ROOM }
    ensures text { line.new ≡ line.old ++ glyph byte }
    ensures short { length line.new ≤ length line.old + 3 }
{
    if stands_for_itself(byte) {
        line.put(&[byte]);
    } else {
        line.put(b"%");
        line.put_pairs(&[byte]);
    }
}

fn stands_for_itself(byte: u8) -> bool
    ensures { result ≡ stands_for_itself byte }
{
    byte.is_ascii_alphanumeric() || is_sign(byte)
}

fn is_sign(byte: u8) -> bool
    ensures { result ≡ is_sign byte }
{
    byte == b'-' || (byte == b'_' || (byte == b'.' || (byte == b'=' || byte == b'*')))
}
