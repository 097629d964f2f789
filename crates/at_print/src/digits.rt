//! Bytes as hexadecimal digits, in capitals.
ghost use Rattle.std.specs.Prelude.{◌≡◌, ◌≤◌, ◌<◌, ◌*◌, true, length, take};
ghost use Rattle.std.specs.Fmt.{digit_glyph};
ghost use Rattle.at_print.specs.Lines.{hex_text, pairs};
ghost use Rattle.at_print.specs.Printers.{Prints};

use crate::paper::Paper;
use crate::printer::Printer;

/// How many bytes are written at a time. A write for each byte costs more than its digits.
pub(crate) const BLOCK: usize = 64;

/// Two digits for each byte of a block.
const BLOCK_DIGITS: usize = 128;

/// Pairs of hexadecimal digits, or `-` for no bytes.
pub(crate) fn write_hex<W: Paper>(printer: &mut Printer<W>, bytes: &[u8])
    ensures { Prints W.page printer.old printer.new (hex_text bytes.now) }
{
    if bytes.is_empty() {
        printer.write_all(b"-");
    } else {
        write_pairs(printer, bytes);
    }
}

/// Pairs of hexadecimal digits.
pub(crate) fn write_pairs<W: Paper>(printer: &mut Printer<W>, bytes: &[u8])
    ensures { Prints W.page printer.old printer.new (pairs bytes.now) }
{
    let mut rest = bytes;
    while let Some((block, after)) = rest.split_at_checked(BLOCK) {
        write_block(printer, block);
        rest = after;
    }
    write_block(printer, rest);
}

fn write_block<W: Paper>(printer: &mut Printer<W>, block: &[u8])
    requires { length block.now ≤ BLOCK }
    ensures { Prints W.page printer.old printer.new (pairs block.now) }
{
    let digits = digits_of(block);
    printer.write_all(&digits[..2 * block.len()]);
}

/// The digits of a block, and then zeros. A block is short, so its digits are put side by side before they are used.
pub(crate) fn digits_of(block: &[u8]) -> [u8; BLOCK_DIGITS]
    requires { length block.now ≤ BLOCK }
    ensures { take (2 * length block.now) result ≡ pairs block.now }
{
    let mut digits = [0; BLOCK_DIGITS];
    for place in 0..block.len() {
        digits[2 * place] = digit(block[place] / 16);
        digits[2 * place + 1] = digit(block[place] % 16);
    }
    digits
}

fn digit(value: u8) -> u8
    requires { value < 16 }
    ensures { result ≡ digit_glyph true value }
{
    if value < 10 {
        b'0' + value
    } else {
        b'A' + (value - 10)
    }
}
