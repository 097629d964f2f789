//! The showing of a word of the command line.
ghost use Rattle.std.specs.Prelude.{◌⊎◌};
ghost use Rattle.at_diagnostics.specs.declared.diagnostics.Diagnostics.{Diagnostics as Told};
ghost use Rattle.at_print.specs.Printers.{IsSettled};
ghost use Rattle.at_show.specs.Words.{IsWordShown, IsWordUnshown, TellsDash};

use crate::show::{show_fault, show_text};
use at_diagnostics::Diagnostics;
use at_print::{Paper, Printer, Status};
use at_words::HexFault;
use std::alloc::Allocator;

/// Shows the datagram that a word spells in hexadecimal digits, as `atnode show` does. The bytes have room of their
/// own, a byte for two digits.
pub fn show_word<A: Allocator, W: Paper, E: Paper>(
    alloc: A,
    word: &[u8],
    printer: &mut Printer<W>,
    diagnostics: &mut Diagnostics<'_, E>,
) -> Status
    ensures shown { (mid : Told E) × TellsDash E.page word.now diagnostics.old mid
        × (IsWordShown W.page E.page word.now result printer.old printer.new mid diagnostics.new
        ⊎ IsWordUnshown W.page E.page result printer.old printer.new mid diagnostics.new) }
    ensures settled { IsSettled W.settles printer.new }
{
    tell_dash(word, diagnostics);
    match Vec::with_capacity(alloc, word.len() / 2) {
        Ok(mut room) => show_text(word, &mut room, printer, diagnostics),
        Err(_) => {
            let status = show_fault(HexFault::NoMemory, word, printer, diagnostics);
            printer.finish(status)
        }
    }
}

// Tells that the word `-` stands for no bytes, if it is that.
fn tell_dash<E: Paper>(word: &[u8], diagnostics: &mut Diagnostics<'_, E>)
    ensures { TellsDash E.page word.now diagnostics.old diagnostics.new }
{
    if word == b"-".as_slice() {
        diagnostics.tell_note("`-` stands for no bytes");
    }
}
