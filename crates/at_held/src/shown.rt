//! What is shown of bytes of a datagram, as text.
ghost use Rattle.std.specs.Prelude.{◌≡◌, ℕ, List, IfOk};
ghost use Rattle.at_held.specs.Handing.{HandsShown};
ghost use Rattle.at_show.specs.Texts.{BytesText};

use crate::room::place_text;
use crate::withheld::Withheld;
use at_diagnostics::Diagnostics;
use at_print::{Paper, Printer};
use at_show::show_bytes;
use std::alloc::{AllocError, Global};
use std::io;

/// Copies out the lines of what these bytes are, as `show` prints them, and gives their length. Bytes that are refused
/// have lines too.
pub fn show(alloc: Global, bytes: &[u8], room: &mut [u8]) -> Result<usize, Withheld>
    ensures { HandsShown bytes.now room.old result room.new }
{
    place_text(lines_of(alloc, bytes), room)
}

fn lines_of(alloc: Global, bytes: &[u8]) -> Result<Vec<u8>, AllocError>
    ensures { (text : List ℕ) × BytesText bytes.now text × IfOk result (λ lines. lines.items ≡ text) }
{
    let mut printer = Printer::new(Vec::new(alloc));
    let mut unheard = Diagnostics::new("", Unheard);
    show_bytes(bytes, &mut printer, &mut unheard);
    if printer.has_failed() {
        return Err(AllocError);
    }
    Ok(printer.into_writer())
}

// Where reasons are told that nobody hears.
#[derive(Drop)]
struct Unheard;

impl Paper for Unheard {
    ghost use Rattle.std.specs.Prelude.{None, false};

    ghost page = { λ _. record { contents = None; has_failed = false } };

    ghost settles = { λ before answer after. Unit {0} };

    fn put(&mut self, _bytes: &[u8]) -> io::Result<()> {
        Ok(())
    }

    fn settle(&mut self) -> io::Result<()> {
        Ok(())
    }
}
