//! What `show` prints of a datagram that a word spells in hexadecimal digits.
ghost use Rattle.std.specs.Prelude.{◌≡◌, ◌↔◌, ◌⊎◌, ◌≤◌, ◌/◌, ◌++◌, List, ℕ, None, length, vec_capacity};
ghost use Rattle.at_print.specs.Printers.{HasFailed, IsSettled, Prints};
ghost use Rattle.at_ddp.specs.Datagram.{content};
ghost use Rattle.at_diagnostics.specs.Diagnostics.{TellsReason};
ghost use Rattle.at_diagnostics.specs.Lines.{reason_told};
ghost use Rattle.at_show.specs.HexFaults.{fault_line};
ghost use Rattle.at_print.specs.Refusals.{refusal_line};
ghost use Rattle.at_print.specs.Reports.{DataText, IsReadable};
ghost use Rattle.at_show.specs.Texts.{BytesText, WordText};
ghost use Rattle.at_print.specs.Lines.{header_line};
ghost use Rattle.at_show.specs.Shown.{IsSound, Shows};
ghost use Rattle.at_show.specs.Told.{TellsRefusal, TellsWhy};

use crate::hex_reason::HexReason;
use at_ddp::Datagram;
use at_diagnostics::Diagnostics;
use at_print::{Paper, Part, Printer, Status, write_data, write_header};
use at_words::{HexFault, bytes_of};
use std::alloc::Allocator;
use std::fmt::Display;

/// Prints the datagram that a word spells in hexadecimal digits, its header and its packet, or the number of the first
/// refusal. What follows the datagram is counted only. The bytes are put into the room. Why a word or a datagram is
/// refused is reported on standard error as well.
pub fn show_text<A: Allocator, W: Paper, E: Paper>(
    word: &[u8],
    room: &mut Vec<u8, A>,
    printer: &mut Printer<W>,
    diagnostics: &mut Diagnostics<'_, E>,
) -> Status
    ensures done { result ≡ Status.Done → Shows word.now × ¬ HasFailed printer.new }
    ensures printed { (text : List ℕ) × WordText word.now (vec_capacity room.old) text
        × Prints W.page printer.old printer.new text }
    // It fails only if the word is not to be shown, room was missing, or a write failed.
    ensures only { Shows word.now → length word.now / 2 ≤ vec_capacity room.old → ¬ HasFailed printer.new
        → result ≡ Status.Done }
    ensures settled { IsSettled W.settles printer.new }
    // The number that a person is told is the one that is printed.
    ensures told { (Shows word.now × (diagnostics.new ≡ diagnostics.old))
        ⊎ TellsRefusal E.page (WordText word.now (vec_capacity room.old)) diagnostics.old diagnostics.new }
    ensures silent { Shows word.now → length word.now / 2 ≤ vec_capacity room.old
        → diagnostics.new ≡ diagnostics.old }
{
    let status = match bytes_of(word, room) {
        Ok(()) => show_first(room.as_slice(), printer, diagnostics),
        Err(fault) => show_fault(fault, word, printer, diagnostics),
    };
    printer.finish(status)
}

/// The same of bytes, in the place of a word that spells them.
pub fn show_bytes<W: Paper, E: Paper>(
    bytes: &[u8],
    printer: &mut Printer<W>,
    diagnostics: &mut Diagnostics<'_, E>,
) -> Status
    // It fails only if the bytes are refused, or a write failed.
    ensures done { (result ≡ Status.Done) ↔ (IsSound bytes.now × ¬ HasFailed printer.new) }
    ensures printed { (text : List ℕ) × BytesText bytes.now text × Prints W.page printer.old printer.new text }
    ensures settled { IsSettled W.settles printer.new }
    ensures told { (IsSound bytes.now × (diagnostics.new ≡ diagnostics.old))
        ⊎ TellsRefusal E.page (BytesText bytes.now) diagnostics.old diagnostics.new }
    ensures silent { IsSound bytes.now → diagnostics.new ≡ diagnostics.old }
{
    let status = show_first(bytes, printer, diagnostics);
    printer.finish(status)
}

/// Shows why a word has no bytes: it spells none, or there is no room for them. Nothing is flushed.
pub(crate) fn show_fault<W: Paper, E: Paper>(
    fault: HexFault,
    word: &[u8],
    printer: &mut Printer<W>,
    diagnostics: &mut Diagnostics<'_, E>,
) -> Status
    ensures failed { result ≡ Status.Failed }
    ensures printed { Prints W.page printer.old printer.new (fault_line fault) }
    ensures told { TellsReason E.page (reason_told None) diagnostics.old diagnostics.new }
{
    match fault {
        HexFault::NoHex => {
            printer.write_all(b"fault 1\n");
            diagnostics.tell_refusal(HexReason::of(word), None);
        }
        HexFault::NoMemory => {
            printer.write_all(b"stopped nomemory at 0\n");
            diagnostics.tell_refusal("out of memory", None);
        }
    }
    Status::Failed
}

/// Shows the datagram with which the bytes begin, and goes on: nothing is flushed. The status is `Failed` if it is
/// refused.
pub fn show_first<W: Paper, E: Paper>(
    bytes: &[u8],
    printer: &mut Printer<W>,
    diagnostics: &mut Diagnostics<'_, E>,
) -> Status
    ensures done { (result ≡ Status.Done) ↔ IsSound bytes.now }
    ensures printed { (text : List ℕ) × BytesText bytes.now text × Prints W.page printer.old printer.new text }
    ensures told { TellsWhy E.page (BytesText bytes.now) result diagnostics.old diagnostics.new }
{
    match at_ddp::decode(bytes) {
        Ok((datagram, rest)) => show_datagram(&datagram, rest.len(), printer, diagnostics),
        Err(refusal) => show_refusal(refusal, refusal.number(), printer, diagnostics),
    }
}

// The header's line, and the lines of what the datagram carries.
fn show_datagram<W: Paper, E: Paper>(
    datagram: &Datagram<'_>,
    rest: usize,
    printer: &mut Printer<W>,
    diagnostics: &mut Diagnostics<'_, E>,
) -> Status
    ensures done { (result ≡ Status.Done) ↔ IsReadable datagram.now.kind datagram.now.data_.now }
    ensures printed { (text : List ℕ) × DataText datagram.now.kind datagram.now.data_.now text
        × Prints W.page printer.old printer.new (header_line (content datagram.now) rest ++ text) }
    ensures told { TellsWhy E.page (DataText datagram.now.kind datagram.now.data_.now) result diagnostics.old
        diagnostics.new }
{
    write_header(printer, datagram, rest);
    show_data(datagram.kind, datagram.data_, printer, diagnostics)
}

/// Shows the data of a datagram of this type: the lines of its packet, or the bytes. The status is `Failed` if the
/// packet is refused.
pub fn show_data<W: Paper, E: Paper>(
    kind: u8,
    bytes: &[u8],
    printer: &mut Printer<W>,
    diagnostics: &mut Diagnostics<'_, E>,
) -> Status
    ensures done { (result ≡ Status.Done) ↔ IsReadable kind bytes.now }
    ensures printed { (text : List ℕ) × DataText kind bytes.now text
        × Prints W.page printer.old printer.new text }
    ensures told { TellsWhy E.page (DataText kind bytes.now) result diagnostics.old diagnostics.new }
{
    match write_data(printer, kind, bytes) {
        Ok(()) => Status::Done,
        Err(reason) => show_refusal(reason, reason.number(), printer, diagnostics),
    }
}

/// Prints the number of a refusal, in the place of the line of what was refused, and tells why.
pub fn show_refusal<F: Display + Drop, W: Paper, E: Paper>(
    fault: F,
    number: Option<u8>,
    printer: &mut Printer<W>,
    diagnostics: &mut Diagnostics<'_, E>,
) -> Status
    ensures failed { result ≡ Status.Failed }
    ensures printed { Prints W.page printer.old printer.new (refusal_line number) }
    ensures told { TellsReason E.page (reason_told number) diagnostics.old diagnostics.new }
{
    match number {
        Some(number) => printer.write_each(&[
            Part::Text(b"refused "),
            Part::Number(number as u64),
            Part::Text(b"\n"),
        ]),
        None => printer.write_all(b"stopped nomemory at 0\n"),
    }
    diagnostics.tell_refusal(fault, number);
    Status::Failed
}
