//! How the reports and timers of names print, and the data of NBP's datagrams.
ghost use Rattle.std.specs.Prelude.{◌≡◌, ◌↔◌, ◌≤◌, ◌++◌, IfErr, IsOk, List, ℕ, codes, length};
ghost use Rattle.std.specs.List.{flat_map};
ghost use Rattle.at_print.specs.Printers.{Prints};
ghost use Rattle.at_event.specs.Kinds.{number_of};
ghost use Rattle.at_print.specs.Refusals.{refusal_line};
ghost use Rattle.at_print.specs.Reports.Names.{IsNames, NamesText};
ghost use Rattle.at_print.specs.Reports.Names.{find_text, found_text, name_report_text, name_timer_text};

use crate::name_lines::{write_name, write_names};
use crate::paper::Paper;
use crate::part::Part;
use crate::piece::{HEAD, Piece, TIMER, end_with_number, end_with_word};
use crate::printer::Printer;
use at_event::{NameReport, NameTimer, Reason};
use at_nbp::Find;
use std::alloc::Allocator;

/// The line that begins with this piece, and ends with a report of names.
pub(crate) fn write_name_report<A: Allocator, W: Paper>(
    printer: &mut Printer<W>,
    line: &mut Piece,
    report: &NameReport<A>,
)
    requires { length line.old ≤ HEAD }
    ensures { Prints W.page printer.old printer.new (line.old ++ (name_report_text report.now ++ codes "\n")) }
{
    match report {
        NameReport::Looking(id) => end_with_number(printer, line, b"looking ", u64::from(*id)),
        NameReport::Found(finds) => write_found(printer, line, finds.as_slice()),
        NameReport::Claimed => end_with_word(printer, line, b"claimed"),
        NameReport::Taken(owner) => write_taken(printer, line, owner.find()),
        NameReport::Registered => end_with_word(printer, line, b"done"),
        NameReport::Unregistered => end_with_word(printer, line, b"done"),
        NameReport::Relayed => end_with_word(printer, line, b"relayed"),
        NameReport::Matched(count) => end_with_number(printer, line, b"names ", *count as u64),
        NameReport::Added(count) => end_with_number(printer, line, b"finds ", *count as u64),
    }
}

// The line that begins with this piece, and ends with the finds of a lookup that was finished.
fn write_found<W: Paper>(printer: &mut Printer<W>, line: &mut Piece, finds: &[Find])
    requires { length line.old ≤ HEAD }
    ensures { Prints W.page printer.old printer.new
        (line.old ++ ((codes "found" ++ flat_map found_text finds.now) ++ codes "\n")) }
{
    line.put(b"found");
    printer.write_all(line.text());
    write_finds(printer, finds);
    printer.write_all(b"\n");
}

fn write_finds<W: Paper>(printer: &mut Printer<W>, finds: &[Find])
    ensures { Prints W.page printer.old printer.new (flat_map found_text finds.now) }
{
    for find in finds {
        printer.write_all(b" ");
        write_find(printer, find);
    }
}

// The line that begins with this piece, and ends with the name of a claim that is taken.
fn write_taken<W: Paper>(printer: &mut Printer<W>, line: &mut Piece, find: &Find)
    requires { length line.old ≤ HEAD }
    ensures { Prints W.page printer.old printer.new
        (line.old ++ ((codes "taken " ++ find_text find.now) ++ codes "\n")) }
{
    line.put(b"taken ");
    printer.write_all(line.text());
    write_find(printer, find);
    printer.write_all(b"\n");
}

// A name and who has it.
fn write_find<W: Paper>(printer: &mut Printer<W>, find: &Find)
    ensures { Prints W.page printer.old printer.new (find_text find.now) }
{
    let name = &find.name;
    write_name(
        printer,
        name.object.bytes(),
        name.kind.bytes(),
        name.zone.bytes(),
    );
    printer.write_each(&[
        Part::Text(b","),
        Part::Number(find.address.node as u64),
        Part::Text(b","),
        Part::Number(find.address.socket as u64),
        Part::Text(b","),
        Part::Number(find.enumerator as u64),
    ]);
}

/// The line that begins with this piece, and ends with a timer of names.
pub(crate) fn write_name_timer<W: Paper>(
    printer: &mut Printer<W>,
    line: &mut Piece,
    timer: NameTimer,
)
    requires { length line.old ≤ TIMER }
    ensures { Prints W.page printer.old printer.new (line.old ++ (name_timer_text timer ++ codes "\n")) }
{
    match timer {
        NameTimer::Lookup { id } => end_with_number(printer, line, b"lookup ", u64::from(id)),
    }
}

/// Prints the NBP packet with which the data of a datagram begin, and passes over what follows it.
pub(crate) fn write_name_data<W: Paper>(
    printer: &mut Printer<W>,
    bytes: &[u8],
) -> Result<(), Reason>
    ensures done { IsOk result ↔ IsNames bytes.now }
    ensures printed { IsOk result → (text : List ℕ) × NamesText bytes.now text
        × Prints W.page printer.old printer.new text }
    ensures refused { IfErr result (λ reason. NamesText bytes.now (refusal_line (number_of reason))
        × (printer.new ≡ printer.old)) }
{
    match at_nbp::decode(bytes) {
        Ok((packet, _)) => {
            write_names(printer, &packet);
            Ok(())
        }
        Err(fault) => Err(Reason::OfNames(fault)),
    }
}
