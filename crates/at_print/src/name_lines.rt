//! How NBP packets print: a line for the packet, and one for each of its tuples.
ghost use Rattle.std.specs.List.{flat_map};
ghost use Rattle.at_nbp.specs.Packets.{packet_content};
ghost use Rattle.at_nbp.specs.Tuples.{content};
ghost use Rattle.at_print.specs.NameLines.{function_word, names_lines, tuple_line};
ghost use Rattle.at_print.specs.Printers.{Prints};
ghost use Rattle.at_print.specs.TextWords.{name_text};

use crate::packet_lines::write_address;
use crate::paper::Paper;
use crate::part::Part;
use crate::printer::Printer;
use crate::text_words::write_text;
use at_nbp::{Function, Packet, Tuple, Tuples};

/// The line of an NBP packet, and a line for each tuple.
pub(crate) fn write_names<W: Paper>(printer: &mut Printer<W>, packet: &Packet<'_>)
    ensures { Prints W.page printer.old printer.new (names_lines (packet_content packet.now)) }
{
    printer.write_all(b"nbp ");
    write_function(printer, packet.function);
    let count = packet.tuples.unread();
    printer.write_each(&[
        Part::Text(b" id "),
        Part::Number(packet.id as u64),
        Part::Text(b" count "),
        Part::Number(count as u64),
        Part::Text(b"\n"),
    ]);
    write_tuples(printer, &packet.tuples);
}

fn write_function<W: Paper>(printer: &mut Printer<W>, function: Function)
    ensures { Prints W.page printer.old printer.new (function_word function) }
{
    match function {
        Function::BroadcastRequest => printer.write_all(b"brrq"),
        Function::LookUp => printer.write_all(b"lkup"),
        Function::Reply => printer.write_all(b"reply"),
        Function::ForwardRequest => printer.write_all(b"fwdreq"),
    }
}

fn write_tuples<W: Paper>(printer: &mut Printer<W>, tuples: &Tuples<'_>)
    ensures { Prints W.page printer.old printer.new (flat_map tuple_line tuples.now) }
{
    for tuple in tuples.iter() {
        write_tuple(printer, &tuple);
    }
}

fn write_tuple<W: Paper>(printer: &mut Printer<W>, tuple: &Tuple<'_>)
    ensures { Prints W.page printer.old printer.new (tuple_line (content tuple.now)) }
{
    printer.write_all(b"tuple ");
    write_name(printer, tuple.object, tuple.kind, tuple.zone);
    printer.write_all(b" ");
    write_address(printer, tuple.address);
    printer.write_each(&[
        Part::Text(b" enumerator "),
        Part::Number(tuple.enumerator as u64),
        Part::Text(b"\n"),
    ]);
}

/// An object, a type and a zone.
pub(crate) fn write_name<W: Paper>(
    printer: &mut Printer<W>,
    object: &[u8],
    kind: &[u8],
    zone: &[u8],
)
    ensures { Prints W.page printer.old printer.new (name_text object.now kind.now zone.now) }
{
    write_text(printer, object);
    printer.write_all(b":");
    write_text(printer, kind);
    printer.write_all(b"@");
    write_text(printer, zone);
}
