//! How the reports of zones print.
ghost use Rattle.std.specs.Prelude.{◌≡◌, ◌≤◌, ◌++◌, codes, length};
ghost use Rattle.std.specs.List.{flat_map};
ghost use Rattle.at_print.specs.Printers.{Prints};
ghost use Rattle.at_print.specs.Reports.Zones.{table_word, zone_report_text, zone_text};

use crate::paper::Paper;
use crate::piece::{HEAD, Piece, end_with_number, end_with_word};
use crate::printer::Printer;
use crate::text_words::write_text;
use at_ddp::Pascal;
use at_event::ZoneReport;
use at_zip::TableChoice;
use std::alloc::Allocator;

/// The line that begins with this piece, and ends with a report of zones.
pub(crate) fn write_zone_report<A: Allocator, W: Paper>(
    printer: &mut Printer<W>,
    line: &mut Piece,
    report: &ZoneReport<A>,
)
    requires { length line.old ≤ HEAD }
    ensures { Prints W.page printer.old printer.new (line.old ++ (zone_report_text report.now ++ codes "\n")) }
{
    match report {
        ZoneReport::Served(count) => end_with_number(printer, line, b"served ", u64::from(*count)),
        ZoneReport::TableSet => end_with_word(printer, line, b"done"),
        ZoneReport::List { which, names } => write_zones(printer, line, *which, names.as_slice()),
        ZoneReport::Fault(number) => {
            end_with_number(printer, line, b"zonefault ", u64::from(*number))
        }
        ZoneReport::Unanswered => end_with_word(printer, line, b"zonesfailed"),
    }
}

fn write_zones<W: Paper>(
    printer: &mut Printer<W>,
    line: &mut Piece,
    which: TableChoice,
    zones: &[Pascal],
)
    requires { length line.old ≤ HEAD }
    ensures { Prints W.page printer.old printer.new
        (line.old ++ ((table_word which ++ flat_map zone_text zones.now) ++ codes "\n")) }
{
    line.put(table_word(which));
    printer.write_all(line.text());
    write_each_zone(printer, zones);
    printer.write_all(b"\n");
}

// The word for a list of the zones of this table.
fn table_word(which: TableChoice) -> &'static [u8]
    ensures word { result.now ≡ table_word which }
    ensures short { length result.now ≤ 10 }
{
    match which {
        TableChoice::All => b"zones",
        TableChoice::Local => b"localzones",
    }
}

fn write_each_zone<W: Paper>(printer: &mut Printer<W>, zones: &[Pascal])
    ensures { Prints W.page printer.old printer.new (flat_map zone_text zones.now) }
{
    for zone in zones {
        printer.write_all(b" ");
        write_text(printer, zone.bytes());
    }
}
