//! How the stations of a frame print.
ghost use Rattle.std.specs.Prelude.{◌≡◌, ◌<◌, ◌∷◌, [], true};
ghost use Rattle.std.specs.Fmt.{digit_glyph};
ghost use Rattle.std.specs.List.{flat_map};
ghost use Rattle.at_capture.specs.Stations.{ethernet_text, part_text, station_text};
ghost use Rattle.at_print.specs.Lines.{pairs};
ghost use Rattle.at_print.specs.Printers.{Prints};

use at_frames::Station;
use at_print::{Paper, Printer};

/// Prints a station: an address of Ethernet, a node of LLAP, or `-`.
pub(crate) fn write_station<W: Paper>(printer: &mut Printer<W>, station: Station)
    ensures { Prints W.page printer.old printer.new (station_text station) }
{
    match station {
        Station::Ethernet(address) => write_ethernet(printer, &address),
        Station::Node(node) => printer.write_number(node as u64),
        Station::Unknown => printer.write_all(b"-"),
    }
}

// Pairs of digits, with colons between them.
fn write_ethernet<W: Paper>(printer: &mut Printer<W>, address: &[u8])
    ensures { Prints W.page printer.old printer.new (ethernet_text address.now) }
{
    if let Some((first, rest)) = address.split_first() {
        write_pair(printer, *first);
        write_parts(printer, rest);
    }
}

fn write_parts<W: Paper>(printer: &mut Printer<W>, bytes: &[u8])
    ensures { Prints W.page printer.old printer.new (flat_map part_text bytes.now) }
{
    for byte in bytes {
        write_part(printer, *byte);
    }
}

fn write_pair<W: Paper>(printer: &mut Printer<W>, byte: u8)
    ensures { Prints W.page printer.old printer.new (pairs (byte ∷ [])) }
{
    printer.write_all(&[digit(byte / 16), digit(byte % 16)]);
}

// A colon and a pair.
fn write_part<W: Paper>(printer: &mut Printer<W>, byte: u8)
    ensures { Prints W.page printer.old printer.new (part_text byte) }
{
    printer.write_all(&[b':', digit(byte / 16), digit(byte % 16)]);
}

fn digit(value: u8) -> u8
    requires { value < 16 }
    ensures { result ≡ digit_glyph true value }
{
    if value < 10 {
        b'0' + value
    } else {
        b'A' + (value - 10)
    }
}
