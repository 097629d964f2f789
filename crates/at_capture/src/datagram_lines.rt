//! The lines of the datagram that a frame carries.
ghost use Rattle.std.specs.Prelude.{◌≡◌, ◌↔◌, ◌++◌, List, ℕ};
ghost use Rattle.at_capture.specs.Datagrams.{DatagramText, IsSoundBy, IsSoundShort, ShortText, short_line};
ghost use Rattle.at_ddp.specs.Datagram.{content};
ghost use Rattle.at_print.specs.Printers.{Prints};
ghost use Rattle.at_print.specs.Reports.{DataText, IsReadable};
ghost use Rattle.at_show.specs.Told.{TellsWhy};

use at_ddp::Datagram;
use at_diagnostics::Diagnostics;
use at_frames::{Header, SHORT_HEADER_LEN, decode_short};
use at_print::{Paper, Part, Printer, Status};
use at_show::{show_data, show_first, show_refusal};

/// Prints the datagram that begins these bytes, as `show` does. It returns `Done` if nothing of it was refused.
pub(crate) fn show_carried<W: Paper, E: Paper>(
    header: Header,
    bytes: &[u8],
    printer: &mut Printer<W>,
    diagnostics: &mut Diagnostics<'_, E>,
) -> Status
    ensures done { (result ≡ Status.Done) ↔ IsSoundBy header bytes.now }
    ensures printed { (text : List ℕ) × DatagramText header bytes.now text
        × Prints W.page printer.old printer.new text }
    ensures told { TellsWhy E.page (DatagramText header bytes.now) result diagnostics.old diagnostics.new }
{
    match header {
        Header::Long => show_first(bytes, printer, diagnostics),
        Header::Short { to, from } => show_short(to, from, bytes, printer, diagnostics),
    }
}

// A datagram with the short header, between nodes of LLAP.
fn show_short<W: Paper, E: Paper>(
    to: u8,
    from: u8,
    bytes: &[u8],
    printer: &mut Printer<W>,
    diagnostics: &mut Diagnostics<'_, E>,
) -> Status
    ensures done { (result ≡ Status.Done) ↔ IsSoundShort to from bytes.now }
    ensures printed { (text : List ℕ) × ShortText to from bytes.now text
        × Prints W.page printer.old printer.new text }
    ensures told { TellsWhy E.page (ShortText to from bytes.now) result diagnostics.old diagnostics.new }
{
    match decode_short(to, from, bytes) {
        Ok((datagram, rest)) => show_datagram(&datagram, rest.len(), printer, diagnostics),
        Err(fault) => show_refusal(fault, Some(fault.number()), printer, diagnostics),
    }
}

fn show_datagram<W: Paper, E: Paper>(
    datagram: &Datagram<'_>,
    rest: usize,
    printer: &mut Printer<W>,
    diagnostics: &mut Diagnostics<'_, E>,
) -> Status
    ensures done { (result ≡ Status.Done) ↔ IsReadable datagram.now.kind datagram.now.data_.now }
    ensures printed { (text : List ℕ) × DataText datagram.now.kind datagram.now.data_.now text
        × Prints W.page printer.old printer.new (short_line (content datagram.now) rest ++ text) }
    ensures told { TellsWhy E.page (DataText datagram.now.kind datagram.now.data_.now) result diagnostics.old
        diagnostics.new }
{
    write_short_header(printer, datagram, rest);
    show_data(datagram.kind, datagram.data_, printer, diagnostics)
}

// The line of a short header; so many bytes follow the datagram.
fn write_short_header<W: Paper>(printer: &mut Printer<W>, datagram: &Datagram<'_>, rest: usize)
    ensures { Prints W.page printer.old printer.new (short_line (content datagram.now) rest) }
{
    let len = SHORT_HEADER_LEN as u64 + datagram.data_.len() as u64;
    let (to, from) = (datagram.to, datagram.from);
    printer.write_each(&[
        Part::Text(b"ddp short length "),
        Part::Number(len),
        Part::Text(b" from "),
        Part::Number(from.node as u64),
        Part::Text(b"."),
    ]);
    printer.write_each(&[
        Part::Number(from.socket as u64),
        Part::Text(b" to "),
        Part::Number(to.node as u64),
        Part::Text(b"."),
        Part::Number(to.socket as u64),
        Part::Text(b" type "),
        Part::Number(datagram.kind as u64),
        Part::Text(b" rest "),
        Part::Number(rest as u64),
        Part::Text(b"\n"),
    ]);
}
