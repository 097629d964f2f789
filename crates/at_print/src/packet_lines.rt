//! How datagrams and packets print, a line each.
ghost use Rattle.std.specs.Prelude.{◌++◌, ◌∷◌, [], codes};
ghost use Rattle.std.specs.Fmt.{decimal};
ghost use Rattle.std.specs.Int.{from_bool};
ghost use Rattle.std.specs.List.{concat};
ghost use Rattle.at_atp_frame.specs.Frames.{content as packet_of, Release};
ghost use Rattle.at_ddp.specs.Datagram.{content};
ghost use Rattle.at_print.specs.Lines.{address_text, header_line, packet_line, pairs, parts, raw_line, sum_text};
ghost use Rattle.at_print.specs.Printers.{Prints};

use crate::digits::write_hex;
use crate::paper::Paper;
use crate::part::Part;
use crate::printer::Printer;
use at_atp::Frame;
use at_ddp::{Address, Datagram, HEADER_LEN};

/// The line of a datagram's header; so many bytes follow the datagram.
pub fn write_header<W: Paper>(printer: &mut Printer<W>, datagram: &Datagram<'_>, rest: usize)
    ensures { Prints W.page printer.old printer.new (header_line (content datagram.now) rest) }
{
    let len = HEADER_LEN as u64 + datagram.data_.len() as u64;
    printer.write_each(&[
        Part::Text(b"ddp length "),
        Part::Number(len),
        Part::Text(b" hops "),
        Part::Number(datagram.hops as u64),
        Part::Text(b" sum "),
    ]);
    write_sum(printer, datagram.sum);
    printer.write_all(b" from ");
    write_address(printer, datagram.from);
    printer.write_all(b" to ");
    write_address(printer, datagram.to);
    printer.write_each(&[
        Part::Text(b" type "),
        Part::Number(datagram.kind as u64),
        Part::Text(b" rest "),
        Part::Number(rest as u64),
        Part::Text(b"\n"),
    ]);
}

// Four digits, or that no sum was computed.
fn write_sum<W: Paper>(printer: &mut Printer<W>, sum: u16)
    ensures { Prints W.page printer.old printer.new (sum_text sum) }
{
    if sum == 0 {
        printer.write_all(b"none");
    } else {
        write_hex(printer, &sum.to_be_bytes());
    }
}

pub(crate) fn write_address<W: Paper>(printer: &mut Printer<W>, address: Address)
    ensures { Prints W.page printer.old printer.new (address_text address) }
{
    printer.write_each(&[
        Part::Number(address.net as u64),
        Part::Text(b"."),
        Part::Number(address.node as u64),
        Part::Text(b"."),
        Part::Number(address.socket as u64),
    ]);
}

/// The line of data that is not read.
pub(crate) fn write_raw<W: Paper>(printer: &mut Printer<W>, bytes: &[u8])
    ensures { Prints W.page printer.old printer.new (raw_line bytes.now) }
{
    printer.write_all(b"raw ");
    write_hex(printer, bytes);
    printer.write_all(b"\n");
}

/// The line of an ATP packet.
pub(crate) fn write_frame<W: Paper>(printer: &mut Printer<W>, frame: &Frame<'_>)
    ensures { Prints W.page printer.old printer.new (packet_line (packet_of frame.now)) }
{
    match frame {
        Frame::Request {
            mask,
            xo,
            timer,
            tid,
            user,
            data_,
        } => {
            write_request(printer, *mask, *xo, *timer, *tid);
            write_parts(printer, *user, data_);
        }
        Frame::Response {
            sequence_number,
            eom,
            sts,
            tid,
            user,
            data_,
        } => {
            write_response(printer, *sequence_number, *eom, *sts, *tid);
            write_parts(printer, *user, data_);
        }
        Frame::Release { tid } => write_release(printer, *tid),
    }
}

// The header of a request.
fn write_request<W: Paper>(printer: &mut Printer<W>, mask: u8, xo: bool, timer: u8, tid: u16)
    ensures { Prints W.page printer.old printer.new (codes "atp request mask "
        ++ (pairs (mask ∷ []) ++ (codes " xo " ++ (decimal (from_bool xo)
        ++ (codes " timer " ++ (decimal timer ++ (codes " id " ++ decimal tid))))))) }
{
    printer.write_all(b"atp request mask ");
    write_hex(printer, &[mask]);
    printer.write_each(&[
        Part::Text(b" xo "),
        Part::Number(u64::from(xo)),
        Part::Text(b" timer "),
        Part::Number(timer as u64),
        Part::Text(b" id "),
        Part::Number(tid as u64),
    ]);
}

// The header of a response.
fn write_response<W: Paper>(printer: &mut Printer<W>, place: u8, eom: bool, sts: bool, tid: u16)
    ensures { Prints W.page printer.old printer.new (codes "atp response place "
        ++ (decimal place ++ (codes " eom " ++ (decimal (from_bool eom)
        ++ (codes " sts " ++ (decimal (from_bool sts) ++ (codes " id " ++ decimal tid))))))) }
{
    printer.write_each(&[
        Part::Text(b"atp response place "),
        Part::Number(place as u64),
        Part::Text(b" eom "),
        Part::Number(u64::from(eom)),
        Part::Text(b" sts "),
        Part::Number(u64::from(sts)),
        Part::Text(b" id "),
        Part::Number(tid as u64),
    ]);
}

// The line of a release.
fn write_release<W: Paper>(printer: &mut Printer<W>, tid: u16)
    ensures { Prints W.page printer.old printer.new (packet_line (Release tid)) }
{
    printer.write_each(&[
        Part::Text(b"atp release id "),
        Part::Number(tid as u64),
        Part::Text(b"\n"),
    ]);
}

// The user bytes and the data, at the end of a packet's line.
fn write_parts<W: Paper>(printer: &mut Printer<W>, user: [u8; 4], bytes: &[u8])
    ensures { Prints W.page printer.old printer.new (concat (parts user bytes.now)) }
{
    printer.write_all(b" user ");
    write_hex(printer, &user);
    printer.write_all(b" data ");
    write_hex(printer, bytes);
    printer.write_all(b"\n");
}
