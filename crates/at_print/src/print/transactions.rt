//! How the reports and timers of transactions print, and the data of ATP's datagrams.
ghost use Rattle.std.specs.Prelude.{◌≡◌, ◌↔◌, ◌≤◌, ◌++◌, IfErr, IsOk, List, ℕ, codes, length};
ghost use Rattle.std.specs.Fmt.{decimal};
ghost use Rattle.std.specs.List.{flat_map};
ghost use Rattle.at_print.specs.Lines.{hex_text};
ghost use Rattle.at_print.specs.Printers.{Prints};
ghost use Rattle.at_event.specs.Kinds.{number_of};
ghost use Rattle.at_print.specs.Refusals.{refusal_line};
ghost use Rattle.at_print.specs.Reports.Transactions.{IsPacket, PacketText};
ghost use Rattle.at_print.specs.Reports.Transactions.{packet_text, transaction_text, transaction_text_at};
ghost use Rattle.at_print.specs.Reports.Transactions.{transaction_timer_text};
ghost use Rattle.at_print.specs.Requesters.{asked_by};

use crate::digits::write_hex;
use crate::packet_lines::write_frame;
use crate::paper::Paper;
use crate::piece::{HEAD, Piece, TIMER, end_with_number, end_with_word};
use crate::printer::Printer;
use crate::requesters::{other_net, put_key};
use at_atp::{Key, Packet};
use at_event::{Reason, TransactionReport, TransactionTimer};
use std::alloc::Allocator;

/// The line that begins with this piece, and ends with a report of transactions on network `net`.
pub(crate) fn write_transaction_report_at<A: Allocator, W: Paper>(
    printer: &mut Printer<W>,
    line: &mut Piece,
    net: u16,
    report: &TransactionReport<A>,
)
    requires { length line.old ≤ HEAD }
    ensures { Prints W.page printer.old printer.new (line.old ++ (transaction_text_at net report.now ++ codes "\n")) }
{
    match report {
        TransactionReport::Asked { key, user, data_ } => {
            write_asked(
                printer,
                line,
                other_net(net, *key),
                *key,
                *user,
                data_.as_slice(),
            )
        }
        _ => write_transaction_report(printer, line, report),
    }
}

/// The line that begins with this piece, and ends with a report of transactions.
pub(crate) fn write_transaction_report<A: Allocator, W: Paper>(
    printer: &mut Printer<W>,
    line: &mut Piece,
    report: &TransactionReport<A>,
)
    requires { length line.old ≤ HEAD }
    ensures { Prints W.page printer.old printer.new (line.old ++ (transaction_text report.now ++ codes "\n")) }
{
    match report {
        TransactionReport::Begun(tid) => end_with_number(printer, line, b"begun ", u64::from(*tid)),
        TransactionReport::Answered(count) => {
            end_with_number(printer, line, b"answered ", u64::from(*count))
        }
        TransactionReport::Expired => end_with_word(printer, line, b"done"),
        TransactionReport::Kept => end_with_word(printer, line, b"kept"),
        TransactionReport::Failed(tid) => {
            end_with_number(printer, line, b"failed ", u64::from(*tid))
        }
        TransactionReport::Released => end_with_word(printer, line, b"released"),
        TransactionReport::Asked { key, user, data_ } => {
            write_asked(printer, line, None, *key, *user, data_.as_slice())
        }
        TransactionReport::Response { tid, packets } => {
            write_response(printer, line, *tid, packets.as_slice())
        }
    }
}

fn write_asked<W: Paper>(
    printer: &mut Printer<W>,
    line: &mut Piece,
    net: Option<u16>,
    key: Key,
    user: [u8; 4],
    bytes: &[u8],
)
    requires { length line.old ≤ HEAD }
    ensures { Prints W.page printer.old printer.new
        (line.old ++ ((asked_by net key ++ (hex_text user ++ (codes " " ++ hex_text bytes.now))) ++ codes "\n")) }
{
    put_asked(line, net, key);
    printer.write_all(line.text());
    write_hex(printer, &user);
    printer.write_all(b" ");
    write_hex(printer, bytes);
    printer.write_all(b"\n");
}

// Who asked, and under which number.
fn put_asked(line: &mut Piece, net: Option<u16>, key: Key)
    requires { length line.old ≤ HEAD }
    ensures { line.new ≡ line.old ++ asked_by net key }
{
    line.put(b"asked ");
    put_key(line, net, key);
    line.put(b" ");
}

fn write_response<A: Allocator, W: Paper>(
    printer: &mut Printer<W>,
    line: &mut Piece,
    tid: u16,
    packets: &[Packet<A>],
)
    requires { length line.old ≤ HEAD }
    ensures { Prints W.page printer.old printer.new
        (line.old ++ (((codes "response " ++ decimal tid) ++ flat_map packet_text packets.now) ++ codes "\n")) }
{
    line.put(b"response ");
    line.put_number(u64::from(tid));
    printer.write_all(line.text());
    write_packets(printer, packets);
    printer.write_all(b"\n");
}

fn write_packets<A: Allocator, W: Paper>(printer: &mut Printer<W>, packets: &[Packet<A>])
    ensures { Prints W.page printer.old printer.new (flat_map packet_text packets.now) }
{
    for packet in packets {
        printer.write_all(b" ");
        write_hex(printer, &packet.user());
        printer.write_all(b":");
        write_hex(printer, packet.data_());
    }
}

/// The line that begins with this piece, and ends with a timer of transactions on network `net`.
pub(crate) fn write_transaction_timer<W: Paper>(
    printer: &mut Printer<W>,
    line: &mut Piece,
    net: u16,
    timer: TransactionTimer,
)
    requires { length line.old ≤ TIMER }
    ensures { Prints W.page printer.old printer.new (line.old ++ (transaction_timer_text net timer ++ codes "\n")) }
{
    match timer {
        TransactionTimer::Retry { tid } => {
            end_with_number(printer, line, b"retry ", u64::from(tid))
        }
        TransactionTimer::Release { own, key } => write_release(printer, line, net, own, key),
    }
}

fn write_release<W: Paper>(printer: &mut Printer<W>, line: &mut Piece, net: u16, own: u8, key: Key)
    requires { length line.old ≤ TIMER }
    ensures { Prints W.page printer.old printer.new
        (line.old ++ (transaction_timer_text net (TransactionTimer.Release own key) ++ codes "\n")) }
{
    line.put(b"release ");
    line.put_number(u64::from(own));
    line.put(b" ");
    put_key(line, other_net(net, key), key);
    line.put(b"\n");
    printer.write_all(line.text());
}

/// Prints the ATP packet that the data of a datagram are.
pub(crate) fn write_transaction_data<W: Paper>(
    printer: &mut Printer<W>,
    bytes: &[u8],
) -> Result<(), Reason>
    ensures done { IsOk result ↔ IsPacket bytes.now }
    ensures printed { IsOk result → (text : List ℕ) × PacketText bytes.now text
        × Prints W.page printer.old printer.new text }
    ensures refused { IfErr result (λ reason. PacketText bytes.now (refusal_line (number_of reason))
        × (printer.new ≡ printer.old)) }
{
    match at_atp::decode(bytes) {
        Ok(frame) => {
            write_frame(printer, &frame);
            Ok(())
        }
        Err(fault) => Err(Reason::OfTransactions(fault)),
    }
}
