//! Recordings, written to a printer.
ghost use Rattle.at_pcap.specs.Captures.{record_bytes, written_file_header};
ghost use Rattle.at_print.specs.Printers.{Prints};
ghost use Rattle.at_recording.specs.Recordings.{front, record_at};
ghost use Rattle.at_recording.specs.Frames.{IsSending};

use crate::frame::{carried, receiver, sender};
use crate::moment::Moment;
use at_frames::{ETHERTALK_HEADER_LEN, ethertalk_header};
use at_pcap::{
    FileHeader, Order, Precision, RecordHeader, encode_file_header, encode_record_header,
};
use at_print::{Paper, Printer};

/// What a recording says of its records.
const FRONT: FileHeader = FileHeader {
    order: Order::Little,
    precision: Precision::Microseconds,
    link_type: 1,
};

/// The most captured bytes of a frame, as a recording says it. No frame has so many.
const LONGEST: u32 = 65_535;

/// Writes what a recording begins with, before its first record.
pub fn write_front<W: Paper>(printer: &mut Printer<W>)
    ensures { Prints W.page printer.old printer.new (written_file_header front 65535) }
{
    printer.write_all(&encode_file_header(FRONT, LONGEST));
}

/// Writes the record of a datagram that is sent to this node at this moment. Of one that is longer than a frame takes
/// it writes the front, 1,492 bytes.
pub fn write_record<W: Paper>(printer: &mut Printer<W>, moment: Moment, to: u8, bytes: &[u8])
    ensures written { Prints W.page printer.old printer.new
        (record_bytes Order.Little (record_at moment to bytes.now)) }
    // What is sent is in the ranges of its fields.
    ensures ranges { IsSending (record { event = moment.event; to = to; bytes = bytes.now }) }
{
    let part = carried(bytes);
    let len = part.len() as u16;
    let captured = ETHERTALK_HEADER_LEN as u32 + u32::from(len);
    let header = RecordHeader {
        seconds: moment.event,
        fraction: moment.place,
        captured,
        original: captured,
    };
    printer.write_all(&encode_record_header(Order::Little, header));
    printer.write_all(&ethertalk_header(receiver(to), sender(bytes), len));
    printer.write_all(part);
}
