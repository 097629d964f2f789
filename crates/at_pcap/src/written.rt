//! Classic captures, written to arrays.
ghost use Rattle.std.specs.Prelude.{◌≡◌};
ghost use Rattle.at_pcap.specs.Captures.{magic_of, header_bytes, written_file_header};

use crate::file_header::{FILE_HEADER_LEN, FileHeader, Precision};
use crate::order::Order;
use crate::records::{RECORD_HEADER_LEN, RecordHeader};

/// The bytes of a file header of version 2.4. `longest` says how many bytes of a frame are captured at most.
pub fn encode_file_header(file_header: FileHeader, longest: u32) -> [u8; FILE_HEADER_LEN]
    ensures { result ≡ written_file_header file_header longest }
{
    let order = file_header.order;
    let mut bytes = [0; FILE_HEADER_LEN];
    order.write_u32(&mut bytes, magic_number(file_header.precision));
    order.write_u16(&mut bytes[4..], 2);
    order.write_u16(&mut bytes[6..], 4);
    order.write_u32(&mut bytes[16..], longest);
    order.write_u32(&mut bytes[20..], u32::from(file_header.link_type));
    bytes
}

/// The bytes that stand before the captured bytes of a record.
pub fn encode_record_header(order: Order, header: RecordHeader) -> [u8; RECORD_HEADER_LEN]
    ensures { result ≡ header_bytes order header }
{
    let mut bytes = [0; RECORD_HEADER_LEN];
    order.write_u32(&mut bytes, header.seconds);
    order.write_u32(&mut bytes[4..], header.fraction);
    order.write_u32(&mut bytes[8..], header.captured);
    order.write_u32(&mut bytes[12..], header.original);
    bytes
}

fn magic_number(precision: Precision) -> u32
    ensures { result ≡ magic_of precision }
{
    match precision {
        Precision::Microseconds => 0xA1B2_C3D4,
        Precision::Nanoseconds => 0xA1B2_3C4D,
    }
}
