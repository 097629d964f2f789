//! The front of a block: its type, its total length, and the fields that each block of the type has.
ghost use Rattle.std.specs.Prelude.{◌≡◌, ◌≢◌, ◌⊎◌, ◌%◌, ◌<◌, ◌≤◌, length, take, true, IfOk, IfSome, IfNone};
ghost use Rattle.std.specs.Io.KnownBytes.{Consumes};
ghost use Rattle.at_pcap.specs.Blocks.{four_at, is_section, order_of};
ghost use Rattle.at_pcap.specs.Steps.{IsFront, front_len};

use crate::fill::fill;
use crate::order::Order;
use byteorder::{BigEndian, ByteOrder, LittleEndian};
use std::io;
use std::io::Read;

/// The length in bytes of the longest front, which is that of a packet.
pub(crate) const FRONT_LEN: usize = 28;

/// The length in bytes of what each block begins with: its type, and its total length.
pub(crate) const HEADER_LEN: usize = 8;

/// The length in bytes of the front of a section header.
pub(crate) const SECTION_LEN: usize = 24;

/// The length in bytes of the front of an interface.
pub(crate) const INTERFACE_LEN: usize = 16;

/// The length in bytes of the front of a simple packet.
pub(crate) const SIMPLE_LEN: usize = 12;

/// The type of a block that describes an interface.
pub(crate) const INTERFACE: u32 = 1;

/// The type of an obsolete packet.
pub(crate) const OBSOLETE: u32 = 2;

/// The type of a simple packet.
pub(crate) const SIMPLE: u32 = 3;

/// The type of an enhanced packet.
pub(crate) const ENHANCED: u32 = 6;

// The type of a section header, which reads the same in either order.
const SECTION: u32 = 0x0A0D_0D0A;

// It is read in the order of the section.
const BYTE_ORDER_MAGIC: u32 = 0x1A2B_3C4D;

/// Whether these bytes begin with the type of a section header.
pub(crate) fn is_section(bytes: &[u8]) -> bool
    ensures value { result ≡ is_section bytes.now }
    ensures long { result ≡ true → 4 ≤ length bytes.now }
{
    bytes.len() >= 4 && BigEndian::read_u32(bytes) == SECTION
}

/// Reads the front of the next block to the first bytes of the buffer, and returns how many bytes that are. They are
/// fewer only at the end of the file.
pub(crate) fn read_front<R: Read>(
    reader: &mut R,
    order: Order,
    front: &mut [u8],
) -> io::Result<usize>
    requires { length front.old ≡ 28 }
    ensures bound { IfOk result (λ n. n ≤ length front.new) }
    ensures bytes { IfOk result (λ n. Consumes (R.remaining reader.old) (R.remaining reader.new) (take n front.new)) }
    ensures front { IfOk result (λ n. IsFront order (take n front.new) (R.remaining reader.new)) }
{
    let len = fill(reader, &mut front[..HEADER_LEN])?;
    if len < HEADER_LEN {
        return Ok(len);
    }
    let wanted = front_len(order, &front[..HEADER_LEN]);
    let more = fill(reader, &mut front[HEADER_LEN..wanted])?;
    Ok(HEADER_LEN + more)
}

// How many bytes the front has of a block that begins so.
fn front_len(order: Order, header: &[u8]) -> usize
    requires { 4 ≤ length header.now }
    ensures value { result ≡ front_len order header.now }
    ensures least { 8 ≤ result }
    ensures most { result ≤ 28 }
{
    if is_section(header) {
        return SECTION_LEN;
    }
    match order.read_u32(header) {
        INTERFACE => INTERFACE_LEN,
        ENHANCED | OBSOLETE => FRONT_LEN,
        SIMPLE => SIMPLE_LEN,
        _ => HEADER_LEN,
    }
}

/// The total length of a block, if it is a multiple of 4, and at least this.
pub(crate) fn sized(order: Order, front: &[u8], least: u32) -> Option<u32>
    requires { 8 ≤ length front.now }
    ensures some { IfSome result (λ total. (total ≡ four_at order 4 front.now) × (total % 4 ≡ 0) × (least ≤ total)) }
    ensures none { IfNone result ((four_at order 4 front.now % 4 ≢ 0) ⊎ (four_at order 4 front.now < least)) }
{
    let total = order.read_u32(&front[4..]);
    if total % 4 != 0 {
        return None;
    }
    if total < least {
        return None;
    }
    Some(total)
}

/// The order of a section, by its byte-order magic.
pub(crate) fn order_of(front: &[u8]) -> Option<Order>
    requires { 12 ≤ length front.now }
    ensures { result ≡ order_of front.now }
{
    if BigEndian::read_u32(&front[8..]) == BYTE_ORDER_MAGIC {
        return Some(Order::Big);
    }
    if LittleEndian::read_u32(&front[8..]) == BYTE_ORDER_MAGIC {
        return Some(Order::Little);
    }
    None
}
