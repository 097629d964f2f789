//! The packets of pcapng, each of which is a captured frame.
ghost use Rattle.std.specs.Prelude.{◌≡◌, ◌⊎◌, ◌+◌, ◌<◌, ◌≤◌, ◌++◌, List, ℕ, drop, length, IfErr, OnOk};
ghost use Rattle.std.specs.Prelude.{slice_get};
ghost use Rattle.std.specs.Io.KnownBytes.{Consumes, IsAtEnd};
ghost use Rattle.at_pcap.specs.Blocks.{four_at, numbered_in, packet_from, simple_count, simple_in};
ghost use Rattle.at_pcap.specs.Orders.{number_in};
ghost use Rattle.at_pcap.specs.Steps.{IsClosing, ReadsBlock, TellsUnclosed, capture_fault, header_at, section_of};

use crate::fault::{CaptureFault, ReadError};
use crate::frame::{FrameHeader, Time};
use crate::front::{FRONT_LEN, HEADER_LEN, SIMPLE_LEN, sized};
use crate::interface::Interface;
use crate::order::Order;
use crate::passing::close;
use crate::records::{MAX_CAPTURED, read_captured};
use crate::section::OpenSection;
use std::alloc::Allocator;
use std::io::Read;

// A time in ticks is in two halves of 32 bits.
const HALF: u64 = 4_294_967_296;

/// Reads a packet that has the number of its interface in so many bytes: 4 if it is enhanced, 2 if it is obsolete.
pub(crate) fn read_numbered<A: Allocator, R: Read>(
    reader: &mut R,
    section: &OpenSection<A>,
    width: usize,
    front: &[u8],
    buffer: &mut Vec<u8, A>,
) -> Result<Option<FrameHeader>, ReadError>
    requires width { (width ≡ 2) ⊎ (width ≡ 4) }
    requires long { 8 ≤ length front.now }
    requires fits { length front.now ≤ 28 }
    requires short { length front.now < 28 → IsAtEnd (R.remaining reader.old) }
    ensures { ReadsBlock (numbered_in width (section_of section.now)) (R.remaining reader.old) (R.remaining reader.new)
        front.now (section_of section.now) buffer.new.items result }
{
    let Some(total) = sized(section.order, front, 32) else {
        return Err(ReadError::Fault(CaptureFault::BadBlock));
    };
    if front.len() < HEADER_LEN + width {
        return Err(ReadError::Fault(CaptureFault::CutCapture));
    }
    let number = interface_number(section.order, width, front);
    read_packet(
        reader,
        section,
        interface_at(section, number),
        front,
        total,
        buffer,
    )
}

// The number of an interface, which is behind the header of its packet.
fn interface_number(order: Order, width: usize, front: &[u8]) -> u32
    requires width { (width ≡ 2) ⊎ (width ≡ 4) }
    requires long { 8 + width ≤ length front.now }
    ensures { result ≡ number_in order width (drop 8 front.now) }
{
    if width == 2 {
        u32::from(order.read_u16(&front[HEADER_LEN..]))
    } else {
        order.read_u32(&front[HEADER_LEN..])
    }
}

// Reads a packet of this interface, in a block of so many bytes.
fn read_packet<A: Allocator, R: Read>(
    reader: &mut R,
    section: &OpenSection<A>,
    interface: Option<Interface>,
    front: &[u8],
    total: u32,
    buffer: &mut Vec<u8, A>,
) -> Result<Option<FrameHeader>, ReadError>
    requires total { total ≡ four_at section.now.order 4 front.now }
    requires least { 32 ≤ total }
    requires long { 8 ≤ length front.now }
    requires fits { length front.now ≤ 28 }
    requires short { length front.now < 28 → IsAtEnd (R.remaining reader.old) }
    ensures { ReadsBlock (packet_from interface (section_of section.now)) (R.remaining reader.old)
        (R.remaining reader.new) front.now (section_of section.now) buffer.new.items result }
{
    let order = section.order;
    let Some(interface) = interface else {
        return Err(ReadError::Fault(CaptureFault::NoInterface));
    };
    if front.len() < 24 {
        return Err(ReadError::Fault(CaptureFault::CutCapture));
    }
    let count = order.read_u32(&front[20..]);
    if let Some(fault) = fault_of(total, FRONT_LEN as u32, count) {
        return Err(ReadError::Fault(fault));
    }
    if front.len() < FRONT_LEN {
        return Err(ReadError::Fault(CaptureFault::CutCapture));
    }
    read_data(
        reader,
        order,
        total,
        total - FRONT_LEN as u32,
        count,
        buffer,
    )?;
    Ok(Some(packet_header(order, interface, front)))
}

// What the front of a packet says of its frame.
fn packet_header(order: Order, interface: Interface, front: &[u8]) -> FrameHeader
    requires { length front.now ≡ 28 }
    ensures { result ≡ header_at order interface front.now }
{
    let high = u64::from(order.read_u32(&front[12..]));
    let low = u64::from(order.read_u32(&front[16..]));
    FrameHeader {
        link_type: interface.link_type,
        time: Some(Time::of_ticks(interface.resolution, high * HALF + low)),
        original: order.read_u32(&front[24..]),
    }
}

/// Reads a simple packet, which is of the first interface of its section.
pub(crate) fn read_simple<A: Allocator, R: Read>(
    reader: &mut R,
    section: &OpenSection<A>,
    front: &[u8],
    buffer: &mut Vec<u8, A>,
) -> Result<Option<FrameHeader>, ReadError>
    requires long { 8 ≤ length front.now }
    requires fits { length front.now ≤ 12 }
    requires short { length front.now < 12 → IsAtEnd (R.remaining reader.old) }
    ensures { ReadsBlock (simple_in (section_of section.now)) (R.remaining reader.old) (R.remaining reader.new)
        front.now (section_of section.now) buffer.new.items result }
{
    let order = section.order;
    let Some(total) = sized(order, front, 16) else {
        return Err(ReadError::Fault(CaptureFault::BadBlock));
    };
    if front.len() < SIMPLE_LEN {
        return Err(ReadError::Fault(CaptureFault::CutCapture));
    }
    let Some(interface) = interface_at(section, 0) else {
        return Err(ReadError::Fault(CaptureFault::NoInterface));
    };
    let original = order.read_u32(&front[8..]);
    let count = simple_count(interface, original);
    if let Some(fault) = fault_of(total, SIMPLE_LEN as u32, count) {
        return Err(ReadError::Fault(fault));
    }
    read_data(
        reader,
        order,
        total,
        total - SIMPLE_LEN as u32,
        count,
        buffer,
    )?;
    Ok(Some(FrameHeader {
        link_type: interface.link_type,
        time: None,
        original,
    }))
}

// How many bytes a simple packet has of a frame with so many on its link.
fn simple_count(interface: Interface, original: u32) -> u32
    ensures { result ≡ simple_count interface original }
{
    if interface.longest == 0 {
        return original;
    }
    original.min(interface.longest)
}

// The interface of this number.
fn interface_at<A: Allocator>(section: &OpenSection<A>, number: u32) -> Option<Interface>
    ensures { result ≡ slice_get section.now.interfaces.items number }
{
    section.interfaces.get(number as usize).copied()
}

// Why so many captured bytes can't be in a block of this length, from this offset on.
fn fault_of(total: u32, offset: u32, count: u32) -> Option<CaptureFault>
    requires { offset ≤ 28 }
    ensures { result ≡ capture_fault total offset count }
{
    if count > MAX_CAPTURED {
        return Some(CaptureFault::RecordTooLong);
    }
    if total < offset + count + 4 {
        return Some(CaptureFault::BadBlock);
    }
    None
}

// Reads the captured bytes, and what is left of the block.
fn read_data<A: Allocator, R: Read>(
    reader: &mut R,
    order: Order,
    total: u32,
    left: u32,
    count: u32,
    buffer: &mut Vec<u8, A>,
) -> Result<(), ReadError>
    requires { count + 4 ≤ left }
    ensures len { OnOk result (length buffer.new.items ≡ count) }
    ensures closed { OnOk result ((rest : List ℕ) × IsClosing order total left (buffer.new.items ++ rest)
        × Consumes (R.remaining reader.old) (R.remaining reader.new) (buffer.new.items ++ rest)) }
    ensures fault { IfErr result (TellsUnclosed order total left (R.remaining reader.old)) }
{
    if !read_captured(reader, count, buffer)? {
        return Err(ReadError::Fault(CaptureFault::CutCapture));
    }
    close(reader, order, total, left - count)
}
