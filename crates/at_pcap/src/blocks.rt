//! The blocks of pcapng, each read from its front on.
ghost use Rattle.std.specs.Prelude.{◌≡◌, ◌<◌, ◌≤◌, List, ℕ, false, length, IsOk};
ghost use Rattle.std.specs.Io.KnownBytes.{IsAtEnd};
ghost use Rattle.at_pcap.specs.Blocks.{block_in, by_kind, interface_in, is_section, other_in, section_in};
ghost use Rattle.at_pcap.specs.Orders.{number_in};
ghost use Rattle.at_pcap.specs.Steps.{IsFront, ReadsBlock, section_of};

use crate::fault::{CaptureFault, ReadError};
use crate::frame::FrameHeader;
use crate::front::{
    ENHANCED, HEADER_LEN, INTERFACE, INTERFACE_LEN, OBSOLETE, SECTION_LEN, SIMPLE, is_section,
    order_of, sized,
};
use crate::interface::Interface;
use crate::options::read_options;
use crate::packets::{read_numbered, read_simple};
use crate::passing::close;
use crate::section::OpenSection;
use std::alloc::Allocator;
use std::io::Read;

/// Reads the block that begins with this front, as a part of the section, which it changes. It returns what the block
/// says of a frame, if it has one, whose captured bytes replace what is in the buffer.
pub(crate) fn read_block<A: Allocator, R: Read>(
    reader: &mut R,
    section: &mut OpenSection<A>,
    front: &[u8],
    buffer: &mut Vec<u8, A>,
) -> Result<Option<FrameHeader>, ReadError>
    requires { IsFront section.old.order front.now (R.remaining reader.old) }
    ensures block { ReadsBlock (block_in (section_of section.old)) (R.remaining reader.old) (R.remaining reader.new)
        front.now (section_of section.new) buffer.new.items result }
    ensures long { IsOk result → 8 ≤ length front.now }
{
    if front.len() < HEADER_LEN {
        return Err(ReadError::Fault(CaptureFault::CutCapture));
    }
    if is_section(front) {
        return read_section(reader, section, front);
    }
    read_by_kind(reader, section, front, buffer)
}

// The same of a block that is no section header.
fn read_by_kind<A: Allocator, R: Read>(
    reader: &mut R,
    section: &mut OpenSection<A>,
    front: &[u8],
    buffer: &mut Vec<u8, A>,
) -> Result<Option<FrameHeader>, ReadError>
    requires long { 8 ≤ length front.now }
    requires other { is_section front.now ≡ false }
    requires front { IsFront section.old.order front.now (R.remaining reader.old) }
    ensures { ReadsBlock (by_kind (number_in section.old.order 4 front.now) (section_of section.old))
        (R.remaining reader.old) (R.remaining reader.new) front.now (section_of section.new) buffer.new.items result }
{
    match section.order.read_u32(front) {
        INTERFACE => read_interface(reader, section, front),
        ENHANCED => read_numbered(reader, section, 4, front, buffer),
        OBSOLETE => read_numbered(reader, section, 2, front, buffer),
        SIMPLE => read_simple(reader, section, front, buffer),
        _ => read_other(reader, section, front),
    }
}

// Reads a section header, which has an order of its own. A new section has no interfaces.
fn read_section<A: Allocator, R: Read>(
    reader: &mut R,
    section: &mut OpenSection<A>,
    front: &[u8],
) -> Result<Option<FrameHeader>, ReadError>
    requires long { 8 ≤ length front.now }
    requires fits { length front.now ≤ 24 }
    requires short { length front.now < 24 → IsAtEnd (R.remaining reader.old) }
    ensures { (captured : List ℕ) → ReadsBlock section_in (R.remaining reader.old) (R.remaining reader.new) front.now
        (section_of section.new) captured result }
{
    if front.len() < 12 {
        return Err(ReadError::Fault(CaptureFault::CutCapture));
    }
    let Some(order) = order_of(front) else {
        return Err(ReadError::Fault(CaptureFault::BadBlock));
    };
    let Some(total) = sized(order, front, 28) else {
        return Err(ReadError::Fault(CaptureFault::BadBlock));
    };
    if front.len() >= 14 && order.read_u16(&front[12..]) != 1 {
        return Err(ReadError::Fault(CaptureFault::BadVersion));
    }
    if front.len() < SECTION_LEN {
        return Err(ReadError::Fault(CaptureFault::CutCapture));
    }
    close(reader, order, total, total - SECTION_LEN as u32)?;
    section.order = order;
    section.interfaces.clear();
    Ok(None)
}

// Reads what a block says of an interface, which is the next of the section.
fn read_interface<A: Allocator, R: Read>(
    reader: &mut R,
    section: &mut OpenSection<A>,
    front: &[u8],
) -> Result<Option<FrameHeader>, ReadError>
    requires long { 8 ≤ length front.now }
    requires fits { length front.now ≤ 16 }
    requires short { length front.now < 16 → IsAtEnd (R.remaining reader.old) }
    ensures { (captured : List ℕ) → ReadsBlock (interface_in (section_of section.old)) (R.remaining reader.old)
        (R.remaining reader.new) front.now (section_of section.new) captured result }
{
    let order = section.order;
    let Some(total) = sized(order, front, 20) else {
        return Err(ReadError::Fault(CaptureFault::BadBlock));
    };
    if front.len() < INTERFACE_LEN {
        return Err(ReadError::Fault(CaptureFault::CutCapture));
    }
    let (resolution, left) = read_options(reader, order, total - 20)?;
    close(reader, order, total, left + 4)?;
    section.add(Interface {
        link_type: order.read_u16(&front[8..]),
        resolution,
        longest: order.read_u32(&front[12..]),
    })?;
    Ok(None)
}

// Passes over a block of any other type.
fn read_other<A: Allocator, R: Read>(
    reader: &mut R,
    section: &OpenSection<A>,
    front: &[u8],
) -> Result<Option<FrameHeader>, ReadError>
    requires { length front.now ≡ 8 }
    ensures { (captured : List ℕ) → ReadsBlock (other_in (section_of section.now)) (R.remaining reader.old)
        (R.remaining reader.new) front.now (section_of section.now) captured result }
{
    let Some(total) = sized(section.order, front, 12) else {
        return Err(ReadError::Fault(CaptureFault::BadBlock));
    };
    close(reader, section.order, total, total - HEADER_LEN as u32)?;
    Ok(None)
}
