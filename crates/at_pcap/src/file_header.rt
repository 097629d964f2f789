//! The file header of a classic capture.
ghost use Rattle.std.specs.Prelude.{◌≤◌, List, ℕ, length, IfOk, IfErr, IfSome, IfNone};
ghost use Rattle.std.specs.Io.KnownBytes.{Consumes};
ghost use Rattle.at_pcap.specs.Captures.{IsFileHeader, HasMagic};
ghost use Rattle.at_pcap.specs.Faults.{FailsFileHeader, HasAnyMagic, TellsFileHeader};

use crate::fault::{CaptureFault, ReadError};
use crate::fill::fill;
use crate::order::Order;
use byteorder::{BigEndian, ByteOrder};
use std::io::Read;

/// The length of a file header in bytes.
pub const FILE_HEADER_LEN: usize = 24;

/// What the fractions of seconds count.
#[derive(Clone, Copy, Debug, PartialEq, Eq)]
pub enum Precision {
    /// A fraction counts microseconds.
    Microseconds,
    /// A fraction counts nanoseconds.
    Nanoseconds,
}

/// What the header of a file says of its records.
#[derive(Clone, Copy, Debug, PartialEq, Eq)]
pub struct FileHeader {
    /// The order of the file's numbers.
    pub order: Order,
    /// What the fractions of seconds count.
    pub precision: Precision,
    /// The type of the link that the frames were captured from: 1 for Ethernet, 114 for LocalTalk.
    pub link_type: u16,
}

/// Reads the header that a file begins with. The error is the first fault, or that the system refused a read.
pub fn read_file_header<R: Read>(reader: &mut R) -> Result<FileHeader, ReadError>
    ensures found { IfOk result (λ h. (bytes : List ℕ) × IsFileHeader bytes h
        × Consumes (R.remaining reader.old) (R.remaining reader.new) bytes) }
    ensures fault { IfErr result (TellsFileHeader (R.remaining reader.old)) }
{
    let mut buffer = [0; FILE_HEADER_LEN];
    let len = fill(reader, &mut buffer)?;
    match file_header_of(&buffer[..len]) {
        Ok(file_header) => Ok(file_header),
        Err(fault) => Err(ReadError::Fault(fault)),
    }
}

/// Reads a file header. If the bytes are fewer than it has, the file ends with them.
pub(crate) fn file_header_of(bytes: &[u8]) -> Result<FileHeader, CaptureFault>
    requires { length bytes.now ≤ 24 }
    ensures found { IfOk result (IsFileHeader bytes.now) }
    ensures fault { IfErr result (λ fault. FailsFileHeader fault bytes.now) }
{
    let Some((order, precision)) = magic_of(bytes) else {
        return Err(CaptureFault::NoCapture);
    };
    if bytes.len() >= 6 && order.read_u16(&bytes[4..]) != 2 {
        return Err(CaptureFault::BadVersion);
    }
    if bytes.len() < FILE_HEADER_LEN {
        return Err(CaptureFault::CutCapture);
    }
    let word = order.read_u32(&bytes[20..]);
    Ok(FileHeader {
        order,
        precision,
        link_type: (word % 65536) as u16,
    })
}

// The order and the precision whose magic number these bytes begin with.
fn magic_of(bytes: &[u8]) -> Option<(Order, Precision)>
    ensures some { IfSome result (λ m. HasMagic m.0 m.1 bytes.now) }
    ensures none { IfNone result (¬ HasAnyMagic bytes.now) }
{
    if bytes.len() < 4 {
        return None;
    }
    match BigEndian::read_u32(bytes) {
        0xA1B2_C3D4 => Some((Order::Big, Precision::Microseconds)),
        0xA1B2_3C4D => Some((Order::Big, Precision::Nanoseconds)),
        0xD4C3_B2A1 => Some((Order::Little, Precision::Microseconds)),
        0x4D3C_B2A1 => Some((Order::Little, Precision::Nanoseconds)),
        _ => None,
    }
}
