//! The records of a classic capture.
ghost use Rattle.std.specs.Prelude.{◌≡◌, ◌≤◌, ◌<◌, ℕ, List, [], true, false, length, IfOk, IfErr, IfSome, IsErrOf};
ghost use Rattle.std.specs.Prelude.{vec_capacity};
ghost use Rattle.std.specs.Io.KnownBytes.{Consumes, IsAtEnd};
ghost use Rattle.at_pcap.specs.Captures.{IsRecord, IsRecordHeader, record_bytes, record_of, header_bytes};
ghost use Rattle.at_pcap.specs.Faults.{AreAll, FailsRecord, TellsRecord};
ghost use Rattle.at_pcap.specs.declared.fault.CaptureFault.{CaptureFault as Why};

use crate::fault::{CaptureFault, ReadError};
use crate::fill::fill;
use crate::order::Order;
use std::alloc::Allocator;
use std::io::Read;

/// The length of a record's header in bytes.
pub const RECORD_HEADER_LEN: usize = 16;

/// The most captured bytes that a record has.
pub const MAX_CAPTURED: u32 = 262_144;

/// The header of a record, which comes before its captured bytes.
#[derive(Clone, Copy, Debug, PartialEq, Eq)]
pub struct RecordHeader {
    /// Seconds since 1970.
    pub seconds: u32,
    /// The fraction of a second, as the file has it. It may be a second or more.
    pub fraction: u32,
    /// How many bytes were captured.
    pub captured: u32,
    /// How many bytes the frame had on its link.
    pub original: u32,
}

/// Reads the next record, or returns that there is none. Its captured bytes replace what is in the buffer. The error
/// is the first fault, a refused read, or out of memory. After an error the buffer may have some of the bytes.
pub fn read_record<A: Allocator, R: Read>(
    reader: &mut R,
    order: Order,
    buffer: &mut Vec<u8, A>,
) -> Result<Option<RecordHeader>, ReadError>
    ensures found { IfOk result (λ r. IfSome r (λ s. IsRecord (record_of s buffer.new.items)
        × (s.captured ≡ length buffer.new.items)
        × Consumes (R.remaining reader.old) (R.remaining reader.new) (record_bytes order
        (record_of s buffer.new.items)))) }
    ensures end { result ≡ Ok None → IsAtEnd (R.remaining reader.old) }
    ensures fault { IfErr result (TellsRecord order (R.remaining reader.old)) }
    // Out of memory only if the buffer has no room for the longest record.
    ensures memory { IsErrOf result ReadError.NoMemory → vec_capacity buffer.old < 262144 }
{
    let mut front = [0; RECORD_HEADER_LEN];
    let len = fill(reader, &mut front)?;
    let header = match header_of(order, &front[..len]) {
        Ok(Some(header)) => header,
        Ok(None) => return Ok(None),
        Err(fault) => return Err(ReadError::Fault(fault)),
    };
    if read_captured(reader, header.captured, buffer)? {
        Ok(Some(header))
    } else {
        Err(ReadError::Fault(CaptureFault::CutCapture))
    }
}

/// Reads this many bytes into the buffer, in place of what is there. It returns false if there are fewer.
pub(crate) fn read_captured<A: Allocator, R: Read>(
    reader: &mut R,
    count: u32,
    buffer: &mut Vec<u8, A>,
) -> Result<bool, ReadError>
    ensures whole { result ≡ Ok true → (length buffer.new.items ≡ count)
        × Consumes (R.remaining reader.old) (R.remaining reader.new) buffer.new.items }
    ensures cut { result ≡ Ok false → (bytes : List ℕ) × (length bytes < count)
        × AreAll (R.remaining reader.old) bytes }
    ensures fault { IfErr result (λ e. (fault : Why) → ¬ (e ≡ ReadError.Fault fault)) }
    ensures memory { IsErrOf result ReadError.NoMemory → vec_capacity buffer.old < count }
{
    buffer.clear();
    buffer.resize(count as usize, 0)?;
    let len = fill(reader, buffer)?;
    if len < buffer.len() {
        return Ok(false);
    }
    Ok(true)
}

// Reads a record's header. If the bytes are fewer than it has, the file ends with them.
fn header_of(order: Order, bytes: &[u8]) -> Result<Option<RecordHeader>, CaptureFault>
    requires { length bytes.now ≤ 16 }
    ensures found { IfOk result (λ r. IfSome r (λ s. IsRecordHeader s × (bytes.now ≡ header_bytes order s))) }
    ensures end { result ≡ Ok None → bytes.now ≡ [] }
    ensures fault { IfErr result (λ fault. FailsRecord order fault bytes.now) }
    ensures cut { IfErr result (λ fault. fault ≡ CaptureFault.CutCapture → length bytes.now < 16) }
{
    if bytes.is_empty() {
        return Ok(None);
    }
    if bytes.len() >= 12 && order.read_u32(&bytes[8..]) > MAX_CAPTURED {
        return Err(CaptureFault::RecordTooLong);
    }
    if bytes.len() < RECORD_HEADER_LEN {
        return Err(CaptureFault::CutCapture);
    }
    Ok(Some(RecordHeader {
        seconds: order.read_u32(bytes),
        fraction: order.read_u32(&bytes[4..]),
        captured: order.read_u32(&bytes[8..]),
        original: order.read_u32(&bytes[12..]),
    }))
}
