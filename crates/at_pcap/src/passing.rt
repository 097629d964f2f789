//! The passing over of bytes, and the end of a block.
ghost use Rattle.std.specs.Prelude.{◌≡◌, ◌<◌, ◌≤◌, ℕ, List, length, true, false, Ok, IfErr, OnOk};
ghost use Rattle.std.specs.Io.KnownBytes.{Consumes};
ghost use Rattle.at_pcap.specs.Faults.{AreAll};
ghost use Rattle.at_pcap.specs.Steps.{IsClosing, TellsUnclosed};

use crate::fault::{CaptureFault, ReadError};
use crate::fill::fill;
use crate::order::Order;
use std::io;
use std::io::Read;

// How many bytes are passed over at a time.
const PART_LEN: usize = 4096;

// The length that stands at the end of a block.
const AGAIN_LEN: u32 = 4;

/// Reads and forgets so many bytes. It returns false if there are fewer.
pub(crate) fn pass_over<R: Read>(reader: &mut R, count: u32) -> io::Result<bool>
    ensures whole { result ≡ Ok true → (bytes : List ℕ) × (length bytes ≡ count)
        × Consumes (R.remaining reader.old) (R.remaining reader.new) bytes }
    ensures cut { result ≡ Ok false → (bytes : List ℕ) × (length bytes < count)
        × AreAll (R.remaining reader.old) bytes }
{
    let mut buffer = [0; PART_LEN];
    let mut left = count as usize;
    while left > 0 {
        let part = left.min(PART_LEN);
        let len = fill(reader, &mut buffer[..part])?;
        if len < part {
            return Ok(false);
        }
        left -= part;
    }
    Ok(true)
}

/// Reads what is left of a block: it is passed over, up to the last 4 bytes, which say the total length again.
pub(crate) fn close<R: Read>(
    reader: &mut R,
    order: Order,
    total: u32,
    left: u32,
) -> Result<(), ReadError>
    requires { 4 ≤ left }
    ensures closed { OnOk result ((bytes : List ℕ) × IsClosing order total left bytes
        × Consumes (R.remaining reader.old) (R.remaining reader.new) bytes) }
    ensures fault { IfErr result (TellsUnclosed order total left (R.remaining reader.old)) }
{
    if !pass_over(reader, left - AGAIN_LEN)? {
        return Err(ReadError::Fault(CaptureFault::CutCapture));
    }
    let mut again = [0; AGAIN_LEN as usize];
    let len = fill(reader, &mut again)?;
    if len < again.len() {
        return Err(ReadError::Fault(CaptureFault::CutCapture));
    }
    if order.read_u32(&again) != total {
        return Err(ReadError::Fault(CaptureFault::BadBlock));
    }
    Ok(())
}
