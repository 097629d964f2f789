//! The reader of a whole capture, frame by frame.
ghost use Rattle.std.specs.Prelude.{◌≡◌, ◌<◌, ◌≤◌, length, false, IfErr, OnErr, OnOk};
ghost use Rattle.std.specs.Io.KnownBytes.{IsAtEnd, prepend_known};
ghost use Rattle.at_pcap.specs.Blocks.{is_section};
ghost use Rattle.at_pcap.specs.Files.{HoldsFile, TellsFile};
ghost use Rattle.at_pcap.specs.Frames.{Frame, frame_with};
ghost use Rattle.at_pcap.specs.Readings.{broken_at};
ghost use Rattle.at_pcap.specs.declared.reader.CaptureError.TheVariants.{NoMemory};

use crate::fault::{CaptureFault, ReadError};
use crate::file_header::{FILE_HEADER_LEN, file_header_of};
use crate::fill::fill;
use crate::frame::FrameHeader;
use crate::front::is_section;
use crate::pcapng::read_blocks;
use crate::records::{RECORD_HEADER_LEN, read_record};
use std::alloc::{AllocError, Allocator};
use std::io;
use std::io::{ErrorKind, Read};
use thiserror::Error;

/// What takes the frames of a capture, one after the other.
pub trait Sink {
    // What taking a frame does.
    ghost takes: { Self → Frame → Self → Type 0 };

    // What stays if a frame is refused.
    ghost keeps: { Self → Self → Type 0 };

    /// Takes the next frame, with its captured bytes. The error is out of memory.
    fn take(&mut self, header: FrameHeader, bytes: &[u8]) -> Result<(), AllocError>
        ensures ok { OnOk result (takes self.old (frame_with header bytes.now) self.new) }
        ensures err { OnErr result (keeps self.old self.new) };
}

/// Why a capture was not read to its end.
#[derive(Debug, Drop, Error)]
pub enum CaptureError {
    /// The file header, the record or the block that begins at this byte breaks a rule.
    #[error("{fault} (at byte {at})")]
    Fault {
        /// Which rule it breaks.
        fault: CaptureFault,
        /// The offset in bytes of the file header, the record or the block, at most the largest number of 64 bits.
        at: u64,
    },
    /// The system refused a read.
    #[error("{0}")]
    Unreadable(io::Error),
    /// There was no memory for a frame, for an interface, or for what takes the frames.
    #[error("out of memory")]
    NoMemory,
}

impl From<AllocError> for CaptureError {
    ghost from_gives = { λ _ e. e ≡ NoMemory };

    fn from(_error: AllocError) -> CaptureError {
        CaptureError::NoMemory
    }
}

/// Reads a capture to its end, classic pcap or pcapng, and gives each frame to the sink. One buffer holds the captured
/// bytes of one frame, 262,144 at most, however long the file is. The frames before a fault were given to the sink.
pub fn read_capture<A: Allocator + Copy, R: Read, S: Sink>(
    alloc: A,
    reader: &mut R,
    sink: &mut S,
) -> Result<(), CaptureError>
    ensures whole { OnOk result (HoldsFile S.takes (R.remaining reader.old) sink.old sink.new) }
    ensures broken { IfErr result (TellsFile S.takes S.keeps (R.remaining reader.old) sink.old sink.new) }
{
    let mut front = [0; FILE_HEADER_LEN];
    let len = match fill(reader, &mut front) {
        Ok(len) => len,
        Err(error) => return Err(CaptureError::Unreadable(error)),
    };
    if is_section(&front[..len]) {
        return read_blocks(alloc, reader, &front[..len], sink);
    }
    read_records(alloc, reader, &front[..len], sink)
}

// Reads a classic capture to its end, behind its file header, which was read before.
fn read_records<A: Allocator, R: Read, S: Sink>(
    alloc: A,
    reader: &mut R,
    front: &[u8],
    sink: &mut S,
) -> Result<(), CaptureError>
    requires other { is_section front.now ≡ false }
    requires fits { length front.now ≤ 24 }
    requires short { length front.now < 24 → IsAtEnd (R.remaining reader.old) }
    ensures whole { OnOk result (HoldsFile S.takes (prepend_known front.now (R.remaining reader.old)) sink.old
        sink.new) }
    ensures broken { IfErr result (TellsFile S.takes S.keeps (prepend_known front.now (R.remaining reader.old))
        sink.old sink.new) }
{
    let file_header = match file_header_of(front) {
        Ok(file_header) => file_header,
        Err(fault) => return Err(CaptureError::Fault { fault, at: 0 }),
    };
    let mut buffer = Vec::new(alloc);
    let mut at = FILE_HEADER_LEN as u64;
    for _ in 0..u64::MAX {
        match read_record(reader, file_header.order, &mut buffer) {
            Ok(Some(header)) => {
                sink.take(FrameHeader::of_record(file_header, header), &buffer)?;
                at = at.saturating_add(RECORD_HEADER_LEN as u64 + u64::from(header.captured));
            }
            Ok(None) => return Ok(()),
            Err(error) => return Err(told_at(error, at)),
        }
    }
    // No file has so many records.
    Err(CaptureError::Unreadable(io::Error::from(ErrorKind::Other)))
}

/// The same error, with the offset of a fault.
pub(crate) fn told_at(error: ReadError, at: u64) -> CaptureError
    ensures { result ≡ broken_at error at }
{
    match error {
        ReadError::Fault(fault) => CaptureError::Fault { fault, at },
        ReadError::Unreadable(error) => CaptureError::Unreadable(error),
        ReadError::NoMemory => CaptureError::NoMemory,
    }
}
