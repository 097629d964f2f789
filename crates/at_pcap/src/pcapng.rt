//! The reader of a pcapng file, block by block.
ghost use Rattle.std.specs.Prelude.{◌≡◌, ◌<◌, ◌≤◌, length, true, IfOk, IfErr, OnOk, OnErr, option_map};
ghost use Rattle.std.specs.Io.KnownBytes.{IsAtEnd, prepend_known};
ghost use Rattle.at_pcap.specs.Blocks.{is_section};
ghost use Rattle.at_pcap.specs.Files.{HoldsFile, TellsFile};
ghost use Rattle.at_pcap.specs.Frames.{frame_with};
ghost use Rattle.at_pcap.specs.Steps.{IsFront, Moves, TakesFound, TellsMove, section_of};

use crate::blocks::read_block;
use crate::frame::FrameHeader;
use crate::front::{FRONT_LEN, read_front};
use crate::reader::{CaptureError, Sink, told_at};
use crate::section::OpenSection;
use std::alloc::{AllocError, Allocator};
use std::io;
use std::io::{ErrorKind, Read};

/// Reads a pcapng file to its end, from the front of its first section header on, which was read before. It gives each
/// frame to the sink.
pub(crate) fn read_blocks<A: Allocator + Copy, R: Read, S: Sink>(
    alloc: A,
    reader: &mut R,
    front: &[u8],
    sink: &mut S,
) -> Result<(), CaptureError>
    requires section { is_section front.now ≡ true }
    requires long { 4 ≤ length front.now }
    requires fits { length front.now ≤ 24 }
    requires short { length front.now < 24 → IsAtEnd (R.remaining reader.old) }
    ensures whole { OnOk result (HoldsFile S.takes (prepend_known front.now (R.remaining reader.old)) sink.old
        sink.new) }
    ensures broken { IfErr result (TellsFile S.takes S.keeps (prepend_known front.now (R.remaining reader.old))
        sink.old sink.new) }
{
    let mut section = OpenSection::new(alloc);
    let mut buffer = Vec::new(alloc);
    let mut at = next_block(reader, &mut section, front, &mut buffer, sink, 0)?;
    for _ in 0..u64::MAX {
        let mut next = [0; FRONT_LEN];
        let len = match read_front(reader, section.order, &mut next) {
            Ok(len) => len,
            Err(error) => return Err(CaptureError::Unreadable(error)),
        };
        if len == 0 {
            return Ok(());
        }
        at = next_block(reader, &mut section, &next[..len], &mut buffer, sink, at)?;
    }
    // No file has so many blocks.
    Err(CaptureError::Unreadable(io::Error::from(ErrorKind::Other)))
}

// Reads the block that begins with this front, at this offset, and gives its frame to the sink, if it has one. It
// returns the offset behind the block.
fn next_block<A: Allocator, R: Read, S: Sink>(
    reader: &mut R,
    section: &mut OpenSection<A>,
    front: &[u8],
    buffer: &mut Vec<u8, A>,
    sink: &mut S,
    at: u64,
) -> Result<u64, CaptureError>
    requires { IsFront section.old.order front.now (R.remaining reader.old) }
    ensures moved { IfOk result (λ after. Moves S.takes (R.remaining reader.old) (R.remaining reader.new) front.now
        (section_of section.old) (section_of section.new) sink.old sink.new at after) }
    ensures broken { IfErr result (TellsMove S.keeps (R.remaining reader.old) front.now (section_of section.old)
        sink.old sink.new at) }
{
    let found = match read_block(reader, section, front, buffer) {
        Ok(found) => found,
        Err(error) => return Err(told_at(error, at)),
    };
    take_found(sink, found, buffer)?;
    Ok(at.saturating_add(u64::from(section.order.read_u32(&front[4..]))))
}

// Gives a frame to the sink, if there is one.
fn take_found<S: Sink>(
    sink: &mut S,
    found: Option<FrameHeader>,
    bytes: &[u8],
) -> Result<(), AllocError>
    ensures ok { OnOk result (TakesFound S.takes sink.old (option_map (λ f. frame_with f bytes.now) found) sink.new) }
    ensures err { OnErr result (S.keeps sink.old sink.new) }
{
    match found {
        Some(header) => sink.take(header, bytes),
        None => Ok(()),
    }
}
