//! Frames that are kept in memory.
ghost use Rattle.std.specs.Prelude.{◌≡◌, ◌++◌, ◌∷◌, []};

use crate::frame::FrameHeader;
use crate::reader::Sink;
use std::alloc::{AllocError, Allocator};

/// A frame of a capture, in memory.
#[derive(Drop)]
pub struct KeptFrame<A: Allocator> {
    /// What the capture says of it.
    pub header: FrameHeader,
    /// The captured bytes.
    pub captured: Vec<u8, A>,
}

/// The frames of a capture, in memory.
#[derive(Drop)]
pub struct KeptFrames<A: Allocator> {
    alloc: A,
    /// The frames so far, in the order of the file.
    pub frames: Vec<KeptFrame<A>, A>,
}

impl<A: Allocator + Copy> KeptFrames<A> {
    ghost use Rattle.at_pcap.specs.Kept.{kept_frames};

    /// No frames yet.
    pub fn new(alloc: A) -> KeptFrames<A>
        ensures { kept_frames result ≡ [] }
    {
        KeptFrames {
            alloc,
            frames: Vec::new(alloc),
        }
    }
}

impl<A: Allocator + Copy> Sink for KeptFrames<A> {
    ghost use Rattle.at_pcap.specs.Kept.{kept_frames};

    ghost takes = { λ s f t. kept_frames t ≡ kept_frames s ++ f ∷ [] };

    ghost keeps = { λ s t. kept_frames t ≡ kept_frames s };

    fn take(&mut self, header: FrameHeader, bytes: &[u8]) -> Result<(), AllocError> {
        let captured = Vec::from_slice(self.alloc, bytes)?;
        self.frames.push(KeptFrame { header, captured })?;
        Ok(())
    }
}
