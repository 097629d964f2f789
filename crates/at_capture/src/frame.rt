//! A captured frame.
ghost use Rattle.std.specs.Prelude.{◌≡◌};
ghost use Rattle.at_capture.specs.Frames.{content, frame_of};
ghost use Rattle.at_pcap.specs.Frames.{frame_with};

use at_pcap::{FrameHeader, Time};

/// A frame as a capture has it, whatever the form of the file.
#[derive(Clone, Copy, Debug, PartialEq, Eq)]
pub struct Frame<'a> {
    /// The type of the link that it was captured from, by the numbers of tcpdump.
    pub link_type: u16,
    /// When it was captured, if the file says so.
    pub time: Option<Time>,
    /// The captured bytes.
    pub bytes: &'a [u8],
}

impl<'a> Frame<'a> {
    /// The frame of which a capture says this.
    pub fn of(header: FrameHeader, bytes: &'a [u8]) -> Frame<'a>
        ensures { content result ≡ frame_of (frame_with header bytes.now) }
    {
        Frame {
            link_type: header.link_type,
            time: header.time,
            bytes,
        }
    }
}
