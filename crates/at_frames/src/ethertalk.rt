//! Frames of EtherTalk, as they are written.
ghost use Rattle.std.specs.Prelude.{◌≡◌, ◌≤◌};
ghost use Rattle.at_frames.specs.EtherTalk.{ethertalk_header};

use crate::llc::{DATAGRAM, SNAP_LEN};

/// The length of what comes before a datagram in a frame of EtherTalk, in bytes.
pub const ETHERTALK_HEADER_LEN: usize = 22;

/// The most bytes that a frame of EtherTalk carries behind its headers.
pub const MAX_ETHERTALK: u16 = 1492;

/// What comes before a datagram of this many bytes, at most 1492, in a frame of EtherTalk.
pub fn ethertalk_header(to: [u8; 6], from: [u8; 6], len: u16) -> [u8; ETHERTALK_HEADER_LEN]
    requires { len ≤ 1492 }
    ensures { result ≡ ethertalk_header to from len }
{
    let [to_0, to_1, to_2, to_3, to_4, to_5] = to;
    let [from_0, from_1, from_2, from_3, from_4, from_5] = from;
    let [high, low] = (SNAP_LEN as u16 + len).to_be_bytes();
    let [a, b, c, d, e, f, g, h] = DATAGRAM;
    [
        to_0, to_1, to_2, to_3, to_4, to_5, from_0, from_1, from_2, from_3, from_4, from_5, high,
        low, a, b, c, d, e, f, g, h,
    ]
}
