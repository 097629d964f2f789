//! Captured frames, whatever the form of the file.
ghost use Rattle.std.specs.Prelude.{◌≡◌, ◌<◌, ◌≤◌, ◌^◌, min, List, ℕ};
ghost use Rattle.at_pcap.specs.Captures.{record_of};
ghost use Rattle.at_pcap.specs.Frames.{digits_of, frame_of, frame_with, time_of};

use crate::file_header::{FileHeader, Precision};
use crate::interface::Resolution;
use crate::records::RecordHeader;

// How many nanoseconds a second has.
const NANOSECONDS: u64 = 1_000_000_000;

/// When a frame was captured.
#[derive(Clone, Copy, Debug, PartialEq, Eq)]
pub struct Time {
    /// Seconds since 1970.
    pub seconds: u64,
    /// The fraction of a second, in units of its last digit. It may be a second or more.
    pub fraction: u64,
    /// How many digits the fraction has.
    pub digits: u8,
}

/// What a capture says of a frame, before its captured bytes.
#[derive(Clone, Copy, Debug, PartialEq, Eq)]
pub struct FrameHeader {
    /// The type of the link that the frame was captured from: 1 for Ethernet, 114 for LocalTalk.
    pub link_type: u16,
    /// When it was captured, if the file says so.
    pub time: Option<Time>,
    /// How many bytes the frame had on its link.
    pub original: u32,
}

impl FrameHeader {
    /// What a record of a classic capture says of its frame.
    pub fn of_record(file_header: FileHeader, header: RecordHeader) -> FrameHeader
        ensures { (bytes : List ℕ) → frame_with result bytes ≡ frame_of file_header (record_of header bytes) }
    {
        FrameHeader {
            link_type: file_header.link_type,
            time: Some(Time {
                seconds: u64::from(header.seconds),
                fraction: u64::from(header.fraction),
                digits: digits_of(file_header.precision),
            }),
            original: header.original,
        }
    }
}

fn digits_of(precision: Precision) -> u8
    ensures { result ≡ digits_of precision }
{
    match precision {
        Precision::Microseconds => 6,
        Precision::Nanoseconds => 9,
    }
}

impl Time {
    /// The time after so many ticks.
    pub(crate) fn of_ticks(resolution: Resolution, ticks: u64) -> Time
        ensures { result ≡ time_of resolution ticks }
    {
        match resolution {
            Resolution::Decimal(digits) => Time::of_decimal(digits, ticks),
            Resolution::Binary(bits) => Time::of_binary(bits, ticks),
        }
    }

    fn of_decimal(digits: u8, ticks: u64) -> Time
        ensures { result ≡ time_of (Resolution.Decimal digits) ticks }
    {
        let second = power_of_ten(digits);
        Time {
            seconds: ticks / second,
            fraction: ticks % second,
            digits,
        }
    }

    // A fraction is told in nanoseconds, rounded down.
    fn of_binary(bits: u8, ticks: u64) -> Time
        ensures { result ≡ time_of (Resolution.Binary bits) ticks }
    {
        let second = power_of_two(bits);
        Time {
            seconds: ticks / second,
            fraction: ticks % second * NANOSECONDS / second,
            digits: 9,
        }
    }
}

fn power_of_ten(digits: u8) -> u64
    ensures value { result ≡ 10 ^ min digits 9 }
    ensures above { 0 < result }
{
    10u64.pow(u32::from(digits.min(9)))
}

fn power_of_two(bits: u8) -> u64
    ensures value { result ≡ 2 ^ min bits 30 }
    ensures above { 0 < result }
    ensures below { result ≤ 2 ^ 30 }
{
    2u64.pow(u32::from(bits.min(30)))
}
