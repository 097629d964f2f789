//! Why bytes are no datagram with the short header, by number.
ghost use Rattle.std.specs.Prelude.{◌≡◌};

use thiserror::Error;

/// Why a datagram with the short header is refused.
#[derive(Clone, Copy, Debug, PartialEq, Eq, Error)]
pub enum ShortFault {
    /// It is shorter than its header, which has 5 bytes.
    #[error("the datagram is under 5 bytes, so its short header is cut short")]
    Short,
    /// The length in the header is not 5 to 591.
    #[error("the length in the short header is under 5 or over 591")]
    BadLength,
    /// Bytes are missing at the end.
    #[error("the datagram is shorter than the length in its short header")]
    Truncated,
}

impl ShortFault {
    ghost use Rattle.at_frames.specs.ShortFaults.{number_of};

    /// The number by which this refusal is reported.
    pub fn number(self) -> u8
        ensures { result ≡ number_of self }
    {
        match self {
            ShortFault::Short => 1,
            ShortFault::BadLength => 2,
            ShortFault::Truncated => 3,
        }
    }
}
