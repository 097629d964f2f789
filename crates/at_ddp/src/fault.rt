//! Why bytes are no datagram, by number.
ghost use Rattle.std.specs.Prelude.{◌≡◌};
ghost use Rattle.at_ddp.specs.declared.fault.DdpFault.TheVariants.{NoMemory};

use std::alloc::AllocError;
use thiserror::Error;

/// Why a datagram is refused.
#[derive(Clone, Copy, Debug, PartialEq, Eq, Error)]
pub enum DdpFault {
    /// A datagram is shorter than its header, which has 13 bytes.
    #[error("the datagram is under 13 bytes, so its header is cut short")]
    Short,
    /// The length in the header is not 13 to 599.
    #[error("the length in the header is under 13 or over 599")]
    BadLength,
    /// Bytes are missing at the end.
    #[error("the datagram is shorter than the length in its header")]
    Truncated,
    /// The checksum field is not 0, and is not the checksum.
    #[error("the checksum does not match the datagram")]
    BadSum,
    /// The data to send is over 586 bytes.
    #[error("the data is over 586 bytes, more than a datagram carries")]
    TooLong,
    /// No rule was broken, but memory ran out.
    #[error("out of memory")]
    NoMemory,
}

impl DdpFault {
    ghost use Rattle.at_ddp.specs.Fault.{number_of};

    /// The number by which this refusal is reported: none for out of memory, which breaks no rule.
    pub fn number(self) -> Option<u8>
        ensures { result ≡ number_of self }
    {
        match self {
            DdpFault::Short => Some(1),
            DdpFault::BadLength => Some(2),
            DdpFault::Truncated => Some(3),
            DdpFault::BadSum => Some(4),
            DdpFault::TooLong => Some(5),
            DdpFault::NoMemory => None,
        }
    }
}

impl From<AllocError> for DdpFault {
    ghost from_gives = { λ _ e. e ≡ NoMemory };

    fn from(_error: AllocError) -> DdpFault {
        DdpFault::NoMemory
    }
}
