//! Why a packet is refused, or a call of a requester or a responder. Both sides have these refusals in common.
ghost use Rattle.std.specs.Prelude.{◌≡◌};
ghost use Rattle.at_atp_frame.specs.declared.fault.AtpFault.TheVariants.{NoMemory};

use std::alloc::AllocError;
use thiserror::Error;

/// Why a packet or a call is refused.
#[derive(Clone, Copy, Debug, PartialEq, Eq, Error)]
pub enum AtpFault {
    /// A packet is shorter than its header, which has 8 bytes.
    #[error("the ATP packet is under 8 bytes, so its header is cut short")]
    ShortAtp,
    /// A packet is no request, no response and no release.
    #[error("the function bits are 00, which is no ATP packet")]
    BadFunction,
    /// The place of a response is not 0 to 7.
    #[error("the sequence number of an ATP response is over 7")]
    BadSequence,
    /// A packet has over 578 bytes of data, or an answer over 8 packets.
    #[error("a packet has over 578 bytes of data, or the answer has over 8 packets")]
    AtpTooLong,
    /// A node has at most 32 open transactions, and a socket at most 64 records.
    #[error("the node already has 32 open transactions, or the socket already has 64 records")]
    Full,
    /// No open transaction has this number, or no record has this key.
    #[error("no open transaction has this number, or no record is kept of this request")]
    NoSuch,
    /// An answer has no packets.
    #[error("the answer has no packets")]
    EmptyAnswer,
    /// A request that waits for its answer was to expire.
    #[error("a request that still waits for its answer cannot expire")]
    StillPending,
    /// A request was to be answered a second time.
    #[error("the request has already been answered")]
    Gone,
    /// No rule was broken, but memory ran out.
    #[error("out of memory")]
    NoMemory,
}

impl AtpFault {
    ghost use Rattle.at_atp_frame.specs.Fault.{number_of};

    /// The number by which this refusal is reported: none for out of memory, which breaks no rule.
    pub fn number(self) -> Option<u8>
        ensures { result ≡ number_of self }
    {
        match self {
            AtpFault::ShortAtp => Some(10),
            AtpFault::BadFunction => Some(11),
            AtpFault::BadSequence => Some(12),
            AtpFault::AtpTooLong => Some(13),
            AtpFault::Full => Some(14),
            AtpFault::NoSuch => Some(15),
            AtpFault::EmptyAnswer => Some(16),
            AtpFault::StillPending => Some(17),
            AtpFault::Gone => Some(18),
            AtpFault::NoMemory => None,
        }
    }
}

impl From<AllocError> for AtpFault {
    ghost from_gives = { λ _ e. e ≡ NoMemory };

    fn from(_error: AllocError) -> AtpFault {
        AtpFault::NoMemory
    }
}
