//! Why a segment is refused, with the number and the sentence of each refusal.
ghost use Rattle.std.specs.Prelude.{◌≡◌};
ghost use Rattle.at_adsp_frame.specs.declared.fault.AdspFault.TheVariants.{NoMemory};

use std::alloc::AllocError;
use thiserror::Error;

/// Why a segment is refused.
#[derive(Clone, Copy, Debug, PartialEq, Eq, Error)]
pub enum AdspFault {
    /// A segment is shorter than its header, which has 13 bytes, or ends in the 8 bytes of an opening.
    #[error("the ADSP packet is under 13 bytes, or opens a connection in under 21 bytes")]
    ShortAdsp,
    /// The control code is 9 to 15.
    #[error("the control code of an ADSP packet is over 8")]
    BadControl,
    /// An opening is of a version other than `0x0100`.
    #[error("the version of the ADSP connection to open is not 0100")]
    BadVersion,
    /// The attention bit is set: attention messages are not read.
    #[error("the ADSP packet is an attention message, which is not supported")]
    Attention,
    /// A segment has over 572 bytes of data.
    #[error("the ADSP packet has over 572 bytes of data")]
    AdspTooLong,
    /// No rule was broken, but memory ran out.
    #[error("out of memory")]
    NoMemory,
}

impl AdspFault {
    ghost use Rattle.at_adsp_frame.specs.Fault.{number_of};

    /// The number by which this refusal is reported: none for out of memory, which breaks no rule.
    pub fn number(self) -> Option<u8>
        ensures { result ≡ number_of self }
    {
        match self {
            AdspFault::ShortAdsp => Some(40),
            AdspFault::BadControl => Some(41),
            AdspFault::BadVersion => Some(42),
            AdspFault::Attention => Some(43),
            AdspFault::AdspTooLong => Some(44),
            AdspFault::NoMemory => None,
        }
    }
}

impl From<AllocError> for AdspFault {
    ghost from_gives = { λ _ e. e ≡ NoMemory };

    fn from(_error: AllocError) -> AdspFault {
        AdspFault::NoMemory
    }
}
