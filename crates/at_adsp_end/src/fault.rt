//! Why a call of an end is refused, with the number and the sentence of each refusal.
ghost use Rattle.std.specs.Prelude.{◌≡◌};
ghost use Rattle.at_adsp_end.specs.declared.fault.StreamFault.TheVariants.{NoMemory};

use std::alloc::AllocError;
use thiserror::Error;

/// Why a call of an end of a stream is refused.
#[derive(Clone, Copy, Debug, PartialEq, Eq, Error)]
pub enum StreamFault {
    /// The node has 16 ends.
    #[error("the node already has 16 stream ends")]
    EndsFull,
    /// The end is not open: it may not write or reset its stream, nor read if it never opened. A closed end has no
    /// timers.
    #[error("this end of the stream is not open")]
    NotOpen,
    /// No end has this connection identifier.
    #[error("the node has no stream end with this identifier")]
    NoSuchEnd,
    /// Something is to be written, and the send room is full.
    #[error("the stream's send queue is full")]
    NoRoom,
    /// The connection was denied.
    #[error("the connection was denied")]
    Denied,
    /// No rule was broken, but memory ran out.
    #[error("out of memory")]
    NoMemory,
}

impl StreamFault {
    ghost use Rattle.at_adsp_end.specs.Fault.{number_of};

    /// The number by which this refusal is reported: none for out of memory, which breaks no rule.
    pub fn number(self) -> Option<u8>
        ensures { result ≡ number_of self }
    {
        match self {
            StreamFault::EndsFull => Some(50),
            StreamFault::NotOpen => Some(51),
            StreamFault::NoSuchEnd => Some(52),
            StreamFault::NoRoom => Some(53),
            StreamFault::Denied => Some(54),
            StreamFault::NoMemory => None,
        }
    }
}

impl From<AllocError> for StreamFault {
    ghost from_gives = { λ _ e. e ≡ NoMemory };

    fn from(_error: AllocError) -> StreamFault {
        StreamFault::NoMemory
    }
}
