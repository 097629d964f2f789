//! Why a packet, or a call of a table of names or of lookups, is refused, with the number of each refusal.
ghost use Rattle.std.specs.Prelude.{◌≡◌};
ghost use Rattle.at_nbp.specs.declared.fault.NbpFault.TheVariants.{NoMemory};

use std::alloc::AllocError;
use thiserror::Error;

/// Why an NBP packet, or a call of a table of names or of lookups, is refused.
#[derive(Clone, Copy, Debug, PartialEq, Eq, Error)]
pub enum NbpFault {
    /// The header is cut, or a tuple's address and enumerator are.
    #[error("the NBP packet is under 2 bytes, or ends in the address of a tuple")]
    ShortNbp,
    /// The function is none of 1 to 4.
    #[error("the NBP function is not 1, 2, 3 or 4")]
    BadNbpFunction,
    /// A packet other than a reply has not exactly one tuple, or a packet to write has more than 15.
    #[error("a BrRq, LkUp or FwdReq has not exactly one tuple, or a reply has more than 15")]
    BadCount,
    /// A string is cut, or has over 32 bytes.
    #[error("an object, a type or a zone is cut short or over 32 bytes")]
    BadString,
    /// The object and the type are registered here already.
    #[error("the node has a name with this object and type already")]
    NameInUse,
    /// No name with this object and type is registered here.
    #[error("the node has no name with this object and type")]
    NoSuchName,
    /// The object or the type is empty, or just `=`.
    #[error("the object or the type of a name is empty or just `=`")]
    EmptyName,
    /// The node has 64 names.
    #[error("the node has 64 names already")]
    NamesFull,
    /// The node has 8 open lookups.
    #[error("the node has 8 open lookups already")]
    LookupsFull,
    /// No open lookup has this identifier.
    #[error("the node has no open lookup with this identifier")]
    NoSuchLookup,
    /// No rule was broken, but memory ran out.
    #[error("out of memory")]
    NoMemory,
}

impl NbpFault {
    ghost use Rattle.at_nbp.specs.Fault.{number_of};

    /// The number by which this refusal is reported: none for out of memory, which breaks no rule.
    pub fn number(self) -> Option<u8>
        ensures { result ≡ number_of self }
    {
        match self {
            NbpFault::ShortNbp => Some(20),
            NbpFault::BadNbpFunction => Some(21),
            NbpFault::BadCount => Some(22),
            NbpFault::BadString => Some(23),
            NbpFault::NameInUse => Some(24),
            NbpFault::NoSuchName => Some(25),
            NbpFault::EmptyName => Some(26),
            NbpFault::NamesFull => Some(27),
            NbpFault::LookupsFull => Some(28),
            NbpFault::NoSuchLookup => Some(29),
            NbpFault::NoMemory => None,
        }
    }
}

impl From<AllocError> for NbpFault {
    ghost from_gives = { λ _ e. e ≡ NoMemory };

    fn from(_error: AllocError) -> NbpFault {
        NbpFault::NoMemory
    }
}
