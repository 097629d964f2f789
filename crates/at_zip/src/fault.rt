//! Why a request, a page or a table is refused, with the number and the sentence of each refusal.
ghost use Rattle.std.specs.Prelude.{◌≡◌};
ghost use Rattle.at_zip.specs.declared.fault.ZipFault.TheVariants.{NoMemory};

use std::alloc::AllocError;
use thiserror::Error;

/// Why a request, a page or a table is refused.
#[derive(Clone, Copy, Debug, PartialEq, Eq, Error)]
pub enum ZipFault {
    /// A request has a code other than 8 and 9, or asks from place 0.
    #[error("the ZIP request has a code other than 8 and 9, or starts at name 0")]
    NotZip,
    /// A page has fewer names than it counts.
    #[error("the page has fewer names than it counts")]
    CountMismatch,
    /// A zone name has no bytes, or over 32.
    #[error("a zone name is empty or over 32 bytes")]
    BadZone,
    /// A page without names is not the last.
    #[error("a page that is not the last has no names")]
    EmptyPage,
    /// A table has over 1,024 names.
    #[error("the table has more than 1,024 names")]
    TooManyZones,
    /// No rule was broken, but memory ran out.
    #[error("out of memory")]
    NoMemory,
}

impl ZipFault {
    ghost use Rattle.at_zip.specs.Fault.{number_of};

    /// The number by which this refusal is reported: none for out of memory, which breaks no rule.
    pub fn number(self) -> Option<u8>
        ensures { result ≡ number_of self }
    {
        match self {
            ZipFault::NotZip => Some(30),
            ZipFault::CountMismatch => Some(31),
            ZipFault::BadZone => Some(32),
            ZipFault::EmptyPage => Some(33),
            ZipFault::TooManyZones => Some(34),
            ZipFault::NoMemory => None,
        }
    }
}

impl From<AllocError> for ZipFault {
    ghost from_gives = { λ _ e. e ≡ NoMemory };

    fn from(_error: AllocError) -> ZipFault {
        ZipFault::NoMemory
    }
}
