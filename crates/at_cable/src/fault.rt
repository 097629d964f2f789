//! The fault of a cable, with its number.
ghost use Rattle.std.specs.Prelude.{◌≡◌};

use thiserror::Error;

/// A call of a cable failed. No reason is known.
#[derive(Clone, Copy, Debug, PartialEq, Eq, Error)]
#[error("a call of the cable failed")]
pub struct CableFault;

impl CableFault {
    /// The number of the fault.
    pub fn number(self) -> u8
        ensures { result ≡ 74 }
    {
        match self {
            CableFault => 74,
        }
    }
}
