//! Why the bytes of a file are no capture, by number.
ghost use Rattle.std.specs.Prelude.{◌≡◌};
ghost use Rattle.at_pcap.specs.declared.fault.ReadError.TheVariants.{NoMemory, Unreadable};

use std::alloc::AllocError;
use std::io;
use thiserror::Error;

/// Which rule the bytes of a capture break.
#[derive(Clone, Copy, Debug, PartialEq, Eq, Error)]
pub enum CaptureFault {
    /// The first four bytes are no magic number, or there are fewer.
    #[error("the file does not begin with the magic number of a capture")]
    NoCapture,
    /// The file ends within its header, or within a record or a block.
    #[error("the file ends within its header, or within a record or a block")]
    CutCapture,
    /// The major version is not 2, or not 1 in pcapng.
    #[error("the major version of the file is not 2, or not 1 in pcapng")]
    BadVersion,
    /// A record says that it has over 262,144 captured bytes.
    #[error("a record says that it has over 262,144 captured bytes")]
    RecordTooLong,
    /// A block has a length that no block has, too short a body, another length at its end, or no byte-order magic.
    #[error("a block of the file has a wrong length or a wrong byte-order magic")]
    BadBlock,
    /// A packet names an interface that its section does not have.
    #[error("a packet of the file names an interface that its section does not have")]
    NoInterface,
    /// The resolution of an interface is out of range, or an option of it is cut.
    #[error("an interface of the file has a resolution out of range, or an option that is cut")]
    BadResolution,
}

impl CaptureFault {
    ghost use Rattle.at_pcap.specs.Faults.{number_of};

    /// The number by which this fault is reported.
    pub fn number(self) -> u8
        ensures { result ≡ number_of self }
    {
        match self {
            CaptureFault::NoCapture => 80,
            CaptureFault::CutCapture => 81,
            CaptureFault::BadVersion => 82,
            CaptureFault::RecordTooLong => 83,
            CaptureFault::BadBlock => 84,
            CaptureFault::NoInterface => 85,
            CaptureFault::BadResolution => 86,
        }
    }
}

/// Why a file header or a record was not read.
#[derive(Debug, Drop, Error)]
pub enum ReadError {
    /// The bytes break this rule.
    #[error("{0}")]
    Fault(CaptureFault),
    /// The system refused a read.
    #[error("{0}")]
    Unreadable(io::Error),
    /// There was no memory for a record's captured bytes.
    #[error("out of memory")]
    NoMemory,
}

impl From<AllocError> for ReadError {
    ghost from_gives = { λ _ e. e ≡ NoMemory };

    fn from(_error: AllocError) -> ReadError {
        ReadError::NoMemory
    }
}

impl From<io::Error> for ReadError {
    ghost from_gives = { λ error e. e ≡ Unreadable error };

    fn from(error: io::Error) -> ReadError {
        ReadError::Unreadable(error)
    }
}
