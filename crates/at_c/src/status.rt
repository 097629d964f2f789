//! The status numbers that a program in C gets of a call.
ghost use Rattle.std.specs.Prelude.{◌≡◌};
ghost use Rattle.at_c.specs.Statuses.{handed_status, open_status, played_status, received_status, told_length};

use at_faults::LineFault;
use at_held::{OpenFault, Withheld};
use std::alloc::AllocError;

pub(crate) const DONE: u32 = 0;

const NO_MEMORY: u32 = 1;

const NO_SETUP: u32 = 2;

const NO_SUCH_NODE: u32 = 3;

const NO_EVENT: u32 = 4;

pub(crate) const NOT_OPEN: u32 = 5;

const MISSING: u32 = 6;

const NO_ROOM: u32 = 7;

pub(crate) fn open_status(fault: OpenFault) -> u32
    ensures { result ≡ open_status fault }
{
    match fault {
        OpenFault::NoSetup => NO_SETUP,
        OpenFault::NoNode => NO_SUCH_NODE,
        OpenFault::NoMemory => NO_MEMORY,
    }
}

pub(crate) fn played_status(played: Result<(), LineFault>) -> u32
    ensures { result ≡ played_status played }
{
    match played {
        Ok(()) => DONE,
        Err(LineFault::NoMemory) => NO_MEMORY,
        Err(LineFault::Unlawful(_)) => NO_EVENT,
    }
}

pub(crate) fn received_status(received: Result<(), AllocError>) -> u32
    ensures { result ≡ received_status received }
{
    match received {
        Ok(()) => DONE,
        Err(_) => NO_MEMORY,
    }
}

/// Writes the length of what was handed out, or of what is too long.
pub(crate) fn handed_status(handed: Result<usize, Withheld>, length: &mut usize) -> u32
    ensures status { result ≡ handed_status handed }
    ensures length { length.new ≡ told_length handed length.old }
{
    match handed {
        Ok(count) => {
            *length = count;
            DONE
        }
        Err(Withheld::TooLong(count)) => {
            *length = count;
            NO_ROOM
        }
        Err(Withheld::Missing) => MISSING,
        Err(Withheld::NoMemory) => NO_MEMORY,
    }
}
