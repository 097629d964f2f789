//! Why there is no schedule, or why a line of one is not taken.
ghost use Rattle.std.specs.Prelude.{◌≡◌};
ghost use Rattle.at_faults.specs.Reads.{IsOfRead, IsOfSystem};
ghost use Rattle.at_faults.specs.declared.fault.Fault.TheVariants as of_text;
ghost use Rattle.at_faults.specs.declared.fault.LineFault.TheVariants as of_line;

use crate::rule::Rule;
use std::alloc::{AllocError, AllocFailed};
use std::io;
use std::io::ErrorKind;
use thiserror::Error;

/// Why a line is not taken.
#[derive(Clone, Copy, Debug, PartialEq, Eq, Error)]
pub enum LineFault {
    /// No schedule begins with the lines up to this one, since this one breaks the rule.
    #[error("{0}")]
    Unlawful(Rule),
    /// No rule was broken, but a growth was refused.
    #[error("out of memory")]
    NoMemory,
}

impl<T: Drop> From<AllocFailed<T>> for LineFault {
    ghost from_gives = { λ _ e. e ≡ of_line.NoMemory };

    fn from(_error: AllocFailed<T>) -> LineFault {
        LineFault::NoMemory
    }
}

impl From<AllocError> for LineFault {
    ghost from_gives = { λ _ e. e ≡ of_line.NoMemory };

    fn from(_error: AllocError) -> LineFault {
        LineFault::NoMemory
    }
}

/// Why a schedule can't be read.
#[derive(Clone, Copy, Debug, PartialEq, Eq, Error)]
pub enum Unreadable {
    /// A schedule has at most 67,108,864 bytes.
    #[error("has more than 67,108,864 bytes")]
    TooLong,
    /// Its lines are read twice, and were others the second time.
    #[error("changed while it was read")]
    Changed,
    /// The system's error of this number.
    #[error("can't be read to its end: {}", io::Error::from_raw_os_error(*.0))]
    System(i32),
    /// A read failed, and no more is known.
    #[error("can't be read to its end")]
    Failed,
}

impl From<io::Error> for Unreadable {
    ghost from_gives = { λ _ e. IsOfSystem e };

    fn from(error: io::Error) -> Unreadable {
        match error.raw_os_error() {
            Some(code) => Unreadable::System(code),
            None => Unreadable::Failed,
        }
    }
}

/// Why there is no schedule.
#[derive(Clone, Copy, Debug, PartialEq, Eq, Error)]
pub enum Fault {
    /// It could not be read to its end, is too long, or changed while it was read.
    #[error("{0}")]
    Unreadable(Unreadable),
    /// The lines before this one begin a schedule. With it they do not, since it breaks the rule. Lines are counted
    /// from 1. The line after the last is at fault if the schedule only lacks something.
    #[error("{rule}")]
    Line { number: usize, rule: Rule },
    /// No rule was broken, but a growth was refused.
    #[error("out of memory")]
    NoMemory,
}

impl From<AllocError> for Fault {
    ghost from_gives = { λ _ e. e ≡ of_text.NoMemory };

    fn from(_error: AllocError) -> Fault {
        Fault::NoMemory
    }
}

impl From<io::Error> for Fault {
    ghost from_gives = { λ _ e. IsOfRead e };

    fn from(error: io::Error) -> Fault {
        match error.kind() {
            ErrorKind::OutOfMemory => Fault::NoMemory,
            _ => Fault::Unreadable(Unreadable::from(error)),
        }
    }
}
