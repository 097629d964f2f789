//! Why a drive ends before its last step.
use at_faults::Fault;

/// Why a drive ends before its last step.
#[derive(Clone, Copy, Debug, PartialEq, Eq)]
pub(crate) enum Ending {
    /// There is no memory for the step at this place.
    NoMemory(usize),
    /// A write failed at the step of this place, so nothing more can be printed.
    Unwritten(usize),
    /// A line could not be read, or says no step any more.
    Unread(Fault),
}
