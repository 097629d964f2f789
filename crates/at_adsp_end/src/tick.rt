//! The two timers of an end.

/// Which timer of an end fired.
#[derive(Clone, Copy, PartialEq, Eq)]
pub enum Tick {
    /// What was sent last was not answered in time.
    Retransmit,
    /// Nothing was heard for a while.
    Probe,
}
