//! Where a schedule is read from.
use std::io;

/// Where a schedule is read from.
#[derive(Drop)]
pub enum Source<S, F> {
    /// A stream, from where it is.
    Stream(S),
    /// What was opened: a file, or a pipe.
    Opened(F),
    /// A file that can't be opened, for this reason.
    Unopened(io::Error),
}
