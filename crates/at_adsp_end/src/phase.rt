//! How far an end is, from asking for its connection to being closed.

/// How far an end is.
#[derive(Clone, Copy)]
pub enum Phase {
    /// It asked for a connection, and was not answered yet.
    Opening,
    /// It answered a request for a connection, and was not acknowledged yet.
    Half,
    Open,
    /// It is closed on one side or on both. What came before stays readable until the end is freed.
    Closed,
}
