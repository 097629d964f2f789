//! What came of a segment, a tick or a closing at an end, as the layers above report it.

/// What came of a segment, of a tick, or of the closing of an end. Ends are named by their connection identifiers.
#[derive(Clone, Copy, Debug, PartialEq, Eq)]
pub enum EndChange {
    /// The segment had no effect.
    Ignored,
    /// A request for a connection made this end.
    Made(u16),
    /// This end is open.
    Opened(u16),
    /// A request for a connection was denied.
    Turned,
    /// The request of this end was denied, and the end is freed.
    Denied(u16),
    /// Something was sent again, or a probe was sent.
    Again,
    /// There was nothing to send again.
    Idle,
    /// This end heard a segment, and took so many items of it.
    Heard { id: u16, items: u16 },
    /// This end took a forward reset: what it had not read is dropped.
    Dropped(u16),
    /// This end is closed. What it received stays readable.
    Closed(u16),
    /// This end is freed.
    Freed(u16),
}
