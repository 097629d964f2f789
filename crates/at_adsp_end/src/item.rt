//! What a stream carries: bytes, and the ends of messages between them.

/// What a stream carries. Each item takes one sequence number, and one place of a room.
#[derive(Clone, Copy, Debug, PartialEq, Eq)]
pub enum Item {
    Byte(u8),
    /// The end of a message.
    End,
}
