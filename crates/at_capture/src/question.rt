//! What frames ask and answer.

/// A socket of a node of a network, as a part of a key.
#[derive(Clone, Copy, PartialEq, Eq, PartialOrd, Ord)]
pub(crate) struct InternetSocket {
    pub(crate) net: u16,
    pub(crate) node: u8,
    pub(crate) socket: u8,
}

/// What a frame asks, by which its answers are known.
#[derive(Clone, Copy, PartialEq, Eq, PartialOrd, Ord)]
pub(crate) enum Question {
    /// A transaction of ATP: its number, the socket that asks, and the socket that it asks.
    Transaction {
        number: u16,
        from: InternetSocket,
        to: InternetSocket,
    },
    /// A lookup of NBP: its identifier, and the socket that the replies go to.
    Lookup {
        id: u8,
        from: InternetSocket,
    },
}

/// What a frame does beside being sent.
#[derive(Clone, Copy)]
pub(crate) enum Role {
    Asks(Question),
    Answers(Question),
    Neither,
}
