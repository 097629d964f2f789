//! The protocols of datagrams, by the number that a datagram's header has of each.

/// Name lookups (NBP). Its datagrams alone may go to every node.
pub const NBP: u8 = 2;

/// Transactions (ATP), zone lists among them.
pub const ATP: u8 = 3;

/// Streams (ADSP).
pub const ADSP: u8 = 7;
