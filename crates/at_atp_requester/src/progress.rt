//! What came of a packet, or of a retry, at the side that asks.
use at_atp_frame::Packet;
use at_ddp::Listed;
use std::alloc::{Allocator, Global};

/// What came of a packet at a requester.
#[derive(Drop)]
pub enum RequestProgress<A: Allocator = Global> {
    /// The packet had no effect.
    Ignored,
    /// The packet was kept. Others are still wanted.
    Kept,
    /// The packets still wanted were asked for again.
    AskAgain,
    /// The transaction ended with this answer.
    Finished(Listed<Packet<A>, A>),
}

/// What came of a retry.
#[derive(Clone, Copy, Debug, PartialEq, Eq)]
pub enum Retry {
    /// The packets still wanted were asked for again.
    AskedAgain,
    /// No retry was left, so the transaction ended without an answer.
    Failed,
}
