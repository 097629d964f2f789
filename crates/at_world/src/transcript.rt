//! What a play gives: the reports and the datagrams, of all events or up to the one that was refused.
use crate::sent::SentList;
use at_ddp::Listed;
use at_event::Report;
use at_setup::EventFault;
use std::alloc::{Allocator, Global};

/// What the nodes reported, with one report for each event, and all that they sent.
#[derive(Drop)]
pub struct Transcript<A: Allocator = Global> {
    pub reports: Listed<Report<A>, A>,
    pub sent: SentList<A>,
}

/// Why a play stopped, which event was not played, counted from 0, and the transcript up to it.
#[derive(Drop)]
pub struct PlayFault<A: Allocator = Global> {
    pub fault: EventFault,
    pub at: usize,
    pub transcript: Transcript<A>,
}
