//! What comes of a drive.
ghost use Rattle.std.specs.Prelude.{◌≡◌, ◌<◌, [], IfOk, OnOk};
ghost use Rattle.at_drive.specs.Drives.{logged, no_log};
ghost use Rattle.at_drive.specs.Logs.{HasRoom, news_of, with_report};

use crate::arrival::Arrival;
use at_ddp::Outbox;
use at_event::Report;
use std::alloc::{AllocError, Allocator, Global};
use std::mem;

/// What came of some steps of a drive.
#[derive(Drop)]
pub struct Log<A: Allocator = Global> {
    /// The report of each call, of each timer, and of each poll at which a datagram came.
    pub reports: Vec<Report<A>, A>,
    /// What was sent with each of these reports. A datagram is listed whether or not its send failed.
    pub sent: Vec<Outbox<A>, A>,
    /// What came at each poll at which a datagram came.
    pub arrived: Vec<Arrival<A>, A>,
    /// For each failed call of the cable, the place of its step.
    pub faults: Vec<usize, A>,
    // What was cleared. The next steps use its room.
    past_sent: Vec<Outbox<A>, A>,
    past_arrived: Vec<Arrival<A>, A>,
}

/// The drive ran out of memory. This is the place of the step that was not driven, and the log of those before it.
#[derive(Drop)]
pub struct DriveFault<A: Allocator = Global> {
    pub at: usize,
    pub log: Log<A>,
}

impl<A: Allocator + Copy> Log<A> {
    /// The log before the first step.
    pub fn new(alloc: A) -> Log<A>
        ensures { logged result ≡ no_log }
    {
        Log {
            reports: Vec::new(alloc),
            sent: Vec::new(alloc),
            arrived: Vec::new(alloc),
            faults: Vec::new(alloc),
            past_sent: Vec::new(alloc),
            past_arrived: Vec::new(alloc),
        }
    }

    // An empty outbox for what a step sends, in the room of one that was cleared, if there is one.
    pub(crate) fn empty_outbox(&mut self, alloc: A) -> Outbox<A>
        ensures list { result.items ≡ [] }
        ensures log { logged self.new ≡ logged self.old }
    {
        match self.past_sent.pop() {
            None => Outbox::new(alloc),
            Some(mut out) => {
                out.clear();
                out
            }
        }
    }

    // What came at a poll, in the room of what was cleared, if there is some.
    pub(crate) fn arrival(
        &mut self,
        alloc: A,
        at: usize,
        bytes: &[u8],
    ) -> Result<Arrival<A>, AllocError>
        ensures arrival { IfOk result (λ a. a ≡ record { at = at; bytes = bytes.now }) }
        ensures log { logged self.new ≡ logged self.old }
    {
        match self.past_arrived.pop() {
            None => Arrival::new(alloc, at, bytes),
            Some(arrival) => arrival.replaced(at, bytes),
        }
    }
}

impl<A: Allocator> Log<A> {
    /// Drops all of it, and keeps its room for what comes of the next steps.
    pub fn clear(&mut self)
        ensures { logged self.new ≡ no_log }
    {
        mem::swap(&mut self.past_sent, &mut self.sent);
        mem::swap(&mut self.past_arrived, &mut self.arrived);
        self.reports.clear();
        self.sent.clear();
        self.arrived.clear();
        self.faults.clear();
    }

    // Makes room for one report with what belongs to it.
    pub(crate) fn reserve(&mut self) -> Result<(), AllocError>
        ensures log { logged self.new ≡ logged self.old }
        ensures room { OnOk result (HasRoom self.new) }
    {
        self.reports.reserve(1)?;
        self.sent.reserve(1)?;
        self.arrived.reserve(1)?;
        Ok(())
    }

    // Adds a report, what was sent with it, and what had come.
    pub(crate) fn push(&mut self, report: Report<A>, out: Outbox<A>, news: Option<Arrival<A>>)
        requires { HasRoom self.old }
        ensures { logged self.new ≡ with_report (logged self.old) report out (news_of news) }
    {
        self.reports.push(report).unwrap();
        self.sent.push(out).unwrap();
        if let Some(arrival) = news {
            self.arrived.push(arrival).unwrap();
        }
    }
}
