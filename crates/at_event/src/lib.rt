//! What happens at a node of a cable: its calls, timers and reports, by the protocol that they are of, and how a line
//! says them. Where a node is, and what a service is.
#![tactic(auto)]

ghost use Rattle.std.specs.Prelude.{◌≡◌, IfSome, IsSome, Some};
ghost use Rattle.at_event.specs.Kinds.{IsCall, event_sentence, number_of};
ghost use Rattle.at_event.specs.declared.Reason.{Reason as Why};

use crate::fault::{datagram_fault, node_fault};
use crate::names::name_fault;
use crate::streams::{segment_fault, stream_fault};
use crate::transactions::transaction_fault;
use crate::zones::zone_fault;
use at_adsp_end::StreamFault;
use at_adsp_frame::AdspFault;
use at_atp_frame::AtpFault;
use at_ddp::DdpFault;
use at_nbp::NbpFault;
use at_zip::ZipFault;
use std::alloc::{Allocator, Global};
use thiserror::Error;

mod fault;
mod names;
mod packet_count;
mod ranges;
mod seat;
mod service;
mod session;
mod streams;
mod transactions;
mod zones;

pub use fault::NodeFault;
pub use names::{NameCall, NameReport, NameRule, NameTimer};
pub use packet_count::PacketCount;
pub use seat::Seat;
pub use service::{Deferring, Reply, Service};
pub use session::{SessionCall, SessionRule};
pub use streams::{StreamCall, StreamReport, StreamRule, StreamTimer};
pub use transactions::{TransactionCall, TransactionReport, TransactionRule, TransactionTimer};
pub use zones::{ZoneCall, ZoneReport, ZoneRule};

/// A call by the node's user, by the protocol that it is of.
#[derive(Drop)]
pub enum Call<A: Allocator = Global> {
    /// Transactions, of ATP.
    Transactions(TransactionCall<A>),
    /// Zone tables, of ZIP.
    Zones(ZoneCall<A>),
    /// Names, of NBP.
    Names(NameCall),
    /// Streams, of ADSP.
    Streams(StreamCall<A>),
    /// What the node keeps for its user, of no protocol.
    Session(SessionCall),
}

impl<A: Allocator> Call<A> {
    /// The parts of the call are in the ranges of their types. The body only visits them.
    pub fn ranges(&self)
        ensures { IsCall self.now }
    {
        match self {
            Call::Transactions(call) => call.ranges(),
            Call::Zones(call) => call.ranges(),
            Call::Names(call) => call.ranges(),
            Call::Streams(call) => call.ranges(),
            Call::Session(call) => call.ranges(),
        }
    }
}

/// A timer that fires, by the protocol that it is of.
#[derive(Clone, Copy, Debug, PartialEq, Eq)]
pub enum Timer {
    /// A timer of transactions, of ATP.
    Transactions(TransactionTimer),
    /// A timer of names, of NBP.
    Names(NameTimer),
    /// A timer of streams, of ADSP.
    Streams(StreamTimer),
}

/// A rule on the line of a call or of a timer, by the protocol whose words it is about.
#[derive(Clone, Copy, Debug, PartialEq, Eq)]
pub enum EventRule {
    /// `call N CALL ..`
    Call,
    /// `timer N TIMER ..`
    Timer,
    /// The words of transactions, of ATP.
    Transactions(TransactionRule),
    /// The words of zone tables, of ZIP.
    Zones(ZoneRule),
    /// The words of names, of NBP.
    Names(NameRule),
    /// The words of streams, of ADSP.
    Streams(StreamRule),
    /// The words of what the node keeps for its user, of no protocol.
    Session(SessionRule),
}

impl EventRule {
    /// The reason for a line that breaks the rule, as standard error has it.
    pub fn sentence(self) -> &'static str
        ensures { result.now ≡ event_sentence self }
    {
        match self {
            EventRule::Call => {
                "`call` takes a node and `zones`, `setzones`, `localzones`, `setlocal`, `ask`, `answer`, `pick`, \
        `find`, `claim`, `finish`, `register`, `unregister`, `open`, `listen`, `connect`, `write`, `read`, `reset` \
        or `close`, as in \"call 5 zones\""
            }
            EventRule::Timer => {
                "`timer` takes a node and `retry`, `release`, `lookup`, `resend` or `probe`, as in \"timer 5 retry 0\""
            }
            EventRule::Transactions(rule) => rule.sentence(),
            EventRule::Zones(rule) => rule.sentence(),
            EventRule::Names(rule) => rule.sentence(),
            EventRule::Streams(rule) => rule.sentence(),
            EventRule::Session(rule) => rule.sentence(),
        }
    }
}

/// What came of an event: what a protocol reports, or what all of them can.
#[derive(Drop)]
pub enum Report<A: Allocator = Global> {
    /// What transactions report, of ATP.
    Transactions(TransactionReport<A>),
    /// What the reading and the service of zones report, of ZIP.
    Zones(ZoneReport<A>),
    /// What names report, of NBP.
    Names(NameReport<A>),
    /// What streams report, of ADSP.
    Streams(StreamReport<A>),
    /// The node's user picked a zone.
    Picked,
    /// Something was sent again, or a request that still waits came again.
    Again,
    /// The datagram had no effect.
    Ignored,
    /// The event was refused. This is the number of the refusal.
    Refused(u8),
    /// Out of memory: nothing changed.
    NoMemory,
}

/// Why a node refuses an event, or a reading of a zone table ends: the sentence of a fault.
#[derive(Clone, Copy, Debug, PartialEq, Eq, Error)]
pub enum Reason {
    #[error(transparent)]
    OfDatagrams(DdpFault),
    #[error(transparent)]
    OfTransactions(AtpFault),
    #[error(transparent)]
    OfNames(NbpFault),
    #[error(transparent)]
    OfZones(ZipFault),
    #[error(transparent)]
    OfSegments(AdspFault),
    #[error(transparent)]
    OfStreams(StreamFault),
    #[error(transparent)]
    OfNodes(NodeFault),
}

impl Reason {
    /// The reason that has this number, if one has.
    pub fn of(number: u8) -> Option<Reason>
        ensures found { IfSome result (λ reason. number_of reason ≡ Some number) }
        ensures known { (why : Why) → number_of why ≡ Some number → IsSome result }
    {
        match number {
            0..=9 => datagram_fault(number).map(Reason::OfDatagrams),
            10..=19 => transaction_fault(number).map(Reason::OfTransactions),
            20..=29 => name_fault(number).map(Reason::OfNames),
            30..=39 => zone_fault(number).map(Reason::OfZones),
            40..=49 => segment_fault(number).map(Reason::OfSegments),
            50..=59 => stream_fault(number).map(Reason::OfStreams),
            60..=69 => node_fault(number).map(Reason::OfNodes),
            _ => None,
        }
    }

    /// The number by which this reason is reported: none for out of memory, which breaks no rule.
    pub fn number(self) -> Option<u8>
        ensures { result ≡ number_of self }
    {
        match self {
            Reason::OfDatagrams(fault) => fault.number(),
            Reason::OfTransactions(fault) => fault.number(),
            Reason::OfNames(fault) => fault.number(),
            Reason::OfZones(fault) => fault.number(),
            Reason::OfSegments(fault) => fault.number(),
            Reason::OfStreams(fault) => fault.number(),
            Reason::OfNodes(fault) => Some(fault.number()),
        }
    }
}
