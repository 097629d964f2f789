//! Why a node itself refuses a call, with the number and the sentence of each refusal. The faults of datagrams, by
//! their numbers.
ghost use Rattle.std.specs.Prelude.{◌≡◌, IfSome, IsSome, Some};
ghost use Rattle.at_ddp.specs.Fault as datagrams;
ghost use Rattle.at_ddp.specs.declared.fault.DdpFault.{DdpFault as DdpWhy};
ghost use Rattle.at_event.specs.Faults.{number_of};
ghost use Rattle.at_event.specs.declared.fault.NodeFault.{NodeFault as NodeWhy};

use at_ddp::DdpFault;
use thiserror::Error;

/// Why a node itself refuses a call.
#[derive(Clone, Copy, Debug, PartialEq, Eq, Error)]
pub enum NodeFault {
    /// A zone table is set at a node that is not the router, or is read on a cable without one.
    #[error("this node is not the router, or the cable has none")]
    NoRouter,
    /// Neither zone list that the node read last has this zone.
    #[error("neither zone list that the node read last has this zone")]
    ZoneNotListed,
    /// The last lookup that ended found no such entry.
    #[error("the last finished lookup has no such entry")]
    NotFound,
    /// The node reads a zone list already.
    #[error("the node is already reading a zone list")]
    StillReading,
}

impl NodeFault {
    /// The number by which this refusal is reported.
    pub fn number(self) -> u8
        ensures { result ≡ number_of self }
    {
        match self {
            NodeFault::NoRouter => 60,
            NodeFault::ZoneNotListed => 61,
            NodeFault::NotFound => 62,
            NodeFault::StillReading => 63,
        }
    }
}

/// The fault of a datagram that has this number.
pub(crate) fn datagram_fault(number: u8) -> Option<DdpFault>
    ensures found { IfSome result (λ fault. datagrams.number_of fault ≡ Some number) }
    ensures known { (fault : DdpWhy) → datagrams.number_of fault ≡ Some number → IsSome result }
{
    match number {
        1 => Some(DdpFault::Short),
        2 => Some(DdpFault::BadLength),
        3 => Some(DdpFault::Truncated),
        4 => Some(DdpFault::BadSum),
        5 => Some(DdpFault::TooLong),
        _ => None,
    }
}

/// The fault of a node itself that has this number.
pub(crate) fn node_fault(number: u8) -> Option<NodeFault>
    ensures found { IfSome result (λ fault. number_of fault ≡ number) }
    ensures known { (fault : NodeWhy) → number_of fault ≡ number → IsSome result }
{
    match number {
        60 => Some(NodeFault::NoRouter),
        61 => Some(NodeFault::ZoneNotListed),
        62 => Some(NodeFault::NotFound),
        63 => Some(NodeFault::StillReading),
        _ => None,
    }
}
