//! Why an event is not played.
ghost use Rattle.std.specs.Prelude.{◌≡◌};

use thiserror::Error;

/// Why an event is refused.
#[derive(Clone, Copy, Debug, PartialEq, Eq, Error)]
pub enum Refusal {
    /// 200,000 events were played, or more than 868,928 datagrams were sent.
    #[error("200,000 events were played, or more than 868,928 datagrams were sent")]
    Limit,
    /// No datagram of this number was sent.
    #[error("no datagram of this number was sent")]
    NoDatagram,
    /// The setup has no such node, or the datagram goes to another.
    #[error("the setup has no such node, or the datagram goes to another")]
    NotForNode,
    /// A number that the datagram carries was drawn again since it was sent. Or a node still holds a record or an end
    /// under the number to be drawn.
    #[error("a number was drawn again since the datagram was sent, \
        or a node still holds a record or an end under the number to be drawn")]
    Untimely,
}

impl Refusal {
    ghost use Rattle.at_setup.specs.Refusals.{number_of};

    /// The number by which the refusal is reported.
    pub fn number(self) -> u8
        ensures { result ≡ number_of self }
    {
        match self {
            Refusal::Limit => 73,
            Refusal::NoDatagram => 70,
            Refusal::NotForNode => 71,
            Refusal::Untimely => 72,
        }
    }
}

/// Why a play stops before its end.
#[derive(Clone, Copy, Debug, PartialEq, Eq, Error)]
pub enum EventFault {
    /// The event was refused.
    #[error(transparent)]
    Refused(Refusal),
    /// The world ran out of memory of its own.
    #[error("out of memory")]
    NoMemory,
}
