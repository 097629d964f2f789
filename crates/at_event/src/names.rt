//! The calls, timers and reports of names, and the rules on their words.
ghost use Rattle.std.specs.Prelude.{◌≡◌, ◌<◌, IfSome, IsSome, Some};
ghost use Rattle.at_nbp.specs.Tuples.{IsString};
ghost use Rattle.at_event.specs.Kinds.Names.{IsNameCall, IsZone, name_sentence};
ghost use Rattle.at_nbp.specs.Fault.{number_of};
ghost use Rattle.at_nbp.specs.declared.fault.NbpFault.{NbpFault as Why};

use crate::ranges::ranges_of_text;
use at_ddp::{Listed, Pascal};
use at_nbp::{Find, NbpFault, Owner};
use std::alloc::{Allocator, Global};

/// A call about names and lookups.
#[derive(Drop)]
pub enum NameCall {
    /// Looks names up: `=` is any object or type, `*` is any zone. Without a zone it asks for the picked one, or any.
    Find {
        object: Pascal,
        /// The type of the object.
        kind: Pascal,
        zone: Option<Pascal>,
    },
    /// Looks a name up, which is to be registered for a socket if nobody has it.
    Claim {
        object: Pascal,
        kind: Pascal,
        socket: u8,
    },
    /// Ends the lookup of this identifier, and with it a claim.
    Finish {
        id: u8,
    },
    /// Registers a name for a socket, without a lookup.
    Register {
        object: Pascal,
        kind: Pascal,
        socket: u8,
    },
    /// Takes a name away.
    Unregister {
        object: Pascal,
        kind: Pascal,
    },
}

impl NameCall {
    pub(crate) fn ranges(&self)
        ensures { IsNameCall self.now }
    {
        match self {
            NameCall::Find { object, kind, zone } => {
                ranges_of_name(object, kind);
                ranges_of_zone(zone);
            }
            NameCall::Claim {
                object,
                kind,
                socket,
            }
            | NameCall::Register {
                object,
                kind,
                socket,
            } => ranges_of_own(object, kind, *socket),
            NameCall::Unregister { object, kind } => ranges_of_name(object, kind),
            NameCall::Finish { id } => {
                let _id = *id;
            }
        }
    }
}

// A name of a socket.
fn ranges_of_own(object: &Pascal, kind: &Pascal, socket: u8)
    ensures object { IsString object.now }
    ensures kind { IsString kind.now }
    ensures socket { socket < 256 }
{
    let _socket = socket;
    ranges_of_name(object, kind);
}

fn ranges_of_name(object: &Pascal, kind: &Pascal)
    ensures object { IsString object.now }
    ensures kind { IsString kind.now }
{
    ranges_of_text(object);
    ranges_of_text(kind);
}

fn ranges_of_zone(zone: &Option<Pascal>)
    ensures { IsZone zone.now }
{
    if let Some(zone) = zone {
        ranges_of_text(zone);
    }
}

/// A timer of names.
#[derive(Clone, Copy, Debug, PartialEq, Eq)]
pub enum NameTimer {
    /// A lookup is to be asked again.
    Lookup { id: u8 },
}

/// How the words of a call or a timer of names must be.
#[derive(Clone, Copy, Debug, PartialEq, Eq)]
pub enum NameRule {
    /// `call N find TEXT TEXT [TEXT]`
    Find,
    /// `call N claim TEXT TEXT SOCKET`
    Claim,
    /// `call N finish ID`
    Finish,
    /// `call N register TEXT TEXT SOCKET`
    Register,
    /// `call N unregister TEXT TEXT`
    Unregister,
    /// `timer N lookup ID`
    Lookup,
}

impl NameRule {
    pub(crate) fn sentence(self) -> &'static str
        ensures { result.now ≡ name_sentence self }
    {
        match self {
            NameRule::Find => {
                "`find` takes an object, a type, and a zone if needed, of at most 32 bytes each, \
        as in \"call 5 find = LaserWriter\""
            }
            NameRule::Claim => {
                "`claim` takes an object and a type of at most 32 bytes each, and a socket, 1 to 254, \
        as in \"call 5 claim Printer LaserWriter 130\""
            }
            NameRule::Finish =>
                "`finish` takes a lookup's identifier, 0 to 255, as in \"call 5 finish 0\"",
            NameRule::Register => {
                "`register` takes an object and a type of at most 32 bytes each, and a socket, 1 to 254, \
        as in \"call 7 register Printer LaserWriter 130\""
            }
            NameRule::Unregister => {
                "`unregister` takes an object and a type of at most 32 bytes each, \
        as in \"call 7 unregister Printer LaserWriter\""
            }
            NameRule::Lookup =>
                "`lookup` takes a lookup's identifier, 0 to 255, as in \"timer 5 lookup 0\"",
        }
    }
}

/// What names and lookups report.
#[derive(Drop)]
pub enum NameReport<A: Allocator = Global> {
    /// A lookup began under this identifier.
    Looking(u8),
    /// A lookup ended with these finds, in the order in which they came.
    Found(Listed<Find, A>),
    /// A claim ended: nobody had the name, and now it is registered.
    Claimed,
    /// A claim ended: this node or another has the name.
    Taken(Owner<A>),
    /// A name was registered.
    Registered,
    /// A name was taken away.
    Unregistered,
    /// The router asked every node for names.
    Relayed,
    /// A lookup was answered with so many names, which match it.
    Matched(usize),
    /// So many finds of a reply are new, and were added.
    Added(usize),
}

/// The fault of NBP that has this number.
pub(crate) fn name_fault(number: u8) -> Option<NbpFault>
    ensures found { IfSome result (λ fault. number_of fault ≡ Some number) }
    ensures known { (fault : Why) → number_of fault ≡ Some number → IsSome result }
{
    match number {
        20 => Some(NbpFault::ShortNbp),
        21 => Some(NbpFault::BadNbpFunction),
        22 => Some(NbpFault::BadCount),
        23 => Some(NbpFault::BadString),
        24 => Some(NbpFault::NameInUse),
        25 => Some(NbpFault::NoSuchName),
        26 => Some(NbpFault::EmptyName),
        27 => Some(NbpFault::NamesFull),
        28 => Some(NbpFault::LookupsFull),
        29 => Some(NbpFault::NoSuchLookup),
        _ => None,
    }
}
