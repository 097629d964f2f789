//! The calls and reports of zone tables, and the rules on their words.
ghost use Rattle.std.specs.Prelude.{◌≡◌, IfSome, IsSome, Some};
ghost use Rattle.std.specs.List.{AllByRecursion};
ghost use Rattle.at_nbp.specs.Tuples.{IsString};
ghost use Rattle.at_event.specs.Kinds.Zones.{IsZoneCall, zone_sentence};
ghost use Rattle.at_zip.specs.Fault.{number_of};
ghost use Rattle.at_zip.specs.declared.fault.ZipFault.{ZipFault as Why};

use crate::ranges::ranges_of_text;
use at_ddp::{Listed, Pascal};
use at_zip::{TableChoice, ZipFault};
use std::alloc::{Allocator, Global};

/// A call about the router's zone tables.
#[derive(Drop)]
pub enum ZoneCall<A: Allocator = Global> {
    /// Reads one of the router's zone tables.
    Read {
        which: TableChoice,
    },
    /// Replaces one of the router's two zone tables by at most 1,024 names of 1 to 32 bytes.
    Set {
        which: TableChoice,
        names: Listed<Pascal, A>,
    },
}

impl<A: Allocator> ZoneCall<A> {
    pub(crate) fn ranges(&self)
        ensures { IsZoneCall self.now }
    {
        if let ZoneCall::Set { which: _, names } = self {
            ranges_of_texts(names.as_slice());
        }
    }
}

fn ranges_of_texts(texts: &[Pascal])
    ensures { AllByRecursion IsString texts.now }
{
    if let [text, rest @ ..] = texts {
        ranges_of_text(text);
        ranges_of_texts(rest);
    }
}

/// How the words of a call of zone tables must be.
#[derive(Clone, Copy, Debug, PartialEq, Eq)]
pub enum ZoneRule {
    /// `call N zones`
    Zones,
    /// `call N setzones TEXT ..`
    SetZones,
    /// `call N localzones`
    LocalZones,
    /// `call N setlocal TEXT ..`
    SetLocal,
}

impl ZoneRule {
    pub(crate) fn sentence(self) -> &'static str
        ensures { result.now ≡ zone_sentence self }
    {
        match self {
            ZoneRule::Zones => "`call N zones` takes no arguments, as in \"call 5 zones\"",
            ZoneRule::SetZones =>
                "`setzones` takes texts of at most 32 bytes, as in \"call 1 setzones Lab Office\"",
            ZoneRule::LocalZones =>
                "`call N localzones` takes no arguments, as in \"call 5 localzones\"",
            ZoneRule::SetLocal =>
                "`setlocal` takes texts of at most 32 bytes, as in \"call 1 setlocal Lab\"",
        }
    }
}

/// What the router's zone tables, and those who read them, report.
#[derive(Drop)]
pub enum ZoneReport<A: Allocator = Global> {
    /// The router answered a zone request, and sent so many packets.
    Served(u8),
    /// One of the router's two zone tables was replaced.
    TableSet,
    /// A reading of a zone table ended with these names.
    List {
        which: TableChoice,
        names: Listed<Pascal, A>,
    },
    /// A reading of a zone table ended, since its page was refused. This is the number of the refusal.
    Fault(u8),
    /// A reading of a zone table ended, since no retry was left.
    Unanswered,
}

/// The fault of ZIP that has this number.
pub(crate) fn zone_fault(number: u8) -> Option<ZipFault>
    ensures found { IfSome result (λ fault. number_of fault ≡ Some number) }
    ensures known { (fault : Why) → number_of fault ≡ Some number → IsSome result }
{
    match number {
        30 => Some(ZipFault::NotZip),
        31 => Some(ZipFault::CountMismatch),
        32 => Some(ZipFault::BadZone),
        33 => Some(ZipFault::EmptyPage),
        34 => Some(ZipFault::TooManyZones),
        _ => None,
    }
}
