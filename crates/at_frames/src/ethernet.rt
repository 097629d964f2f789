//! Frames of Ethernet, and what a frame carries by its type.
ghost use Rattle.std.specs.Prelude.{◌≡◌};
ghost use Rattle.at_frames.specs.Carried.{told_of};
ghost use Rattle.at_frames.specs.Ethernet.{after_tags, by_type, in_ethernet, is_tag, is_tagged, typed};

use crate::carried::{Carried, Carrier, Reason, Stations};
use crate::ip::in_ip;
use crate::llap::in_llap;
use crate::llc::in_llc;
use crate::numbers::{number_at, station_at};

// The length of a header without tags.
const HEADER_LEN: usize = 14;

// The length of a tag: its type, and what it says.
const TAG_LEN: usize = 4;

// The length of a type.
const TYPE_LEN: usize = 2;

/// What a frame of Ethernet carries.
#[tactic(auto, using(std::proofs::lemmas::List::take_rest), unfolding(crate::specs::Ethernet::in_ethernet))]
pub(crate) fn in_ethernet(frame: &[u8]) -> Result<Carried<'_>, Reason>
    ensures { told_of result ≡ in_ethernet frame.now }
{
    if frame.len() < HEADER_LEN {
        return Err(Reason::Cut);
    }
    let stations = Stations {
        to: station_at(frame, 0),
        from: station_at(frame, 6),
    };
    typed(stations, after_tags(&frame[12..]))
}

// What follows the tags, if there are any. A tag that is cut short stays.
fn after_tags(bytes: &[u8]) -> &[u8]
    ensures { result.now ≡ after_tags bytes.now }
{
    let mut rest = bytes;
    while is_tagged(rest) {
        rest = &rest[TAG_LEN..];
    }
    rest
}

fn is_tagged(bytes: &[u8]) -> bool
    ensures { result ≡ is_tagged bytes.now }
{
    bytes.len() >= TAG_LEN && is_tag(number_at(bytes, 0))
}

// Whether a type is that of a tag for a customer or a service.
fn is_tag(kind: u16) -> bool
    ensures { result ≡ is_tag kind }
{
    kind == 0x8100 || kind == 0x88A8
}

// What is carried by bytes that begin with the type.
#[tactic(auto, using(std::proofs::lemmas::List::take_rest), unfolding(crate::specs::Ethernet::typed))]
fn typed(stations: Stations, bytes: &[u8]) -> Result<Carried<'_>, Reason>
    ensures { told_of result ≡ typed stations bytes.now }
{
    if bytes.len() < TYPE_LEN {
        return Err(Reason::Cut);
    }
    let kind = number_at(bytes, 0);
    if is_tag(kind) {
        return Err(Reason::Cut);
    }
    by_type(stations, kind, &bytes[TYPE_LEN..])
}

/// What is carried behind this type, which up to 1500 is a length.
#[tactic(auto, using(std::proofs::lemmas::List::take_rest), unfolding(crate::specs::Ethernet::by_type))]
pub(crate) fn by_type(stations: Stations, kind: u16, rest: &[u8]) -> Result<Carried<'_>, Reason>
    ensures { told_of result ≡ by_type stations kind rest.now }
{
    match kind {
        0..=1500 => in_llc(stations, usize::from(kind), rest),
        0x0800 => in_ip(rest),
        0x809B => in_llap(Carrier::EtherTalkPhase1, rest),
        0x80F3 => Err(Reason::Aarp),
        _ => Err(Reason::Foreign),
    }
}
