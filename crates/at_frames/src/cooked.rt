//! Linux's cooked captures, whose frames have a header of the kernel in place of the link's own.
ghost use Rattle.std.specs.Prelude.{◌≡◌, ◌+◌, ◌≤◌, length};
ghost use Rattle.at_frames.specs.Carried.{told_of};
ghost use Rattle.at_frames.specs.Cooked.{by_protocol, in_cooked, in_cooked_2, sender};

use crate::carried::{Carried, Reason, Station, Stations};
use crate::ethernet::by_type;
use crate::llc::in_llc;
use crate::numbers::{number_at, station_at};

// The length of a header.
const HEADER_LEN: usize = 16;

// The length of a header of the second version.
const HEADER_2_LEN: usize = 20;

// The type behind which a frame of LLC follows.
const LLC: u16 = 4;

/// What a frame of a cooked capture carries.
#[tactic(auto, using(std::proofs::lemmas::List::take_rest), unfolding(crate::specs::Cooked::in_cooked))]
pub(crate) fn in_cooked(frame: &[u8]) -> Result<Carried<'_>, Reason>
    ensures { told_of result ≡ in_cooked frame.now }
{
    if frame.len() < HEADER_LEN {
        return Err(Reason::Cut);
    }
    let from = sender(number_at(frame, 4), frame, 6);
    by_protocol(from, number_at(frame, 14), &frame[HEADER_LEN..])
}

/// What a frame of a cooked capture of the second version carries.
#[tactic(auto, using(std::proofs::lemmas::List::take_rest), unfolding(crate::specs::Cooked::in_cooked_2))]
pub(crate) fn in_cooked_2(frame: &[u8]) -> Result<Carried<'_>, Reason>
    ensures { told_of result ≡ in_cooked_2 frame.now }
{
    if frame.len() < HEADER_2_LEN {
        return Err(Reason::Cut);
    }
    let from = sender(u16::from(frame[11]), frame, 12);
    by_protocol(from, number_at(frame, 0), &frame[HEADER_2_LEN..])
}

// The sender, if its address has this length and is one of Ethernet.
fn sender(address_len: u16, frame: &[u8], place: usize) -> Station
    requires { place + 6 ≤ length frame.now }
    ensures { result ≡ sender address_len frame.now place }
{
    if address_len == 6 {
        station_at(frame, place)
    } else {
        Station::Unknown
    }
}

// What is carried behind a cooked header with this type. The header has no destination.
#[tactic(auto, using(std::proofs::lemmas::List::take_rest), unfolding(crate::specs::Cooked::by_protocol))]
fn by_protocol(from: Station, kind: u16, rest: &[u8]) -> Result<Carried<'_>, Reason>
    ensures { told_of result ≡ by_protocol from kind rest.now }
{
    let stations = Stations {
        to: Station::Unknown,
        from,
    };
    if kind == LLC {
        in_llc(stations, rest.len(), rest)
    } else {
        by_type(stations, kind, rest)
    }
}
