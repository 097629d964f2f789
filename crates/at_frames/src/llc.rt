//! Frames of LLC, and the two protocols of AppleTalk behind its SNAP.
ghost use Rattle.std.specs.Prelude.{◌≡◌};
ghost use Rattle.at_frames.specs.Carried.{told_of};
ghost use Rattle.at_frames.specs.Llc.{in_llc, in_snap, missing};

use crate::carried::{Carried, Carrier, Header, Reason, Stations};

/// The length of the headers of LLC and SNAP.
pub(crate) const SNAP_LEN: usize = 8;

/// The headers of LLC and SNAP before a datagram.
pub(crate) const DATAGRAM: [u8; SNAP_LEN] = [0xAA, 0xAA, 0x03, 0x08, 0x00, 0x07, 0x80, 0x9B];

// The same before a packet of AARP.
const AARP: [u8; SNAP_LEN] = [0xAA, 0xAA, 0x03, 0x00, 0x00, 0x00, 0x80, 0xF3];

/// What a frame of LLC carries, which has at most so many of these bytes.
#[tactic(auto, using(std::proofs::lemmas::List::take_rest), unfolding(crate::specs::Llc::in_llc))]
pub(crate) fn in_llc(stations: Stations, stated: usize, rest: &[u8]) -> Result<Carried<'_>, Reason>
    ensures { told_of result ≡ in_llc stations stated rest.now }
{
    let llc = &rest[..stated.min(rest.len())];
    if llc.len() < SNAP_LEN {
        return Err(missing(stated, rest.len()));
    }
    in_snap(stations, llc)
}

// Why a frame of LLC is too short for its headers: the capture ends before it, or it has no SNAP.
fn missing(stated: usize, captured: usize) -> Reason
    ensures { result ≡ missing stated captured }
{
    if captured < stated {
        Reason::Cut
    } else {
        Reason::Foreign
    }
}

// What is carried behind the headers of LLC and SNAP.
#[tactic(auto, using(std::proofs::lemmas::List::take_rest), unfolding(crate::specs::Llc::in_snap))]
fn in_snap(stations: Stations, llc: &[u8]) -> Result<Carried<'_>, Reason>
    ensures { told_of result ≡ in_snap stations llc.now }
{
    if llc.starts_with(&DATAGRAM) {
        Ok(Carried {
            carrier: Carrier::EtherTalk,
            stations,
            header: Header::Long,
            bytes: &llc[SNAP_LEN..],
        })
    } else if llc.starts_with(&AARP) {
        Err(Reason::Aarp)
    } else {
        Err(Reason::Foreign)
    }
}
