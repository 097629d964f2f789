//! Frames of LLAP, LocalTalk's link.
ghost use Rattle.std.specs.Prelude.{◌≡◌, ◌≤◌, length, slice_index};
ghost use Rattle.at_frames.specs.Carried.{load_of, told_of};
ghost use Rattle.at_frames.specs.Llap.{behind, in_llap};
ghost use Rattle.at_frames.specs.declared.carried.Header.TheVariants.{Short};

use crate::carried::{Carried, Carrier, Header, Reason, Station, Stations};

// The length of a header: the destination, the source and the type.
const HEADER_LEN: usize = 3;

/// What a frame of LLAP carries.
#[tactic(auto, using(std::proofs::lemmas::List::take_rest), unfolding(crate::specs::Llap::in_llap))]
pub(crate) fn in_llap(carrier: Carrier, llap: &[u8]) -> Result<Carried<'_>, Reason>
    ensures { told_of result ≡ in_llap carrier llap.now }
{
    if llap.len() < HEADER_LEN {
        return Err(Reason::Cut);
    }
    match llap[2] {
        1 => Ok(behind(carrier, short_header(llap), llap)),
        2 => Ok(behind(carrier, Header::Long, llap)),
        0x81 | 0x82 | 0x84 | 0x85 => Err(Reason::Control),
        _ => Err(Reason::Foreign),
    }
}

// The short header that a datagram has in this frame.
fn short_header(llap: &[u8]) -> Header
    requires { 3 ≤ length llap.now }
    ensures { result ≡ Short (slice_index llap.now 0) (slice_index llap.now 1) }
{
    Header::Short {
        to: llap[0],
        from: llap[1],
    }
}

// The datagram behind the header of a frame.
#[tactic(auto, using(std::proofs::lemmas::List::take_rest))]
fn behind(carrier: Carrier, header: Header, llap: &[u8]) -> Carried<'_>
    requires { 3 ≤ length llap.now }
    ensures { load_of result ≡ behind carrier header llap.now }
{
    Carried {
        carrier,
        stations: Stations {
            to: Station::Node(llap[0]),
            from: Station::Node(llap[1]),
        },
        header,
        bytes: &llap[HEADER_LEN..],
    }
}
