//! A frame, by the type of its link.
ghost use Rattle.std.specs.Prelude.{◌≡◌, IfOk, IsOkAnd};
ghost use Rattle.at_frames.specs.Carried.{Load, load_of, told_of};
ghost use Rattle.at_frames.specs.Carries.{Carries};
ghost use Rattle.at_frames.specs.Frames.{told};

use crate::carried::{Carried, Carrier, Reason};
use crate::cooked::{in_cooked, in_cooked_2};
use crate::ethernet::in_ethernet;
use crate::ip::in_ip;
use crate::llap::in_llap;

/// The link type of Ethernet.
pub const LINKTYPE_ETHERNET: u16 = 1;

/// The link type of bare IP, of version 4 or 6.
pub const LINKTYPE_RAW_IP: u16 = 101;

/// The link type of Linux's cooked captures, of all interfaces of a machine.
pub const LINKTYPE_LINUX_COOKED: u16 = 113;

/// The link type of LocalTalk.
pub const LINKTYPE_LOCALTALK: u16 = 114;

/// The link type of bare IP of version 4.
pub const LINKTYPE_RAW_IPV4: u16 = 228;

/// The link type of Linux's cooked captures, in their second version.
pub const LINKTYPE_LINUX_COOKED_2: u16 = 276;

/// What a frame of a link of this type carries, by its captured bytes alone. The error is the first reason for which
/// it carries no datagram.
pub fn datagram_in(link_type: u16, frame: &[u8]) -> Result<Carried<'_>, Reason>
    // What is carried is found, and nothing else.
    ensures found { IfOk result (λ c. Carries link_type frame.now (load_of c)) }
    ensures only { (d : Load) → Carries link_type frame.now d → IsOkAnd result (λ c. load_of c ≡ d) }
    // Also why there is no datagram.
    ensures told { told_of result ≡ told link_type frame.now }
{
    by_link(link_type, frame)
}

// The same, by steps.
#[tactic(auto, unfolding(crate::specs::Frames::told))]
fn by_link(link_type: u16, frame: &[u8]) -> Result<Carried<'_>, Reason>
    ensures { told_of result ≡ told link_type frame.now }
{
    match link_type {
        LINKTYPE_ETHERNET => in_ethernet(frame),
        LINKTYPE_LINUX_COOKED => in_cooked(frame),
        LINKTYPE_LINUX_COOKED_2 => in_cooked_2(frame),
        LINKTYPE_RAW_IP | LINKTYPE_RAW_IPV4 => in_ip(frame),
        LINKTYPE_LOCALTALK => in_llap(Carrier::LocalTalk, frame),
        _ => Err(Reason::OtherLink),
    }
}
