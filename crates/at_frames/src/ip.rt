//! LocalTalk over UDP: frames of LLAP in datagrams of UDP and IPv4.
ghost use Rattle.std.specs.Prelude.{◌≡◌, ◌≤◌, length};
ghost use Rattle.at_frames.specs.Carried.{told_of};
ghost use Rattle.at_frames.specs.Ip.{header_len, in_ip, in_udp, is_ipv4, is_length, is_whole_udp};

use crate::carried::{Carried, Carrier, Reason};
use crate::llap::in_llap;
use crate::numbers::number_at;

// The length of a header of IPv4 without options.
const IP_HEADER_LEN: usize = 20;

// The number of UDP in a header of IPv4.
const UDP: u8 = 17;

// The length of a header of UDP.
const UDP_HEADER_LEN: usize = 8;

// The port of LocalTalk over UDP.
const PORT: u16 = 1954;

// The length of a header of UDP, and of the identifier of the sender behind it.
const LLAP_START: usize = 12;

/// What a datagram of IPv4 carries.
#[tactic(auto, using(std::proofs::lemmas::List::take_rest), unfolding(crate::specs::Ip::in_ip))]
pub(crate) fn in_ip(ip: &[u8]) -> Result<Carried<'_>, Reason>
    ensures { told_of result ≡ in_ip ip.now }
{
    if ip.len() < IP_HEADER_LEN {
        return Err(Reason::Cut);
    }
    if !is_ipv4(ip) {
        return Err(Reason::Foreign);
    }
    if !is_whole_udp(ip) {
        return Err(Reason::OtherIp);
    }
    let header_len = header_len(ip);
    let total_len = usize::from(number_at(ip, 2));
    if total_len < header_len + UDP_HEADER_LEN {
        return Err(Reason::Foreign);
    }
    if ip.len() < header_len + UDP_HEADER_LEN {
        return Err(Reason::Cut);
    }
    in_udp(total_len - header_len, &ip[header_len..])
}

// The length of the header, in its low four bits of the first byte.
fn header_len(ip: &[u8]) -> usize
    requires { 20 ≤ length ip.now }
    ensures { result ≡ header_len ip.now }
{
    4 * usize::from(ip[0] % 16)
}

// Whether the version is 4, and the header has its 20 bytes.
fn is_ipv4(ip: &[u8]) -> bool
    requires { 20 ≤ length ip.now }
    ensures { result ≡ is_ipv4 ip.now }
{
    ip[0] / 16 == 4 && header_len(ip) >= IP_HEADER_LEN
}

// Whether it is a datagram of UDP, and no fragment: no more of them follow, and the offset is 0.
fn is_whole_udp(ip: &[u8]) -> bool
    requires { 20 ≤ length ip.now }
    ensures { result ≡ is_whole_udp ip.now }
{
    ip[9] == UDP && number_at(ip, 6) % 16384 == 0
}

// What a datagram of UDP carries, which has at most so many of these bytes, and whose header was captured.
#[tactic(auto, using(std::proofs::lemmas::List::take_rest), unfolding(crate::specs::Ip::in_udp))]
fn in_udp(most: usize, udp: &[u8]) -> Result<Carried<'_>, Reason>
    requires { 8 ≤ length udp.now }
    ensures { told_of result ≡ in_udp most udp.now }
{
    let len = usize::from(number_at(udp, 4));
    if number_at(udp, 2) != PORT {
        return Err(Reason::OtherIp);
    }
    if !is_length(len, most) {
        return Err(Reason::Foreign);
    }
    if udp.len() < LLAP_START {
        return Err(Reason::Cut);
    }
    if len < LLAP_START {
        return Err(Reason::Foreign);
    }
    let stated = &udp[..len.min(udp.len())];
    in_llap(Carrier::LocalTalkOverUdp, &stated[LLAP_START..])
}

// Whether a length counts the header of UDP, and is no more than there is room for.
fn is_length(len: usize, most: usize) -> bool
    ensures { result ≡ is_length len most }
{
    len >= UDP_HEADER_LEN && len <= most
}
