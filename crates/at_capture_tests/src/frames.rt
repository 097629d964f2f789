//! A frame of each carrier, frames that carry no datagram, and the short header.
use at_ddp::{Address, decode};
use at_frames::{
    Carrier, Header, LINKTYPE_ETHERNET, LINKTYPE_LINUX_COOKED, LINKTYPE_LINUX_COOKED_2,
    LINKTYPE_LOCALTALK, LINKTYPE_RAW_IP, LINKTYPE_RAW_IPV4, Reason, ShortFault, Station,
    datagram_in, decode_short, ethertalk_header,
};
use std::process::Abort;

// A datagram of ATP without data, from socket 128 of node 5 to socket 6 of node 1, both of network 10.
static DATAGRAM: &[u8] = b"\x00\x0D\x0F\x26\x00\x0A\x00\x0A\x01\x05\x06\x80\x03";

static ETHERTALK: &[u8] =
    b"\x09\x00\x07\xFF\xFF\xFF\x02\x00\x00\x00\x00\x05\x00\x15\xAA\xAA\x03\x08\x00\x07\x80\x9B\
\x00\x0D\x0F\x26\x00\x0A\x00\x0A\x01\x05\x06\x80\x03\0\0\0\0\0\0\0\0\0\0\0\0\0\0\0\0\0\0\0\0\0\0\0\0\0";

// With two tags before the length.
static TAGGED: &[u8] =
    b"\x02\x00\x00\x00\x00\x01\x02\x00\x00\x00\x00\x05\x88\xA8\x00\x01\x81\x00\x00\x02\
\x00\x15\xAA\xAA\x03\x08\x00\x07\x80\x9B\x00\x0D\x0F\x26\x00\x0A\x00\x0A\x01\x05\x06\x80\x03";

// From node 5 to node 1, with a short header: seven bytes, socket 6, socket 128, type 3, and two bytes of data.
static LLAP: &[u8] = b"\x01\x05\x01\x00\x07\x06\x80\x03hi";

static PHASE_1: &[u8] =
    b"\x02\x00\x00\x00\x00\x01\x02\x00\x00\x00\x00\x05\x80\x9B\x01\x05\x01\x00\x07\x06\x80\x03hi";

// IPv4 in 42 bytes, from 192.168.0.5 to 239.192.76.84, with UDP in 22 for port 1954; the identifier of the sender;
// LLAP.
static OVER_UDP: &[u8] =
    b"\x45\x00\x00\x2A\x00\x00\x40\x00\x01\x11\x00\x00\xC0\xA8\x00\x05\xEF\xC0\x4C\x54\
\x07\xA2\x07\xA2\x00\x16\x00\x00\x00\x00\x00\x63\x01\x05\x01\x00\x07\x06\x80\x03hi and more";

// The kernel's header of what came in by Ethernet, then LLC.
static COOKED: &[u8] = b"\x00\x00\x00\x01\x00\x06\x02\x00\x00\x00\x00\x05\x00\x00\x00\x04\
\xAA\xAA\x03\x08\x00\x07\x80\x9B\x00\x0D\x0F\x26\x00\x0A\x00\x0A\x01\x05\x06\x80\x03";

static COOKED_2: &[u8] =
    b"\x00\x04\x00\x00\x00\x00\x00\x02\x00\x01\x00\x06\x02\x00\x00\x00\x00\x05\x00\x00\
\xAA\xAA\x03\x08\x00\x07\x80\x9B\x00\x0D\x0F\x26\x00\x0A\x00\x0A\x01\x05\x06\x80\x03";

const SENDER: Station = Station::Ethernet([2, 0, 0, 0, 0, 5]);

const EVERYONE: Station = Station::Ethernet([9, 0, 7, 0xFF, 0xFF, 0xFF]);

// A frame carries the datagram, from the sender to this station.
fn carries_it(rt: &impl Abort, link_type: u16, frame: &[u8], to: Station) {
    match datagram_in(link_type, frame) {
        Ok(found) => {
            assert!(rt; found.carrier == Carrier::EtherTalk);
            assert!(rt; found.stations.to == to);
            assert!(rt; found.stations.from == SENDER);
            assert!(rt; found.header == Header::Long);
            assert!(rt; found.bytes == DATAGRAM);
        }
        Err(_) => panic!(rt; "the frame carries no datagram"),
    }
}

// A frame carries the short datagram by this carrier.
fn carries_short(rt: &impl Abort, link_type: u16, frame: &[u8], carrier: Carrier) {
    match datagram_in(link_type, frame) {
        Ok(found) => {
            assert!(rt; found.carrier == carrier);
            assert!(rt; found.stations.to == Station::Node(1));
            assert!(rt; found.stations.from == Station::Node(5));
            assert!(rt; found.header == Header::Short { to: 1, from: 5 });
            assert!(rt; found.bytes == &LLAP[3..]);
        }
        Err(_) => panic!(rt; "the frame carries no datagram"),
    }
}

// A frame carries no datagram, for this reason.
fn tells(rt: &impl Abort, link_type: u16, frame: &[u8], reason: Reason) {
    assert!(rt; datagram_in(link_type, frame).err() == Some(reason));
}

#[test]
fn each_carrier_brings_its_datagram(rt: HostRuntime) {
    carries_it(&rt, LINKTYPE_ETHERNET, ETHERTALK, EVERYONE);
    carries_it(
        &rt,
        LINKTYPE_ETHERNET,
        TAGGED,
        Station::Ethernet([2, 0, 0, 0, 0, 1]),
    );
    carries_it(&rt, LINKTYPE_LINUX_COOKED, COOKED, Station::Unknown);
    carries_it(&rt, LINKTYPE_LINUX_COOKED_2, COOKED_2, Station::Unknown);
    carries_short(&rt, LINKTYPE_LOCALTALK, LLAP, Carrier::LocalTalk);
    carries_short(&rt, LINKTYPE_ETHERNET, PHASE_1, Carrier::EtherTalkPhase1);
    carries_short(&rt, LINKTYPE_RAW_IP, OVER_UDP, Carrier::LocalTalkOverUdp);
    carries_short(&rt, LINKTYPE_RAW_IPV4, OVER_UDP, Carrier::LocalTalkOverUdp);
    assert!(rt; decode(DATAGRAM).is_ok());
}

#[test]
fn each_frame_without_a_datagram_has_its_reason(rt: HostRuntime) {
    tells(&rt, 0, ETHERTALK, Reason::OtherLink);
    tells(&rt, LINKTYPE_ETHERNET, &ETHERTALK[..13], Reason::Cut);
    tells(&rt, LINKTYPE_ETHERNET, &ETHERTALK[..20], Reason::Cut);
    tells(&rt, LINKTYPE_ETHERNET, &TAGGED[..18], Reason::Cut);
    tells(&rt, LINKTYPE_LOCALTALK, b"\x01\x05\x81", Reason::Control);
    tells(&rt, LINKTYPE_LOCALTALK, b"\x01\x05\x03", Reason::Foreign);
    tells(
        &rt,
        LINKTYPE_RAW_IP,
        b"\x60\0\0\0\0\0\0\0\0\0\0\0\0\0\0\0\0\0\0\0",
        Reason::Foreign,
    );
    tells(
        &rt,
        LINKTYPE_RAW_IP,
        b"\x45\0\0\x1C\0\0\0\0\x01\x06\0\0\0\0\0\0\0\0\0\0",
        Reason::OtherIp,
    );
    tells(
        &rt,
        LINKTYPE_ETHERNET,
        b"\0\0\0\0\0\0\0\0\0\0\0\0\x80\xF3",
        Reason::Aarp,
    );
}

#[test]
fn a_short_datagram_is_decoded_between_the_nodes_of_its_frame(rt: HostRuntime) {
    match decode_short(1, 5, &LLAP[3..]) {
        Ok((datagram, rest)) => {
            assert!(rt;
                datagram.to
                    == Address {
                        net: 0,
                        node: 1,
                        socket: 6
                    }
            );
            assert!(rt;
                datagram.from
                    == Address {
                        net: 0,
                        node: 5,
                        socket: 128
                    }
            );
            assert!(rt; datagram.kind == 3);
            assert!(rt; datagram.data_ == b"hi".as_slice());
            assert!(rt; rest.is_empty());
        }
        Err(_) => panic!(rt; "the datagram is refused"),
    }
    assert!(rt; decode_short(1, 5, b"\x00\x05\x01\x01").err() == Some(ShortFault::Short));
    assert!(rt; decode_short(1, 5, b"\x00\x04\x01\x01\x03").err() == Some(ShortFault::BadLength));
    assert!(rt; decode_short(1, 5, b"\x00\x06\x01\x01\x03").err() == Some(ShortFault::Truncated));
    assert!(rt; ShortFault::Truncated.number() == 3);
}

#[test]
fn the_header_of_ethertalk_is_that_of_a_captured_frame(rt: HostRuntime) {
    let header = ethertalk_header([9, 0, 7, 0xFF, 0xFF, 0xFF], [2, 0, 0, 0, 0, 5], 13);
    assert!(rt; header.as_slice() == &ETHERTALK[..22]);
}
