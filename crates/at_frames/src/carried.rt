//! What a frame carries, or why it carries no datagram.

/// How a datagram is carried.
#[derive(Clone, Copy, Debug, PartialEq, Eq)]
pub enum Carrier {
    /// EtherTalk of phase 2: Ethernet with LLC and SNAP.
    EtherTalk,
    /// EtherTalk of phase 1: a frame of LLAP in one of Ethernet.
    EtherTalkPhase1,
    /// LocalTalk: a frame of LLAP.
    LocalTalk,
    /// A frame of LLAP in a datagram of UDP.
    LocalTalkOverUdp,
}

/// A station of a link.
#[derive(Clone, Copy, Debug, PartialEq, Eq)]
pub enum Station {
    /// An address of Ethernet.
    Ethernet([u8; 6]),
    /// A node of LLAP.
    Node(u8),
    /// The frame does not say which.
    Unknown,
}

/// The stations of a frame: where it goes to, and where it comes from.
#[derive(Clone, Copy, Debug, PartialEq, Eq)]
pub struct Stations {
    pub to: Station,
    pub from: Station,
}

/// Which header a datagram has.
#[derive(Clone, Copy, Debug, PartialEq, Eq)]
pub enum Header {
    /// The extended header of 13 bytes.
    Long,
    /// The short header of 5 bytes. The nodes of the datagram are those of LLAP.
    Short { to: u8, from: u8 },
}

/// A datagram as a frame carries it. Its bytes stay in the frame.
#[derive(Clone, Copy, Debug, PartialEq, Eq)]
pub struct Carried<'a> {
    pub carrier: Carrier,
    pub stations: Stations,
    pub header: Header,
    /// The bytes from the datagram's first on, up to the end that the frame says or that was captured.
    pub bytes: &'a [u8],
}

/// Why a frame carries no datagram.
#[derive(Clone, Copy, Debug, PartialEq, Eq)]
pub enum Reason {
    /// It carries AppleTalk's address resolution (AARP).
    Aarp,
    /// It controls LLAP: an enquiry, an acknowledgement, a request or a clearance to send.
    Control,
    /// It carries another datagram of IP, or a fragment.
    OtherIp,
    /// It is of a type of link that carries no AppleTalk here.
    OtherLink,
    /// Bytes are missing: the capture has only the front of the frame.
    Cut,
    /// It carries another protocol.
    Foreign,
}
