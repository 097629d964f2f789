//! Segments in bytes. A header has thirteen, numbers with the high byte first:
//!
//! | Bytes | Field |
//! |---|---|
//! | 0, 1 | connection identifier of the end that sends |
//! | 2 to 5 | sequence number of the first byte |
//! | 6 to 9 | sequence number of the next byte that is expected |
//! | 10, 11 | window: how many bytes from there on may come |
//! | 12 | descriptor |
//!
//! The bits of the descriptor, the highest first:
//!
//! | Bits | Mask | Data packet | Control packet |
//! |---|---|---|---|
//! | 7 | `0x80` | 0 | 1 |
//! | 6 | `0x40` | asks for an acknowledgement | the same |
//! | 5 | `0x20` | end of message (EOM) | free |
//! | 4 | `0x10` | 0; 1 in attention messages | the same |
//! | 3 to 0 | `0x0F` | free | control code, 0 to 8 |
//!
//! Data follows the header of a data packet. Control codes 1 to 4 open a connection. These fields follow them:
//!
//! | Bytes | Field |
//! |---|---|
//! | 13, 14 | version, `0x0100` |
//! | 15, 16 | connection identifier of the end that is to take the packet; free in code 1 |
//! | 17 to 20 | sequence number of the next attention message that is expected; free |
//!
//! Free bits are written as 0, and read as anything. What else follows a control packet is ignored.
ghost use Rattle.std.specs.Prelude.{◌≡◌, ◌≢◌, IfSome};
ghost use Rattle.at_adsp_frame.specs.Openings.{code_of};
ghost use Rattle.at_adsp_frame.specs.declared.segment.OpenKind.{OpenKind as Kind};

/// The length of a header in bytes.
pub const HEADER_LEN: usize = 13;

/// The most data that a segment carries, in bytes.
pub const MAX_DATA: usize = 572;

/// The greatest length of a segment in bytes.
pub const SEGMENT_LEN: usize = HEADER_LEN + MAX_DATA;

/// The length in bytes of the fields of an opening.
pub const OPENING_LEN: usize = 8;

/// The version of the protocol, in the fields of an opening.
pub(crate) const VERSION: u16 = 0x0100;

// The bits of the descriptor.
pub(crate) const CONTROL: u8 = 0x80;

pub(crate) const ACK: u8 = 0x40;

pub(crate) const EOM: u8 = 0x20;

pub(crate) const ATTENTION: u8 = 0x10;

pub(crate) const CODE: u8 = 0x0F;

// The control codes that open no connection.
pub(crate) const PROBE: u8 = 0;

pub(crate) const CLOSE: u8 = 5;

pub(crate) const RESET: u8 = 6;

pub(crate) const RESET_ACK: u8 = 7;

pub(crate) const ADVICE: u8 = 8;

/// A decoded segment. Its data stays in the bytes that it was decoded from.
#[derive(Clone, Copy, Debug, PartialEq, Eq)]
pub struct Segment<'a> {
    /// The connection identifier of the end that sends.
    pub source: u16,
    /// The sequence number of the first byte that the segment carries or, without data, of the next to be sent.
    pub first: u32,
    /// The sequence number of the next byte that the sender expects.
    pub next: u32,
    /// How many bytes, from `next` on, the sender has room for.
    pub window: u16,
    /// Whether the sender asks for an acknowledgement.
    pub ack: bool,
    pub body: Body<'a>,
}

/// What a segment is for.
#[derive(Clone, Copy, Debug, PartialEq, Eq)]
pub enum Body<'a> {
    /// Bytes of the stream, at most 572.
    Data {
        /// Whether a message ends behind these bytes (EOM). The end takes the sequence number after them.
        end: bool,
        data_: &'a [u8],
    },
    /// A probe if the segment asks for an acknowledgement, and an acknowledgement if not.
    Probe,
    /// A step of the opening of a connection.
    Open {
        kind: OpenKind,
        /// The connection identifier of the end that is to take the packet; 0 in a request, which knows none.
        dest: u16,
    },
    /// Close connection advice: the sender closes the connection.
    Close,
    /// Forward reset: the bytes before `first` that did not arrive are given up.
    Reset,
    /// Forward reset acknowledgement.
    ResetAck,
    /// Retransmit advice: the sender asks for all bytes from `next` on again.
    Advice,
}

/// The packets that open a connection.
#[derive(Clone, Copy, Debug, PartialEq, Eq)]
pub enum OpenKind {
    Request,
    Acknowledgement,
    RequestAndAcknowledgement,
    Denial,
}

impl OpenKind {
    /// The control code of such a packet, 1 to 4.
    pub fn code(self) -> u8
        ensures { result ≡ code_of self }
    {
        match self {
            OpenKind::Request => 1,
            OpenKind::Acknowledgement => 2,
            OpenKind::RequestAndAcknowledgement => 3,
            OpenKind::Denial => 4,
        }
    }

    /// The packet with this control code; none if the code is not 1 to 4.
    pub(crate) fn of_code(code: u8) -> Option<OpenKind>
        ensures some { IfSome result (λ kind. code ≡ code_of kind) }
        ensures none { result ≡ None → (kind : Kind) → code ≢ code_of kind }
    {
        match code {
            1 => Some(OpenKind::Request),
            2 => Some(OpenKind::Acknowledgement),
            3 => Some(OpenKind::RequestAndAcknowledgement),
            4 => Some(OpenKind::Denial),
            _ => None,
        }
    }
}
