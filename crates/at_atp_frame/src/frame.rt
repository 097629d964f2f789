//! Packets in bytes. A header has eight, numbers with the high byte first:
//!
//! | Byte | Request | Response | Release |
//! |---|---|---|---|
//! | 0 | control | control | control |
//! | 1 | bitmap | sequence number, 0 to 7 | free |
//! | 2, 3 | transaction number | transaction number | transaction number |
//! | 4 to 7 | user bytes | user bytes | free |
//!
//! The bits of the control byte, the highest first:
//!
//! | Bits | Mask | Request | Response | Release |
//! |---|---|---|---|---|
//! | 7, 6 | `0xC0` | 01 | 10 | 11 |
//! | 5 | `0x20` | exactly once (XO) | free | free |
//! | 4 | `0x10` | free | end of message (EOM) | free |
//! | 3 | `0x08` | free | send transaction status (STS) | free |
//! | 2 to 0 | `0x07` | release timer | free | free |
//!
//! Free bits are written as 0, and read as anything. The data follows the header.
ghost use Rattle.std.specs.Prelude.{◌≡◌, ◌≢◌, ◌+◌, ◌<◌, ◌≤◌, ◌++◌, ◌↔◌, length};
ghost use Rattle.std.specs.Prelude.{IfOk, IfErr, OnOk, OnErr, IsOkAnd, IsErrOf, slice_range, vec_len, vec_capacity};
ghost use Rattle.at_atp_frame.specs.Fault.{IsFirstFault};
ghost use Rattle.at_atp_frame.specs.Frames.{Content, content, Spells, CanBeWritten, data_of, spelled, read_timer};
ghost use Rattle.at_atp_frame.specs.Frames.{packet};
ghost use Rattle.at_atp_frame.specs.Reading.{request_of, response_of};

use crate::fault::AtpFault;
use byteorder::{BigEndian, ByteOrder};
use std::alloc::Allocator;

/// The length of a header in bytes.
pub const HEADER_LEN: usize = 8;

/// The most data that a packet carries, in bytes.
pub const MAX_DATA: usize = 578;

/// The greatest length of a packet in bytes.
pub const PACKET_LEN: usize = HEADER_LEN + MAX_DATA;

// The control byte of each kind of packet, with no other bit set.
const REQUEST: u8 = 0x40;

const RESPONSE: u8 = 0x80;

const RELEASE: u8 = 0xC0;

// What stands in the other bits of the control byte.
const FUNCTION: u8 = 0xC0;

const XO: u8 = 0x20;

const EOM: u8 = 0x10;

const STS: u8 = 0x08;

const TIMER: u8 = 0x07;

/// The greatest sequence number of a response.
const LAST: u8 = 7;

/// A decoded ATP packet. Its data stays in the bytes that it was decoded from.
#[derive(Clone, Copy, Debug, PartialEq, Eq)]
pub enum Frame<'a> {
    /// Asks for the packets of an answer.
    Request {
        /// Bit i asks for packet i.
        mask: u8,
        /// Whether the request is exactly-once: the service is to run it at most once.
        xo: bool,
        /// How long the answer is kept without a release, if `xo` is set. 0 means 30 seconds, and 1 to 4 mean 1, 2, 4
        /// and 8 minutes. A requester sends 0, and a responder measures no time.
        timer: u8,
        tid: u16,
        user: [u8; 4],
        data_: &'a [u8],
    },
    /// One packet of an answer.
    Response {
        /// The place of the packet in the answer, 0 to 7.
        sequence_number: u8,
        /// Whether this is the last packet of the answer (EOM).
        eom: bool,
        /// Whether the requester is to ask again for what it still lacks (STS).
        sts: bool,
        tid: u16,
        user: [u8; 4],
        data_: &'a [u8],
    },
    /// Says that the answer arrived complete.
    Release {
        tid: u16,
    },
}

/// Decodes an ATP packet, which is all of a datagram's data.
pub fn decode(input: &[u8]) -> Result<Frame<'_>, AtpFault>
    // What is decoded is spelled there.
    ensures found { IfOk result (λ f. Spells input.now (content f)) }
    // What is spelled there is decoded.
    ensures only { (f : Content) → Spells input.now f → IsOkAnd result (λ g. content g ≡ f) }
    ensures fault { IfErr result (λ fault. IsFirstFault fault input.now) }
{
    parse(input)
}

fn parse(input: &[u8]) -> Result<Frame<'_>, AtpFault>
    ensures found { IfOk result (λ f. Spells input.now (content f)) }
    ensures fault { IfErr result (λ fault. IsFirstFault fault input.now) }
{
    if input.len() < HEADER_LEN {
        return Err(AtpFault::ShortAtp);
    }
    let function = input[0] & FUNCTION;
    if function == 0 {
        return Err(AtpFault::BadFunction);
    }
    if function == RESPONSE && input[1] > LAST {
        return Err(AtpFault::BadSequence);
    }
    if input.len() > HEADER_LEN + MAX_DATA {
        return Err(AtpFault::AtpTooLong);
    }
    Ok(match function {
        REQUEST => request_in(input),
        RESPONSE => response_in(input),
        _ => Frame::Release {
            tid: BigEndian::read_u16(&input[2..]),
        },
    })
}

// The request in these bytes, whose header is complete.
fn request_in(input: &[u8]) -> Frame<'_>
    requires { 8 ≤ length input.now }
    ensures { content result ≡ request_of input.now }
{
    let xo = input[0] & XO != 0;
    Frame::Request {
        mask: input[1],
        xo,
        timer: timer_of(xo, input[0] & TIMER),
        tid: BigEndian::read_u16(&input[2..]),
        user: user_in(input),
        data_: &input[HEADER_LEN..],
    }
}

// The response in these bytes, whose header is complete.
fn response_in(input: &[u8]) -> Frame<'_>
    requires { 8 ≤ length input.now }
    ensures { content result ≡ response_of input.now }
{
    Frame::Response {
        sequence_number: input[1],
        eom: input[0] & EOM != 0,
        sts: input[0] & STS != 0,
        tid: BigEndian::read_u16(&input[2..]),
        user: user_in(input),
        data_: &input[HEADER_LEN..],
    }
}

fn user_in(input: &[u8]) -> [u8; 4]
    requires { 8 ≤ length input.now }
    ensures { result ≡ slice_range input.now 4 8 }
{
    [input[4], input[5], input[6], input[7]]
}

fn timer_of(xo: bool, low: u8) -> u8
    ensures { result ≡ read_timer xo low }
{
    if xo && low <= 4 { low } else { 0 }
}

/// Appends a packet in the canonical spelling, with 0 in the free bits.
pub fn encode<A: Allocator>(frame: &Frame<'_>, out: &mut Vec<u8, A>) -> Result<(), AtpFault>
    requires { CanBeWritten (content frame.now) }
    ensures ok { OnOk result (out.new.items ≡ out.old.items ++ spelled (content frame.now)) }
    ensures err { OnErr result (out.new.items ≡ out.old.items) }
    ensures too_long { IsErrOf result AtpFault.AtpTooLong ↔ (578 < length (data_of (content frame.now))) }
    ensures memory { IfErr result (λ fault. fault ≢ AtpFault.AtpTooLong → fault ≡ AtpFault.NoMemory) }

    // Out of memory only if the vector has no room left.
    ensures room { IsErrOf result AtpFault.NoMemory
        → vec_capacity out.old < vec_len out.old + 8 + length (data_of (content frame.now)) }
{
    let bytes = data_in(frame);
    if bytes.len() > MAX_DATA {
        return Err(AtpFault::AtpTooLong);
    }
    out.reserve(HEADER_LEN + bytes.len())?;
    out.extend_from_slice(&header_of(frame)).unwrap();
    out.extend_from_slice(bytes).unwrap();
    Ok(())
}

pub(crate) fn data_in<'a>(frame: &Frame<'a>) -> &'a [u8]
    ensures { result.now ≡ data_of (content frame.now) }
{
    match frame {
        Frame::Request { data_, .. } => data_,
        Frame::Response { data_, .. } => data_,
        Frame::Release { .. } => &[],
    }
}

// The header that precedes the data in the canonical spelling.
pub(crate) fn header_of(frame: &Frame<'_>) -> [u8; HEADER_LEN]
    requires { CanBeWritten (content frame.now) }
    ensures { result ++ data_of (content frame.now) ≡ spelled (content frame.now) }
{
    match frame {
        Frame::Request {
            mask,
            xo,
            timer,
            tid,
            user,
            ..
        } => header(REQUEST + XO * u8::from(*xo) + *timer, *mask, *tid, *user),
        Frame::Response {
            sequence_number,
            eom,
            sts,
            tid,
            user,
            ..
        } => header(
            RESPONSE + EOM * u8::from(*eom) + STS * u8::from(*sts),
            *sequence_number,
            *tid,
            *user,
        ),
        Frame::Release { tid } => header(RELEASE, 0, *tid, [0; 4]),
    }
}

fn header(control: u8, second: u8, tid: u16, user: [u8; 4]) -> [u8; HEADER_LEN]
    ensures { result ≡ packet control second tid user }
{
    let [high, low] = tid.to_be_bytes();
    [
        control, second, high, low, user[0], user[1], user[2], user[3],
    ]
}
