//! The writing of a segment, with 0 in the free bits.
ghost use Rattle.std.specs.Prelude.{◌≡◌, ◌≢◌, ◌+◌, ◌*◌, ◌<◌, ◌≤◌, ◌++◌, ◌↔◌, length};
ghost use Rattle.std.specs.Prelude.{IfErr, OnOk, OnErr, IsErrOf, vec_len, vec_capacity};
ghost use Rattle.at_ddp.specs.Bits.{bit};
ghost use Rattle.at_adsp_frame.specs.Openings.{opening};
ghost use Rattle.at_adsp_frame.specs.Segments.{bits_of, content, data_of, header, part, spelled};

use crate::fault::AdspFault;
use crate::reading::read_dest;
use crate::segment::{
    ACK, ADVICE, Body, CLOSE, CONTROL, EOM, HEADER_LEN, MAX_DATA, OPENING_LEN, PROBE, RESET,
    RESET_ACK, Segment, VERSION,
};
use arrayvec::ArrayVec;
use std::alloc::Allocator;

// The greatest length of what precedes the data.
const HEAD_LEN: usize = HEADER_LEN + OPENING_LEN;

/// Appends a segment in the canonical spelling, with 0 in the free bits. A request to open a connection is to no
/// connection identifier.
pub fn encode<A: Allocator>(segment: &Segment<'_>, out: &mut Vec<u8, A>) -> Result<(), AdspFault>
    ensures ok { OnOk result (out.new.items ≡ out.old.items ++ spelled (content segment.now)) }
    ensures err { OnErr result (out.new.items ≡ out.old.items) }
    ensures too_long { IsErrOf result AdspFault.AdspTooLong ↔ (572 < length (data_of (part segment.now.body))) }
    ensures memory { IfErr result (λ fault. fault ≢ AdspFault.AdspTooLong → fault ≡ AdspFault.NoMemory) }

    // Out of memory only if the vector has no room left.
    ensures room { IsErrOf result AdspFault.NoMemory
        → vec_capacity out.old < vec_len out.old + length (spelled (content segment.now)) }
{
    if data_in(&segment.body).len() > MAX_DATA {
        return Err(AdspFault::AdspTooLong);
    }
    let head = head_of(segment);
    let bytes = data_in(&segment.body);
    out.reserve(head.len() + bytes.len())?;
    out.extend_from_slice(head.as_slice()).unwrap();
    out.extend_from_slice(bytes).unwrap();
    Ok(())
}

pub(crate) fn data_in<'a>(body: &Body<'a>) -> &'a [u8]
    ensures { result.now ≡ data_of (part body.now) }
{
    match body {
        Body::Data { data_, .. } => data_,
        _ => &[],
    }
}

// The canonical header of a segment, and behind it the fields of an opening. Data follows.
pub(crate) fn head_of(segment: &Segment<'_>) -> ArrayVec<u8, HEAD_LEN>
    requires { length (data_of (part segment.now.body)) ≤ 572 }
    ensures begins { result.items ++ data_of (part segment.now.body) ≡ spelled (content segment.now) }
    ensures fits { length result.items + length (data_of (part segment.now.body)) ≤ 585 }
{
    let mut head = ArrayVec::new();
    head.try_extend_from_slice(&header_of(segment)).unwrap();
    if let Body::Open { kind, dest } = &segment.body {
        let fields = opening_to(read_dest(*kind, *dest));
        head.try_extend_from_slice(&fields).unwrap();
    }
    head
}

// The fields of an opening to this destination.
fn opening_to(dest: u16) -> [u8; OPENING_LEN]
    ensures { result ≡ opening dest 0 }
{
    let [version, minor] = VERSION.to_be_bytes();
    let [high, low] = dest.to_be_bytes();
    [version, minor, high, low, 0, 0, 0, 0]
}

fn header_of(segment: &Segment<'_>) -> [u8; HEADER_LEN]
    ensures { result ≡ header (content segment.now) (64 * bit segment.now.ack + bits_of (part segment.now.body)) }
{
    let [s0, s1] = segment.source.to_be_bytes();
    let [f0, f1, f2, f3] = segment.first.to_be_bytes();
    let [n0, n1, n2, n3] = segment.next.to_be_bytes();
    let [w0, w1] = segment.window.to_be_bytes();
    let descriptor = ACK * u8::from(segment.ack) + bits_in(&segment.body);
    [s0, s1, f0, f1, f2, f3, n0, n1, n2, n3, w0, w1, descriptor]
}

// The descriptor without the bit that asks for an acknowledgement.
fn bits_in(body: &Body<'_>) -> u8
    ensures { result ≡ bits_of (part body.now) }
{
    match body {
        Body::Data { end, .. } => EOM * u8::from(*end),
        Body::Probe => CONTROL + PROBE,
        Body::Open { kind, .. } => CONTROL + kind.code(),
        Body::Close => CONTROL + CLOSE,
        Body::Reset => CONTROL + RESET,
        Body::ResetAck => CONTROL + RESET_ACK,
        Body::Advice => CONTROL + ADVICE,
    }
}
