//! The reading of a segment. Its parts are tested in the order in which faults are reported.
ghost use Rattle.std.specs.Prelude.{◌≡◌, ◌<◌, ◌≤◌, ◌/◌, ◌%◌, ℕ, length, IfOk, IfErr, IsOkAnd};
ghost use Rattle.at_adsp_frame.specs.Fault.{IsFirstFault, IsControlFault, IsOpeningFault, IsPartFault};
ghost use Rattle.at_adsp_frame.specs.Openings.{SpellsOpening, read_dest};
ghost use Rattle.at_adsp_frame.specs.Segments.{Content, Data, Open, Names, SpellsPart, Spells, content, part};
ghost use Rattle.at_adsp_frame.specs.Reading.{bits_beside_ack};

use crate::fault::AdspFault;
use crate::segment::{
    ACK, ADVICE, ATTENTION, Body, CLOSE, CODE, CONTROL, EOM, HEADER_LEN, MAX_DATA, OPENING_LEN,
    OpenKind, PROBE, RESET, RESET_ACK, Segment, VERSION,
};
use byteorder::{BigEndian, ByteOrder};

/// Decodes a segment, which is all of a datagram's data. What follows a control packet is ignored.
pub fn decode(input: &[u8]) -> Result<Segment<'_>, AdspFault>
    // What is decoded is spelled there.
    ensures found { IfOk result (λ s. Spells input.now (content s)) }
    // What is spelled there is decoded.
    ensures only { (s : Content) → Spells input.now s → IsOkAnd result (λ t. content t ≡ s) }
    ensures fault { IfErr result (λ fault. IsFirstFault fault input.now) }
{
    parse(input)
}

fn parse(input: &[u8]) -> Result<Segment<'_>, AdspFault>
    ensures found { IfOk result (λ s. Spells input.now (content s)) }
    ensures fault { IfErr result (λ fault. IsFirstFault fault input.now) }
{
    if input.len() < HEADER_LEN {
        return Err(AdspFault::ShortAdsp);
    }
    let descriptor = input[12];
    if descriptor & ATTENTION != 0 {
        return Err(AdspFault::Attention);
    }
    let body = body_in(descriptor, &input[HEADER_LEN..])?;
    Ok(Segment {
        source: BigEndian::read_u16(input),
        first: BigEndian::read_u32(&input[2..]),
        next: BigEndian::read_u32(&input[6..]),
        window: BigEndian::read_u16(&input[10..]),
        ack: descriptor & ACK != 0,
        body,
    })
}

// What a descriptor and the bytes behind it say.
fn body_in(descriptor: u8, rest: &[u8]) -> Result<Body<'_>, AdspFault>
    requires { descriptor / 16 % 2 ≡ 0 }
    ensures found { IfOk result (λ b. SpellsPart (bits_beside_ack descriptor) rest.now (part b)) }
    ensures fault { IfErr result (λ fault. IsPartFault fault descriptor rest.now) }
{
    if descriptor & CONTROL == 0 {
        data_in(descriptor & EOM != 0, rest)
    } else {
        control_in(descriptor & CODE, rest)
    }
}

fn data_in(end: bool, bytes: &[u8]) -> Result<Body<'_>, AdspFault>
    ensures found { IfOk result (λ b. (part b ≡ Data end bytes.now) × (length bytes.now ≤ 572)) }
    ensures fault { IfErr result (λ fault. (fault ≡ AdspFault.AdspTooLong) × (572 < length bytes.now)) }
{
    if bytes.len() > MAX_DATA {
        return Err(AdspFault::AdspTooLong);
    }
    Ok(Body::Data { end, data_: bytes })
}

// What a control code and the bytes behind it say.
fn control_in(code: u8, rest: &[u8]) -> Result<Body<'_>, AdspFault>
    ensures found { IfOk result (λ b. Names code rest.now (part b)) }
    ensures fault { IfErr result (λ fault. IsControlFault fault code rest.now) }
{
    if let Some(kind) = OpenKind::of_code(code) {
        return opening_in(kind, rest);
    }
    match code {
        PROBE => Ok(Body::Probe),
        CLOSE => Ok(Body::Close),
        RESET => Ok(Body::Reset),
        RESET_ACK => Ok(Body::ResetAck),
        ADVICE => Ok(Body::Advice),
        _ => Err(AdspFault::BadControl),
    }
}

// An opening of a connection, by the fields behind its header.
fn opening_in(kind: OpenKind, fields: &[u8]) -> Result<Body<'_>, AdspFault>
    ensures found { IfOk result (λ b. (dest : ℕ) × (part b ≡ Open kind dest) × SpellsOpening fields.now kind dest) }
    ensures fault { IfErr result (λ fault. IsOpeningFault fault fields.now) }
{
    if fields.len() < OPENING_LEN {
        return Err(AdspFault::ShortAdsp);
    }
    if BigEndian::read_u16(fields) != VERSION {
        return Err(AdspFault::BadVersion);
    }
    Ok(Body::Open {
        kind,
        dest: read_dest(kind, BigEndian::read_u16(&fields[2..])),
    })
}

// The destination that this field says.
pub(crate) fn read_dest(kind: OpenKind, field: u16) -> u16
    ensures { result ≡ read_dest kind field }
{
    if matches!(kind, OpenKind::Request) {
        0
    } else {
        field
    }
}
