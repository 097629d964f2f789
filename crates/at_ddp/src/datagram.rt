//! Reading and writing of datagrams with the extended header.
ghost use Rattle.std.specs.Prelude.{◌≡◌, ◌≢◌, ◌+◌, ◌<◌, ◌≤◌, ◌++◌, ◌↔◌, List, ℕ, length, IfOk, IfErr, OnOk, OnErr};
ghost use Rattle.std.specs.Prelude.{IsOkAnd, IsErrOf, vec_len, vec_capacity};
ghost use Rattle.at_ddp.specs.Datagram.{Content, content, BeginsWith, canonical};
ghost use Rattle.at_ddp.specs.Fault.{IsFirstFault, stated_length};

use crate::address::Address;
use crate::fault::DdpFault;
use crate::sum::{add_to_sum, close_sum, rotating_sum};
use byteorder::{BigEndian, ByteOrder};
use std::alloc::Allocator;

/// The length of a header in bytes.
pub const HEADER_LEN: usize = 13;

/// The most data that a datagram carries, in bytes.
pub const MAX_DATA: usize = 586;

/// A decoded datagram. Its data stays in the bytes that it was decoded from.
#[derive(Clone, Copy, Debug, PartialEq, Eq)]
pub struct Datagram<'a> {
    /// How many routers the datagram has passed, 0 to 15.
    pub hops: u8,
    /// The checksum field; 0 means that no checksum was computed.
    pub sum: u16,
    pub to: Address,
    pub from: Address,
    /// The protocol of the data: 2 for NBP, 3 for ATP, 7 for ADSP.
    pub kind: u8,
    pub data_: &'a [u8],
}

/// Decodes the datagram at the front of the input, and returns it with the bytes after it. The header says its length.
pub fn decode(input: &[u8]) -> Result<(Datagram<'_>, &[u8]), DdpFault>
    // What is decoded is spelled there.
    ensures found { IfOk result (λ r. BeginsWith input.now (content r.0) r.1.now) }
    // What is spelled there is decoded.
    ensures only { (d : Content) (rest : List ℕ) → BeginsWith input.now d rest
        → IsOkAnd result (λ r. (content r.0 ≡ d) × (r.1.now ≡ rest)) }
    ensures fault { IfErr result (λ fault. IsFirstFault fault input.now) }
{
    parse(input)
}

fn parse(input: &[u8]) -> Result<(Datagram<'_>, &[u8]), DdpFault>
    ensures found { IfOk result (λ r. BeginsWith input.now (content r.0) r.1.now) }
    ensures fault { IfErr result (λ fault. IsFirstFault fault input.now) }
{
    let len = stated_len(input)?;
    let sum = BigEndian::read_u16(&input[2..]);
    if sum != 0 && sum != rotating_sum(&input[4..len]) {
        return Err(DdpFault::BadSum);
    }
    let datagram = Datagram {
        hops: input[0] / 4 % 16,
        sum,
        to: Address {
            net: BigEndian::read_u16(&input[4..]),
            node: input[8],
            socket: input[10],
        },
        from: Address {
            net: BigEndian::read_u16(&input[6..]),
            node: input[9],
            socket: input[11],
        },
        kind: input[12],
        data_: &input[HEADER_LEN..len],
    };
    Ok((datagram, &input[len..]))
}

/// The length that the header states, if a datagram may have it and the input has so many bytes.
fn stated_len(input: &[u8]) -> Result<usize, DdpFault>
    ensures len { IfOk result (λ len. len ≡ stated_length input.now) }
    ensures in_range { IfOk result (λ len. (13 ≤ len) × (len ≤ 599)) }
    ensures whole { IfOk result (λ len. len ≤ length input.now) }
    ensures fault { IfErr result (λ fault. IsFirstFault fault input.now) }
{
    if input.len() < HEADER_LEN {
        return Err(DdpFault::Short);
    }
    let len = usize::from(BigEndian::read_u16(input) % 1024);
    if len < HEADER_LEN || len > HEADER_LEN + MAX_DATA {
        return Err(DdpFault::BadLength);
    }
    if input.len() < len {
        return Err(DdpFault::Truncated);
    }
    Ok(len)
}

/// Appends a datagram in the canonical spelling: no hops, a computed checksum, and 0 in the free bits.
pub fn encode<A: Allocator>(
    to: Address,
    from: Address,
    kind: u8,
    bytes: &[u8],
    out: &mut Vec<u8, A>,
) -> Result<(), DdpFault>
    ensures ok { OnOk result (out.new.items ≡ out.old.items ++ canonical to from kind bytes.now) }
    ensures err { OnErr result (out.new.items ≡ out.old.items) }
    ensures too_long { IsErrOf result DdpFault.TooLong ↔ (586 < length bytes.now) }
    ensures memory { IfErr result (λ fault. fault ≢ DdpFault.TooLong → fault ≡ DdpFault.NoMemory) }

    // Out of memory only if the vector has no room left.
    ensures room { IsErrOf result DdpFault.NoMemory → vec_capacity out.old < vec_len out.old + 13 + length bytes.now }
{
    if bytes.len() > MAX_DATA {
        return Err(DdpFault::TooLong);
    }
    out.reserve(HEADER_LEN + bytes.len())?;
    out.extend_from_slice(&header_of(to, from, kind, bytes, &[]))
        .unwrap();
    out.extend_from_slice(bytes).unwrap();
    Ok(())
}

/// The header that precedes data in two parts in the canonical spelling.
pub(crate) fn header_of(
    to: Address,
    from: Address,
    kind: u8,
    front: &[u8],
    back: &[u8],
) -> [u8; HEADER_LEN]
    requires { length front.now + length back.now ≤ 586 }
    ensures { result ++ (front.now ++ back.now) ≡ canonical to from kind (front.now ++ back.now) }
{
    let mut header = [0; HEADER_LEN];
    BigEndian::write_u16(&mut header, (HEADER_LEN + front.len() + back.len()) as u16);
    BigEndian::write_u16(&mut header[4..], to.net);
    BigEndian::write_u16(&mut header[6..], from.net);
    header[8] = to.node;
    header[9] = from.node;
    header[10] = to.socket;
    header[11] = from.socket;
    header[12] = kind;
    let addressed = add_to_sum(0, &header[4..]);
    let sum = close_sum(add_to_sum(add_to_sum(addressed, front), back));
    BigEndian::write_u16(&mut header[2..], sum);
    header
}
