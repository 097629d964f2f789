//! Datagrams with the short header.
ghost use Rattle.std.specs.Prelude.{◌≡◌, List, ℕ, IfErr, IfOk, IsOkAnd};
ghost use Rattle.at_ddp.specs.Datagram.{Content, content};
ghost use Rattle.at_frames.specs.Short.{BeginsWithShort};
ghost use Rattle.at_frames.specs.ShortFaults.{IsFirstFault};

use crate::numbers::number_at;
use crate::short_fault::ShortFault;
use at_ddp::{Address, Datagram, MAX_DATA};

/// The length of a short header in bytes.
pub const SHORT_HEADER_LEN: usize = 5;

/// Decodes the datagram with the short header at the front of the input, and returns it with the bytes after it. The
/// nodes are those of the frame. The network is 0, and there are no hops and no checksum.
pub fn decode_short(to: u8, from: u8, input: &[u8]) -> Result<(Datagram<'_>, &[u8]), ShortFault>
    // What is decoded is there.
    ensures found { IfOk result (λ r. BeginsWithShort to from input.now (content r.0) r.1.now) }
    // What is there is decoded.
    ensures only { (d : Content) (rest : List ℕ) → BeginsWithShort to from input.now d rest
        → IsOkAnd result (λ r. (content r.0 ≡ d) × (r.1.now ≡ rest)) }
    ensures fault { IfErr result (λ fault. IsFirstFault fault input.now) }
{
    parse(to, from, input)
}

fn parse(to: u8, from: u8, input: &[u8]) -> Result<(Datagram<'_>, &[u8]), ShortFault>
    ensures found { IfOk result (λ r. BeginsWithShort to from input.now (content r.0) r.1.now) }
    ensures fault { IfErr result (λ fault. IsFirstFault fault input.now) }
{
    if input.len() < SHORT_HEADER_LEN {
        return Err(ShortFault::Short);
    }
    let len = usize::from(number_at(input, 0) % 1024);
    if len < SHORT_HEADER_LEN || len > SHORT_HEADER_LEN + MAX_DATA {
        return Err(ShortFault::BadLength);
    }
    if input.len() < len {
        return Err(ShortFault::Truncated);
    }
    let datagram = Datagram {
        hops: 0,
        sum: 0,
        to: Address {
            net: 0,
            node: to,
            socket: input[2],
        },
        from: Address {
            net: 0,
            node: from,
            socket: input[3],
        },
        kind: input[4],
        data_: &input[SHORT_HEADER_LEN..len],
    };
    Ok((datagram, &input[len..]))
}
