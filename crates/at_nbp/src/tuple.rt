//! One tuple of a packet: a name, and the address that has it or asks for it.
ghost use Rattle.std.specs.Prelude.{◌≡◌, ◌+◌, ◌≤◌, ◌++◌, ◌↔◌, IsTrue, length, IfOk, IfErr, vec_capacity, vec_len};
ghost use Rattle.at_nbp.specs.Replies.{pattern_of};
ghost use Rattle.at_nbp.specs.Tuples.{IsTuple, FitsStrings, content, tuple_spelling};
ghost use Rattle.at_nbp.specs.Fault.{IsTupleFault};

use crate::fault::NbpFault;
use crate::name::Name;
use crate::strings::{push_string, take_string};
use at_ddp::{Address, Pascal};
use byteorder::{BigEndian, ByteOrder};
use std::alloc::Allocator;

// The bytes of a tuple before its strings: network (2), node, socket, enumerator.
const FIXED_LEN: usize = 5;

// The most bytes of a tuple: each string has its length byte and at most 32 bytes.
pub(crate) const MAX_TUPLE_LEN: usize = FIXED_LEN + 3 * (1 + Pascal::MAX_LEN);

/// A name and the address that has it, as a packet carries them. The strings stay in the bytes that they were read
/// from.
#[derive(Clone, Copy, Debug, PartialEq, Eq)]
pub struct Tuple<'a> {
    /// In a reply the socket that has the name, otherwise the socket that asks.
    pub address: Address,
    /// Which of several names of one socket this is.
    pub enumerator: u8,
    /// 0 to 32 bytes, as the type and the zone.
    pub object: &'a [u8],
    /// The type of the object.
    pub kind: &'a [u8],
    pub zone: &'a [u8],
}

impl<'a> Tuple<'a> {
    /// The name in the tuple, or its pattern. No string is over 32 bytes.
    pub fn name(&self) -> Name
        requires { FitsStrings (content self.now) }
        ensures { result ≡ pattern_of (content self.now) }
    {
        Name {
            object: Pascal::new(self.object).unwrap(),
            kind: Pascal::new(self.kind).unwrap(),
            zone: Pascal::new(self.zone).unwrap(),
        }
    }
}

/// The tuple at the front, and the bytes after it.
pub(crate) fn take_tuple(bytes: &[u8]) -> Result<(Tuple<'_>, &[u8]), NbpFault>
    ensures found { IfOk result (λ r. IsTuple (content r.0) × (bytes.now ≡ tuple_spelling (content r.0) ++ r.1.now)) }
    ensures fault { IfErr result (λ fault. IsTupleFault fault bytes.now) }
{
    if bytes.len() < FIXED_LEN {
        return Err(NbpFault::ShortNbp);
    }
    let (object, after_object) = take_string(&bytes[FIXED_LEN..])?;
    let (kind, after_kind) = take_string(after_object)?;
    let (zone, rest) = take_string(after_kind)?;
    let address = Address {
        net: BigEndian::read_u16(bytes),
        node: bytes[2],
        socket: bytes[3],
    };
    let tuple = Tuple {
        address,
        enumerator: bytes[4],
        object,
        kind,
        zone,
    };
    Ok((tuple, rest))
}

/// Whether no string of the tuple is over 32 bytes.
pub(crate) fn has_strings(tuple: &Tuple<'_>) -> bool
    ensures { IsTrue result ↔ FitsStrings (content tuple.now) }
{
    tuple.object.len() <= Pascal::MAX_LEN
        && tuple.kind.len() <= Pascal::MAX_LEN
        && tuple.zone.len() <= Pascal::MAX_LEN
}

/// The bytes that the tuple takes in a packet, 8 to 104.
pub(crate) fn spelled_len(tuple: &Tuple<'_>) -> usize
    requires { FitsStrings (content tuple.now) }
    ensures len { result ≡ length (tuple_spelling (content tuple.now)) }
    ensures small { result ≤ 104 }
{
    FIXED_LEN + 3 + tuple.object.len() + tuple.kind.len() + tuple.zone.len()
}

/// Appends a tuple. The vector has room for it.
pub(crate) fn push_tuple<A: Allocator>(out: &mut Vec<u8, A>, tuple: &Tuple<'_>)
    requires short { FitsStrings (content tuple.now) }
    requires room { vec_len out.old + length (tuple_spelling (content tuple.now)) ≤ vec_capacity out.old }
    ensures items { out.new.items ≡ out.old.items ++ tuple_spelling (content tuple.now) }
    ensures room { vec_capacity out.old ≤ vec_capacity out.new }
{
    let [high, low] = tuple.address.net.to_be_bytes();
    let fixed = [
        high,
        low,
        tuple.address.node,
        tuple.address.socket,
        tuple.enumerator,
    ];
    out.extend_from_slice(&fixed).unwrap();
    push_string(out, tuple.object);
    push_string(out, tuple.kind);
    push_string(out, tuple.zone);
}
