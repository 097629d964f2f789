//! A packet in bytes:
//!
//! | Bytes | Field |
//! |---|---|
//! | 0 | high four bits: function; low four bits: number of tuples |
//! | 1 | identifier of the lookup |
//! | 2- | the tuples |
//!
//! A tuple is network (2), node, socket and enumerator, and then object, type and zone, each after its length byte.
ghost use Rattle.std.specs.Prelude.{◌≡◌, ◌≢◌, ◌+◌, ◌*◌, ◌<◌, ◌≤◌, ◌++◌, ◌↔◌, List, ℕ, length, map, All, IfOk, IfErr};
ghost use Rattle.std.specs.Prelude.{OnOk, OnErr, OnSome, IfSome, IsOkAnd, IsErrOf, IsTrue, vec_len, vec_capacity};
ghost use Rattle.std.specs.List.{flat_map};
ghost use Rattle.at_nbp.specs.Tuples.{FitsStrings, content, tuple_spelling};
ghost use Rattle.at_nbp.specs.Packets.{Content, BeginsWith, packet_content, spelling, HasCount};
ghost use Rattle.at_nbp.specs.Fault.{IsFirstFault};
ghost use Rattle.at_nbp.specs.declared.fault.NbpFault.{NbpFault as Fault};

use crate::fault::NbpFault;
use crate::function::Function;
use crate::tuple::{Tuple, has_strings, push_tuple, spelled_len};
use crate::tuples::{Tuples, take_tuples};
use std::alloc::Allocator;

/// The most tuples of a packet.
pub const MAX_TUPLES: usize = 15;

// The bytes before the tuples.
pub(crate) const HEADER_LEN: usize = 2;

// The first byte holds the function in its high four bits, and the number of tuples in the others.
const COUNTS: u8 = 16;

/// A decoded packet. Its tuples stay in the bytes that it was decoded from.
#[derive(Drop)]
pub struct Packet<'a> {
    pub function: Function,
    /// The identifier of the lookup.
    pub id: u8,
    /// One tuple if the packet asks, and 0 to 15 in a reply.
    pub tuples: Tuples<'a>,
}

/// Decodes the packet at the front of the input, and returns it with the bytes after it. The packet says how many
/// tuples it has.
pub fn decode(input: &[u8]) -> Result<(Packet<'_>, &[u8]), NbpFault>
    // What is decoded is spelled there.
    ensures found { IfOk result (λ r. BeginsWith input.now (packet_content r.0) r.1.now) }
    // It has as many tuples as it may.
    ensures counted { IfOk result (λ r. HasCount r.0.function (length r.0.tuples)) }
    // What is spelled there is decoded.
    ensures only { (p : Content) (rest : List ℕ) → BeginsWith input.now p rest
        → IsOkAnd result (λ r. (packet_content r.0 ≡ p) × (r.1.now ≡ rest)) }
    // The refusal is the first fault of the input, and an input with a fault is refused.
    ensures fault { IfErr result (λ fault. IsFirstFault fault input.now) }
    ensures refused { (fault : Fault) → IsFirstFault fault input.now → IsErrOf result fault }
{
    parse(input)
}

fn parse(input: &[u8]) -> Result<(Packet<'_>, &[u8]), NbpFault>
    ensures found { IfOk result (λ r. BeginsWith input.now (packet_content r.0) r.1.now) }
    ensures fault { IfErr result (λ fault. IsFirstFault fault input.now) }
{
    if input.len() < HEADER_LEN {
        return Err(NbpFault::ShortNbp);
    }
    let Some(function) = Function::of_code(input[0] / COUNTS) else {
        return Err(NbpFault::BadNbpFunction);
    };
    let count = input[0] % COUNTS;
    if !has_count(function, usize::from(count)) {
        return Err(NbpFault::BadCount);
    }
    let (tuples, rest) = take_tuples(count, &input[HEADER_LEN..])?;
    let packet = Packet {
        function,
        id: input[1],
        tuples,
    };
    Ok((packet, rest))
}

/// Whether a packet of this function may have so many tuples.
fn has_count(function: Function, count: usize) -> bool
    ensures { IsTrue result ↔ HasCount function count }
{
    if matches!(function, Function::Reply) {
        count <= MAX_TUPLES
    } else {
        count == 1
    }
}

/// Appends a packet. A packet other than a reply has one tuple, and a string at most 32 bytes.
pub fn encode<A: Allocator>(
    function: Function,
    id: u8,
    tuples: &[Tuple<'_>],
    out: &mut Vec<u8, A>,
) -> Result<(), NbpFault>
    ensures ok { OnOk result (out.new.items ≡ out.old.items
        ++ spelling (record { function = function; id = id; tuples = map content tuples.now })) }
    ensures err { OnErr result (out.new.items ≡ out.old.items) }
    ensures bad_count { IsErrOf result NbpFault.BadCount ↔ (¬ HasCount function (length tuples.now)) }
    ensures bad_string { IsErrOf result NbpFault.BadString
        ↔ (HasCount function (length tuples.now) × (¬ All FitsStrings (map content tuples.now))) }
    ensures grows { vec_capacity out.old ≤ vec_capacity out.new }
    // Out of memory only if the vector has no room left.
    ensures room { IsErrOf result NbpFault.NoMemory → vec_capacity out.old < vec_len out.old
        + length (spelling (record { function = function; id = id; tuples = map content tuples.now })) }
    ensures memory { IfErr result (λ fault. fault ≢ NbpFault.BadCount → fault ≢ NbpFault.BadString
        → fault ≡ NbpFault.NoMemory) }
{
    if !has_count(function, tuples.len()) {
        return Err(NbpFault::BadCount);
    }
    let Some(len) = spelled_lens(tuples) else {
        return Err(NbpFault::BadString);
    };
    out.reserve(HEADER_LEN + len)?;
    out.push(function.code() * COUNTS + tuples.len() as u8)
        .unwrap();
    out.push(id).unwrap();
    push_tuples(out, tuples);
    Ok(())
}

/// Writes a reply in the place of what the bytes were. They have room for it, and each string has at most 32 bytes.
pub(crate) fn write_reply<A: Allocator>(id: u8, tuples: &[Tuple<'_>], bytes: &mut Vec<u8, A>)
    requires few { length tuples.now ≤ 15 }
    requires short { All FitsStrings (map content tuples.now) }
    requires room { length (spelling (record { function = Function.Reply; id = id; tuples = map content tuples.now }))
        ≤ vec_capacity bytes.old }
    ensures items { bytes.new.items
        ≡ spelling (record { function = Function.Reply; id = id; tuples = map content tuples.now }) }
    ensures room { vec_capacity bytes.old ≤ vec_capacity bytes.new }
{
    bytes.clear();
    encode(Function::Reply, id, tuples, bytes).unwrap();
}

/// The bytes that the tuples take in a packet; none if a string is over 32 bytes.
fn spelled_lens(tuples: &[Tuple<'_>]) -> Option<usize>
    requires { length tuples.now ≤ 15 }
    ensures fits { OnSome result (All FitsStrings (map content tuples.now)) }
    ensures len { IfSome result (λ len. len ≡ length (flat_map tuple_spelling (map content tuples.now))) }
    ensures small { IfSome result (λ len. len ≤ 104 * 15) }
    ensures none { result ≡ None → ¬ All FitsStrings (map content tuples.now) }
{
    let mut len = 0;
    for tuple in tuples {
        if !has_strings(tuple) {
            return None;
        }
        len += spelled_len(tuple);
    }
    Some(len)
}

/// Appends the tuples. The vector has room for them.
fn push_tuples<A: Allocator>(out: &mut Vec<u8, A>, tuples: &[Tuple<'_>])
    requires short { All FitsStrings (map content tuples.now) }
    requires room { vec_len out.old + length (flat_map tuple_spelling (map content tuples.now)) ≤ vec_capacity out.old }
    ensures items { out.new.items ≡ out.old.items ++ flat_map tuple_spelling (map content tuples.now) }
    ensures grows { vec_capacity out.old ≤ vec_capacity out.new }
{
    for tuple in tuples {
        push_tuple(out, tuple);
    }
}
