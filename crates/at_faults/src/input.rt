//! The bytes of a schedule.
ghost use Rattle.std.specs.Prelude.{◌≡◌, ◌<◌, ◌≤◌, length, IfErr, IfOk, IfSome, OnOk, vec_len};
ghost use Rattle.at_faults.specs.Reads.{IsOfBytes};
ghost use Rattle.at_faults.specs.declared.fault.Fault.TheVariants as of_text;
ghost use Rattle.at_faults.specs.declared.fault.Unreadable.TheVariants.{TooLong};

use crate::fault::{Fault, Unreadable};
use std::alloc::Allocator;
use std::io::{ErrorKind, Read};

/// How many bytes a schedule has at most.
pub const MAX_LEN: usize = 67_108_864;

/// Reads a schedule to its end. It is too long if it has more than `MAX_LEN` bytes.
pub fn read_bytes<A: Allocator, R: Read>(alloc: A, reader: &mut R) -> Result<Vec<u8, A>, Fault>
    ensures fits { IfOk result (λ bytes. vec_len bytes ≤ MAX_LEN) }
    // This and the next are said if it is known what the reader holds.
    ensures whole { IfOk result (λ bytes. IfSome (R.remaining reader.old) (λ all. bytes.items ≡ all)) }
    ensures long { IfErr result (λ e. e ≡ of_text.Unreadable TooLong
        → IfSome (R.remaining reader.old) (λ all. MAX_LEN < length all)) }
    ensures fault { IfErr result IsOfBytes }
{
    read_at_most(alloc, reader, MAX_LEN)
}

/// Reads to the end what is to have at most `most` bytes, and is too long otherwise.
pub fn read_at_most<A: Allocator, R: Read>(
    alloc: A,
    reader: &mut R,
    most: usize,
) -> Result<Vec<u8, A>, Fault>
    ensures fits { IfOk result (λ bytes. vec_len bytes ≤ most) }
    // This and the next are said if it is known what the reader holds.
    ensures whole { IfOk result (λ bytes. IfSome (R.remaining reader.old) (λ all. bytes.items ≡ all)) }
    ensures long { IfErr result (λ e. e ≡ of_text.Unreadable TooLong
        → IfSome (R.remaining reader.old) (λ all. most < length all)) }
    ensures fault { IfErr result IsOfBytes }
{
    let mut bytes = Vec::new(alloc);
    let mut part = [0; 4096];
    for _ in 0..u64::MAX {
        match reader.read(&mut part) {
            Ok(0) => return Ok(bytes),
            Ok(len) if len > most - bytes.len() => {
                return Err(Fault::Unreadable(Unreadable::TooLong));
            }
            Ok(len) => bytes.extend_from_slice(&part[..len])?,
            Err(error) if error.kind() == ErrorKind::Interrupted => {}
            Err(error) => return Err(Fault::Unreadable(Unreadable::from(error))),
        }
    }
    Err(Fault::Unreadable(Unreadable::Failed))
}

/// Reads to the end, and returns whether this is too much for a schedule.
pub fn check_length<R: Read>(reader: &mut R) -> Result<(), Fault>
    // This and the next are said if it is known what the reader holds.
    ensures fits { OnOk result (IfSome (R.remaining reader.old) (λ all. length all ≤ MAX_LEN)) }
    ensures long { IfErr result (λ e. e ≡ of_text.Unreadable TooLong
        → IfSome (R.remaining reader.old) (λ all. MAX_LEN < length all)) }
    ensures fault { IfErr result IsOfBytes }
{
    let mut left = MAX_LEN;
    let mut part = [0; 4096];
    for _ in 0..u64::MAX {
        match reader.read(&mut part) {
            Ok(0) => return Ok(()),
            Ok(len) if len > left => return Err(Fault::Unreadable(Unreadable::TooLong)),
            Ok(len) => left -= len,
            Err(error) if error.kind() == ErrorKind::Interrupted => {}
            Err(error) => return Err(Fault::Unreadable(Unreadable::from(error))),
        }
    }
    Err(Fault::Unreadable(Unreadable::Failed))
}
