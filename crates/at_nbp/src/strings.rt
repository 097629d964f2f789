//! Strings after their length byte, as tuples have them.
ghost use Rattle.std.specs.Prelude.{◌≡◌, ◌+◌, ◌≤◌, ◌++◌, length, IfOk, IfErr, vec_capacity, vec_len};
ghost use Rattle.at_nbp.specs.Tuples.{IsString, string_spelling};
ghost use Rattle.at_nbp.specs.Fault.{IsBadString};

use crate::fault::NbpFault;
use at_ddp::Pascal;
use std::alloc::Allocator;

/// The string at the front, which follows its length byte, and the bytes after it.
pub(crate) fn take_string(bytes: &[u8]) -> Result<(&[u8], &[u8]), NbpFault>
    ensures found { IfOk result (λ r. IsString r.0.now × (bytes.now ≡ string_spelling r.0.now ++ r.1.now)) }
    ensures fault { IfErr result (λ fault. (fault ≡ NbpFault.BadString) × IsBadString bytes.now) }
{
    let Some((len, rest)) = bytes.split_first() else {
        return Err(NbpFault::BadString);
    };
    let len = usize::from(*len);
    if len > Pascal::MAX_LEN || rest.len() < len {
        return Err(NbpFault::BadString);
    }
    Ok(rest.split_at(len))
}

/// Appends a string after its length byte. The vector has room for both.
pub(crate) fn push_string<A: Allocator>(out: &mut Vec<u8, A>, text: &[u8])
    requires short { length text.now ≤ 32 }
    requires room { vec_len out.old + 1 + length text.now ≤ vec_capacity out.old }
    ensures items { out.new.items ≡ out.old.items ++ string_spelling text.now }
    ensures len { vec_len out.new ≡ vec_len out.old + 1 + length text.now }
    ensures room { vec_capacity out.old ≤ vec_capacity out.new }
{
    out.push(text.len() as u8).unwrap();
    out.extend_from_slice(text).unwrap();
}
