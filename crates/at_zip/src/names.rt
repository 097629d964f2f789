//! Names after their length bytes, as a page has them.
ghost use Rattle.std.specs.Prelude.{◌≡◌, ◌++◌, ℕ, List, IfOk, IfErr, OnOk};
ghost use Rattle.at_zip.specs.Fault.{StandsAt, StandsAfterNames};
ghost use Rattle.at_zip.specs.Names.{BeginsWithNames, name_spelling};
ghost use Rattle.at_zip.specs.Zones.{IsName};

use crate::fault::ZipFault;
use at_ddp::Pascal;

/// Checks that so many names are at the front. The error is the first fault.
pub(crate) fn check_names(count: u16, bytes: &[u8]) -> Result<(), ZipFault>
    ensures found { OnOk result ((rest : List ℕ) × BeginsWithNames count bytes.now rest) }
    ensures fault { IfErr result (λ fault. StandsAfterNames fault count bytes.now) }
{
    let mut rest = bytes;
    for _ in 0..count {
        let (_, after) = take_name(rest)?;
        rest = after;
    }
    Ok(())
}

/// The name at the front, and the bytes after it.
pub(crate) fn take_name(bytes: &[u8]) -> Result<(&[u8], &[u8]), ZipFault>
    ensures found { IfOk result (λ r. IsName r.0.now × (bytes.now ≡ name_spelling r.0.now ++ r.1.now)) }
    ensures fault { IfErr result (λ fault. StandsAt fault bytes.now) }
{
    let Some((len, rest)) = bytes.split_first() else {
        return Err(ZipFault::CountMismatch);
    };
    let len = usize::from(*len);
    if len == 0 || len > Pascal::MAX_LEN {
        return Err(ZipFault::BadZone);
    }
    if rest.len() < len {
        return Err(ZipFault::CountMismatch);
    }
    Ok(rest.split_at(len))
}
