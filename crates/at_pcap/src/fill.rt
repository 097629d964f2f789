//! Reading of a number of bytes, however the reader splits them.
ghost use Rattle.std.specs.Prelude.{◌≤◌, ◌<◌, length, take, IfOk};
ghost use Rattle.std.specs.Io.KnownBytes.{Consumes, IsAtEnd};

use std::io;
use std::io::{ErrorKind, Read};

/// Reads until the buffer is full or the reader is at its end, and returns how many bytes were read. A read that was
/// interrupted is tried again.
pub(crate) fn fill<R: Read>(reader: &mut R, buffer: &mut [u8]) -> io::Result<usize>
    ensures bound { IfOk result (λ n. n ≤ length buffer.new) }
    ensures bytes { IfOk result (λ n. Consumes (R.remaining reader.old) (R.remaining reader.new)
        (take n buffer.new)) }
    ensures end { IfOk result (λ n. n < length buffer.new → IsAtEnd (R.remaining reader.new)) }
{
    let mut len = 0;
    for _ in 0..u64::MAX {
        if len >= buffer.len() {
            return Ok(len);
        }
        match reader.read(&mut buffer[len..]) {
            Ok(0) => return Ok(len),
            Ok(count) => len += count,
            Err(error) if error.kind() == ErrorKind::Interrupted => {}
            Err(error) => return Err(error),
        }
    }
    Err(io::Error::from(ErrorKind::Other))
}
