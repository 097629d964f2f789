//! What every file that was opened promises.
ghost use Rattle.std.specs.Prelude.{Result};
ghost use Rattle.std.specs.Io.KnownBytes.{Keeps};
ghost use Rattle.std.specs.Io.Seek.{MovesTo};
ghost use Rattle.std.specs.declared.io.Error.{Error as Fault};

use std::io;
use std::io::{Read, Seek};

/// What was opened to be read. A file can be sent back to its beginning; a pipe can't.
pub trait Opened: Read {
    /// What may come of sending it back: it before, the answer, and it after.
    ghost goes_back: { Self → Result (Unit {0}) Fault → Self → Type 0 };

    /// Sends it back to its beginning.
    fn send_back(&mut self) -> io::Result<()>
        ensures went { goes_back self.old result self.new };
}

impl<F: Read + Seek> Opened for F {
    ghost goes_back = { λ before answer after.
        MovesTo (F.stream_position before) (F.stream_position after) 0 answer
        × Keeps (F.stream_bytes before) (F.stream_bytes after) };

    fn send_back(&mut self) -> io::Result<()> {
        self.rewind()
    }
}
