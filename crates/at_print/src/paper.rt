//! What a printer prints to.
ghost use Rattle.std.specs.Prelude.{true, [], Result, OnOk};
ghost use Rattle.std.specs.declared.io.Error.{Error as Fault};
ghost use Rattle.at_print.specs.Papers.{Notes, Page, Writes};

use std::io;
use std::io::Write;

/// What a printer prints to: a writer, or what else takes bytes and reports whether a write failed.
pub trait Paper {
    /// What is known of it.
    ghost page: { Self → Page };

    /// What may come of a flush: the paper before, the answer, and the paper after.
    ghost settles: { Self → Result (Unit {0}) Fault → Self → Type 0 };

    /// Writes all of the bytes.
    fn put(&mut self, bytes: &[u8]) -> io::Result<()>
        ensures noted { Notes (page self.old) (page self.new) result }
        ensures written { OnOk result (Writes (page self.old) (page self.new) bytes.now) };

    /// Hands on what it still holds back.
    fn settle(&mut self) -> io::Result<()>
        ensures noted { Notes (page self.old) (page self.new) result }
        ensures written { OnOk result (Writes (page self.old) (page self.new) []) }
        ensures settled { settles self.old result self.new };
}

impl<W: Write> Paper for W {
    ghost page = { λ w. record { contents = W.contents w; has_failed = true } };

    ghost settles = { λ before answer after. Unit {0} };

    fn put(&mut self, bytes: &[u8]) -> io::Result<()> {
        self.write_all(bytes)
    }

    fn settle(&mut self) -> io::Result<()> {
        self.flush()
    }
}
