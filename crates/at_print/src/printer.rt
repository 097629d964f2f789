//! A writer that keeps in mind whether a write to it failed.
ghost use Rattle.std.specs.Prelude.{◌≡◌, ◌↔◌, true, []};
ghost use Rattle.std.specs.Fmt.{decimal};
ghost use Rattle.at_print.specs.Parts.{part_text, parts_text};
ghost use Rattle.at_print.specs.Printers.{HasFailed, IsSettled, Prints};

use crate::paper::Paper;
use crate::part::Part;
use crate::status::Status;
use itoa::Buffer;

/// Prints to a writer up to the first write that fails, and nothing after that.
#[derive(Drop)]
pub struct Printer<W> {
    writer: W,
    has_failed: bool,
}

impl<W: Paper> Printer<W> {
    pub fn new(writer: W) -> Printer<W>
        ensures fresh { ¬ HasFailed result }
        ensures writer { result.writer ≡ writer }
    {
        Printer {
            writer,
            has_failed: false,
        }
    }

    pub fn write_all(&mut self, bytes: &[u8])
        ensures { Prints W.page self.old self.new bytes.now }
    {
        if !self.has_failed {
            self.has_failed = self.writer.put(bytes).is_err();
        }
    }

    /// Prints a number in decimal digits.
    pub fn write_number(&mut self, number: u64)
        ensures { Prints W.page self.old self.new (decimal number) }
    {
        let mut digits = Buffer::new();
        self.write_all(digits.format(number).as_bytes());
    }

    /// Prints these parts, one after the other.
    pub fn write_each(&mut self, parts: &[Part<'_>])
        ensures { Prints W.page self.old self.new (parts_text parts.now) }
    {
        for part in parts {
            self.write_part(*part);
        }
    }

    fn write_part(&mut self, part: Part<'_>)
        ensures { Prints W.page self.old self.new (part_text part.entry) }
    {
        match part {
            Part::Text(bytes) => self.write_all(bytes),
            Part::Number(number) => self.write_number(number),
        }
    }

    /// Whether a write failed.
    pub fn has_failed(&self) -> bool
        ensures { (result ≡ true) ↔ HasFailed self.now }
    {
        self.has_failed
    }

    /// What was printed to.
    pub fn into_writer(self) -> W
        ensures { result ≡ self.writer }
    {
        self.writer
    }

    /// Flushes the writer.
    pub fn flush(&mut self)
        ensures printed { Prints W.page self.old self.new [] }
        ensures settled { IsSettled W.settles self.new }
    {
        if !self.has_failed {
            self.has_failed = self.writer.settle().is_err();
        }
    }

    /// Flushes, and hands on the status, or `Failed` if a write or the flush failed.
    pub fn finish(&mut self, status: Status) -> Status
        ensures printed { Prints W.page self.old self.new [] }
        ensures settled { IsSettled W.settles self.new }
        ensures done { (result ≡ Status.Done) ↔ ((status ≡ Status.Done) × ¬ HasFailed self.new) }
    {
        self.flush();
        if self.has_failed {
            Status::Failed
        } else {
            status
        }
    }
}
