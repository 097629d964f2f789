//! The lines on standard error, one for each reason.
ghost use Rattle.std.specs.Prelude.{◌≡◌, ◌≢◌, ◌↔◌, ◌⊎◌, ℕ, List, Some};
ghost use Rattle.at_diagnostics.specs.Diagnostics.{HasTold, TellsLine, TellsReason, TellsReport, TellsStop};
ghost use Rattle.at_diagnostics.specs.Diagnostics.{TellsWrites, file_of, printer_of, told_by};
ghost use Rattle.at_diagnostics.specs.Lines.{IsOneLine, cable_named, cable_told, end_told, event_named, file_named};
ghost use Rattle.at_diagnostics.specs.Lines.{file_told, line_named, line_told, note_told, place_named, reason_told};
ghost use Rattle.at_diagnostics.specs.Lines.{refusal_named, refusal_told, stopped_told, text_told, undriven_told};
ghost use Rattle.at_print.specs.Printers.{HasFailed, Prints};
ghost use Rattle.at_event.specs.Kinds.{number_of};
ghost use Rattle.at_event.specs.declared.Reason.{Reason as Why};

use crate::number_set::NumberSet;
use crate::sentence::{reason_of, sentence_of, unopened_of};
use crate::stop::{Stop, refusal_of};
use at_cable::CableFault;
use at_event::{Reason, Report};
use at_faults::Fault;
use at_print::{Paper, Part, Printer};
use std::alloc::Allocator;
use std::fmt::Display;
use std::io;

/// A writer of reasons, and the name of the file that they are about.
#[derive(Drop)]
pub struct Diagnostics<'a, W> {
    file: &'a [u8],
    printer: Printer<W>,
    // The numbers of the refusals that were told.
    refusals: NumberSet,
}

impl<'a, W: Paper> Diagnostics<'a, W> {
    /// Reasons about the file of this name are written to the writer.
    pub fn new(file: &'a str, writer: W) -> Diagnostics<'a, W>
        ensures file { file_of result ≡ file.now }
        ensures untold { (n : ℕ) → ¬ HasTold result n }
        ensures fresh { ¬ HasFailed (printer_of result) }
        ensures writer { (printer_of result).writer ≡ writer }
    {
        Diagnostics {
            file: file.as_bytes(),
            printer: Printer::new(writer),
            refusals: NumberSet::new(),
        }
    }

    /// Reports why a play ended, with the file's name, the number of the line and the rule. Nothing is reported after a
    /// write that failed.
    pub fn tell_stop(&mut self, stop: Stop)
        ensures { TellsStop W.page stop self.old self.new }
    {
        match stop {
            Stop::Text(fault) => self.tell_text(fault),
            Stop::Event {
                fault,
                at,
                line,
                datagram,
            } => self.tell_event(fault, at, line, datagram),
        }
    }

    // Tells why there is no schedule.
    fn tell_text(&mut self, fault: Fault)
        ensures { TellsReason W.page (text_told (file_of self.old) fault) self.old self.new }
    {
        match fault {
            Fault::Line { number, rule } => self.tell_line(number, rule),
            _ => self.tell_of_file(sentence_of(fault).words()),
        }
    }

    fn tell_of_file(&mut self, reason: &[u8])
        ensures { TellsLine W.page (file_told (file_of self.old) reason.now) self.old self.new }
    {
        self.name_file();
        self.tell_end(reason, None);
    }

    fn name_file(&mut self)
        ensures { TellsLine W.page (file_named (file_of self.old)) self.old self.new }
    {
        let file = self.file;
        self.printer.write_each(&[Part::Text(b"atnode: "), Part::Text(file), Part::Text(b": ")]);
    }

    // The reason, with the number of the refusal if it has one, and the end of the line.
    fn tell_end(&mut self, reason: &[u8], number: Option<u8>)
        ensures { TellsLine W.page (end_told number reason.now) self.old self.new }
    {
        match number {
            Some(number) => self.printer.write_each(&[
                Part::Text(reason),
                Part::Text(b" (refusal "),
                Part::Number(number as u64),
                Part::Text(b")\n"),
            ]),
            None => self
                .printer
                .write_each(&[Part::Text(reason), Part::Text(b"\n")]),
        }
    }

    // Tells why an event was not played, or that there was no memory for any line.
    fn tell_event(
        &mut self,
        fault: at_setup::EventFault,
        at: u32,
        line: usize,
        datagram: Option<u64>,
    )
        ensures { TellsReason W.page (stopped_told (file_of self.old) fault at line) self.old self.new }
    {
        self.name_event(at, line);
        self.tell_end(reason_of(fault, datagram).words(), refusal_of(fault));
    }

    fn name_event(&mut self, at: u32, line: usize)
        ensures { TellsLine W.page (event_named (file_of self.old) at line) self.old self.new }
    {
        if line == 0 {
            self.name_file();
        } else {
            self.name_place(at as usize, line);
            self.printer.write_all(b" was not played: ");
        }
    }

    // An event by its place, and by its line if that is known.
    fn name_place(&mut self, at: usize, line: usize)
        ensures { TellsLine W.page (place_named (file_of self.old) at line) self.old self.new }
    {
        let file = self.file;
        if line == 0 {
            self.printer.write_each(&[
                Part::Text(b"atnode: "),
                Part::Text(file),
                Part::Text(b": event "),
                Part::Number(at as u64),
            ]);
        } else {
            self.printer.write_each(&[
                Part::Text(b"atnode: "),
                Part::Text(file),
                Part::Text(b":"),
                Part::Number(line as u64),
                Part::Text(b": event "),
                Part::Number(at as u64),
            ]);
        }
    }

    /// Reports why a node refused the event of this place, counted from 0, if it did. The event is in the line of this
    /// number, or 0 if that is not known. A number of a refusal is reported once, the first time that it comes. A
    /// number that no refusal has is not reported.
    pub fn tell_report<A: Allocator>(&mut self, report: &Report<A>, at: usize, line: usize)
        ensures { TellsReport W.page report.now at line self.old self.new }
    {
        if let Report::Refused(number) = report {
            self.tell_refused(*number, at, line);
        }
    }

    fn tell_refused(&mut self, number: u8, at: usize, line: usize)
        ensures file { file_of self.new ≡ file_of self.old }
        ensures told { (n : ℕ) → HasTold self.new n ↔ ((n ≡ number) ⊎ HasTold self.old n) }
        ensures once { HasTold self.old number → printer_of self.new ≡ printer_of self.old }
        ensures line { ¬ HasTold self.old number → (why : Why) → number_of why ≡ Some number
            → (reason : List ℕ) × IsOneLine reason × Prints W.page (printer_of self.old) (printer_of self.new)
            (refusal_told (file_of self.old) number at line reason) }
        ensures silent { ((why : Why) → number_of why ≢ Some number) → printer_of self.new ≡ printer_of self.old }
    {
        if self.refusals.insert(number) {
            self.tell_reason(number, at, line);
        }
    }

    fn tell_reason(&mut self, number: u8, at: usize, line: usize)
        ensures file { file_of self.new ≡ file_of self.old }
        ensures told { told_by self.new ≡ told_by self.old }
        ensures line { (why : Why) → number_of why ≡ Some number
            → (reason : List ℕ) × IsOneLine reason × Prints W.page (printer_of self.old) (printer_of self.new)
            (refusal_told (file_of self.old) number at line reason) }
        ensures silent { ((why : Why) → number_of why ≢ Some number) → printer_of self.new ≡ printer_of self.old }
    {
        if let Some(reason) = Reason::of(number) {
            self.tell_known(number, at, line, sentence_of(reason).words());
        }
    }

    fn tell_known(&mut self, number: u8, at: usize, line: usize, reason: &[u8])
        ensures { TellsLine W.page (refusal_told (file_of self.old) number at line reason.now) self.old self.new }
    {
        self.name_refusal(at, line);
        self.tell_end(reason, Some(number));
    }

    fn name_refusal(&mut self, at: usize, line: usize)
        ensures { TellsLine W.page (refusal_named (file_of self.old) at line) self.old self.new }
    {
        self.name_place(at, line);
        self.printer.write_all(b" was refused: ");
    }

    /// Tells that a call of the cable failed at the event of this place, counted from 0.
    pub fn tell_cable(&mut self, at: usize)
        ensures { TellsReason W.page (cable_told (file_of self.old) at) self.old self.new }
    {
        self.tell_cable_fault(at, sentence_of(CableFault).words());
    }

    fn tell_cable_fault(&mut self, at: usize, reason: &[u8])
        ensures { TellsLine W.page (cable_told (file_of self.old) at reason.now) self.old self.new }
    {
        self.name_call(at);
        self.printer.write_each(&[
            Part::Text(reason),
            Part::Text(b"; each call that fails has a line `cable`\n"),
        ]);
    }

    fn name_call(&mut self, at: usize)
        ensures { TellsLine W.page (cable_named (file_of self.old) at) self.old self.new }
    {
        self.name_place(at, 0);
        self.printer.write_all(b": ");
    }

    /// Tells that there was no memory for the event of this place, counted from 0.
    pub fn tell_undriven(&mut self, at: usize)
        ensures { TellsLine W.page (undriven_told (file_of self.old) at) self.old self.new }
    {
        self.name_place(at, 0);
        self.printer.write_all(b" was not driven: out of memory\n");
    }

    /// Tells the reason for which the line of this number, counted from 1, is at fault.
    pub fn tell_line<D: Display + Drop>(&mut self, line: usize, reason: D)
        ensures { TellsReason W.page (line_told (file_of self.old) line) self.old self.new }
    {
        self.tell_of_line(line, sentence_of(reason).words());
    }

    fn tell_of_line(&mut self, line: usize, reason: &[u8])
        ensures { TellsLine W.page (line_told (file_of self.old) line reason.now) self.old self.new }
    {
        self.name_line(line);
        self.tell_end(reason, None);
    }

    fn name_line(&mut self, line: usize)
        ensures { TellsLine W.page (line_named (file_of self.old) line) self.old self.new }
    {
        let file = self.file;
        self.printer.write_each(&[
            Part::Text(b"atnode: "),
            Part::Text(file),
            Part::Text(b":"),
            Part::Number(line as u64),
            Part::Text(b": "),
        ]);
    }

    /// Tells why the file can't be opened, in the system's words.
    pub fn tell_unopened(&mut self, error: io::Error)
        ensures { TellsReason W.page (file_told (file_of self.old)) self.old self.new }
    {
        self.tell_of_file(unopened_of(error).words());
    }

    /// Tells this sentence, which is about no file.
    pub fn tell_note(&mut self, sentence: &str)
        ensures { TellsLine W.page (note_told sentence.now) self.old self.new }
    {
        self.printer.write_all(b"atnode: ");
        self.tell_end(sentence.as_bytes(), None);
    }

    /// Tells that some of what was printed could not be written, if so.
    pub fn tell_writes<P: Paper>(&mut self, printed: &Printer<P>)
        ensures { TellsWrites W.page printed.now self.old self.new }
    {
        if printed.has_failed() {
            let file = self.file;
            self.printer.write_each(&[
                Part::Text(b"atnode: "),
                Part::Text(file),
                Part::Text(b": standard output could not be written to its end\n"),
            ]);
        }
    }

    /// Tells which rule a word, a datagram or its packet breaks, with the number of the refusal if it has one.
    pub fn tell_refusal<F: Display + Drop>(&mut self, fault: F, number: Option<u8>)
        ensures { TellsReason W.page (reason_told number) self.old self.new }
    {
        self.printer.write_all(b"atnode: ");
        self.tell_end(sentence_of(fault).words(), number);
    }
}
