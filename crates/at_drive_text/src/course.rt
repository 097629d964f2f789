//! How far a drive is, and the step that it drives next.
ghost use Rattle.std.specs.Prelude.{◌≡◌, ◌<◌, ◌+◌, ◌-◌, ◌^◌, ◌&&◌, ◌||◌, nat_le, not, true, false, IfErr, OnOk, length};
ghost use Rattle.std.specs.Prelude.{map, slice_get};
ghost use Rattle.at_drive.specs.Drives.{logged, number_of as node_number};
ghost use Rattle.at_drive.specs.Steps.{node_of, numbers_of, stands_in};
ghost use Rattle.at_drive_lines.specs.StepLines.{is_step_line};
ghost use Rattle.at_print.specs.Printers.{IsSettled};
ghost use Rattle.at_drive_text.specs.Courses.{EndsLine, EndsStep, IsGoing, TellsLine, TellsStepOn};
ghost use Rattle.at_drive_text.specs.Driven.{number_of, sent_count};
ghost use Rattle.at_drive_text.specs.Told.{TellsCable, TellsRefusal, TellsStep};

use crate::ending::Ending;
use crate::news::{next_number, write_news};
use at_cable::Cable;
use at_diagnostics::Diagnostics;
use at_drive::{Drive, Log, Step};
use at_drive_lines::step_in;
use at_event::Report;
use at_faults::{Fault, LineFault, Unreadable};
use at_print::{Paper, Printer};
use at_setup::Setup;
use std::alloc::Allocator;

/// How far a drive is.
#[derive(Drop)]
pub(crate) struct Course<'a, A: Allocator> {
    alloc: A,
    setup: &'a Setup<A>,
    // What came of one step, in the room of the step before.
    log: Log<A>,
    at: usize,
    number: usize,
    has_failed: bool,
}

impl<'a, A: Allocator + Copy> Course<'a, A> {
    /// No step was driven, and no datagram was sent.
    pub(crate) fn new(alloc: A, setup: &'a Setup<A>) -> Course<'a, A>
        ensures { IsGoing setup.now 0 0 false result }
    {
        Course {
            alloc,
            setup,
            log: Log::new(alloc),
            at: 0,
            number: 0,
            has_failed: false,
        }
    }

    /// The place of the next step.
    pub(crate) fn at(&self) -> usize
        ensures { result ≡ self.now.at }
    {
        self.at
    }

    /// Drives the step of a line, if it says one, and prints what came of it.
    pub(crate) fn drive_line<C: Cable, W: Paper, E: Paper>(
        &mut self,
        drive: &mut Drive<A>,
        line: &[u8],
        cable: &mut C,
        printer: &mut Printer<W>,
        diagnostics: &mut Diagnostics<'_, E>,
    ) -> Result<(), Ending>
        requires nodes { map node_number drive.old.nodes ≡ numbers_of self.old.setup.now }
        requires room { self.old.at < 2 ^ 64 - 1 }
        ensures told { OnOk result (TellsLine C.sends C.receives W.page E.page (is_step_line line.now) line.now self.old
            drive.old cable.old printer.old diagnostics.old self.new drive.new cable.new printer.new
            diagnostics.new) }
        ensures ended { IfErr result (EndsLine C.sends C.receives W.page E.page line.now self.old drive.old cable.old
            printer.old diagnostics.old self.new drive.new cable.new printer.new diagnostics.new) }
        ensures nodes { map node_number drive.new.nodes ≡ map node_number drive.old.nodes }
    {
        match step_in(self.alloc, self.setup, self.at > 0, line) {
            Ok(Some(step)) => self.drive_step(drive, &step, cable, printer, diagnostics),
            Ok(None) => Ok(()),
            Err(LineFault::NoMemory) => Err(Ending::NoMemory(self.at)),
            Err(LineFault::Unlawful(_)) => {
                Err(Ending::Unread(Fault::Unreadable(Unreadable::Changed)))
            }
        }
    }

    fn drive_step<C: Cable, W: Paper, E: Paper>(
        &mut self,
        drive: &mut Drive<A>,
        step: &Step<A>,
        cable: &mut C,
        printer: &mut Printer<W>,
        diagnostics: &mut Diagnostics<'_, E>,
    ) -> Result<(), Ending>
        requires stands { stands_in (map node_number drive.old.nodes) (node_of step.now) ≡ true }
        requires room { self.old.at < 2 ^ 64 - 1 }
        ensures told { OnOk result (TellsStepOn C.sends C.receives W.page E.page step.now self.old drive.old cable.old
            printer.old diagnostics.old self.new drive.new cable.new printer.new diagnostics.new) }
        // What a step prints is flushed before the next.
        ensures settled { OnOk result (IsSettled W.settles printer.new) }
        ensures ended { IfErr result (EndsStep C.sends C.receives W.page E.page step.now self.old drive.old cable.old
            printer.old diagnostics.old self.new drive.new cable.new printer.new diagnostics.new) }
        ensures nodes { map node_number drive.new.nodes ≡ map node_number drive.old.nodes }
    {
        let at = self.at;
        self.log.clear();
        if drive.step(cable, at, step, &mut self.log).is_err() {
            return Err(Ending::NoMemory(at));
        }
        write_news(printer, at, self.number, &self.log);
        printer.flush();
        tell_news(diagnostics, at, &self.log, self.has_failed);
        self.count();
        if printer.has_failed() {
            return Err(Ending::Unwritten(at));
        }
        Ok(())
    }

    // Counts a step whose log this is.
    fn count(&mut self)
        requires { self.old.at < 2 ^ 64 - 1 }
        ensures at { self.new.at ≡ self.old.at + 1 }
        ensures number { self.new.number
            ≡ number_of (self.old.number + sent_count (slice_get self.old.log.sent.items 0)) }
        ensures failed { self.new.has_failed ≡ (self.old.has_failed || nat_le 1 (length self.old.log.faults.items)) }
        ensures setup { self.new.setup ≡ self.old.setup }
    {
        self.at += 1;
        self.number = next_number(self.number, &self.log);
        self.has_failed = has_failed_by(self.has_failed, &self.log);
    }
}

// Whether a call of the cable failed before a step whose log this is, or at it.
fn has_failed_by<A: Allocator>(before: bool, log: &Log<A>) -> bool
    ensures { result ≡ (before || nat_le 1 (length log.now.faults.items)) }
{
    before || log.faults.len() >= 1
}

// Tells why a node refused what it was asked, if it did, and that a call of the cable failed, the first time.
fn tell_news<A: Allocator, E: Paper>(
    diagnostics: &mut Diagnostics<'_, E>,
    at: usize,
    log: &Log<A>,
    has_failed: bool,
)
    ensures { TellsStep E.page at has_failed (logged log.now) diagnostics.old diagnostics.new }
{
    tell_refusal(diagnostics, at, &log.reports);
    tell_cable(diagnostics, at, is_first(has_failed, &log.faults));
}

// Whether a call of the cable failed, and none before.
fn is_first(has_failed: bool, faults: &[usize]) -> bool
    ensures { result ≡ (not has_failed && nat_le 1 (length faults.now)) }
{
    !has_failed && faults.len() >= 1
}

fn tell_refusal<A: Allocator, E: Paper>(
    diagnostics: &mut Diagnostics<'_, E>,
    at: usize,
    reports: &[Report<A>],
)
    ensures { TellsRefusal E.page at (slice_get reports.now 0) diagnostics.old diagnostics.new }
{
    match reports.first() {
        Some(report) => diagnostics.tell_report(report, at, 0),
        None => {}
    }
}

fn tell_cable<E: Paper>(diagnostics: &mut Diagnostics<'_, E>, at: usize, has_failed: bool)
    ensures { TellsCable E.page at has_failed diagnostics.old diagnostics.new }
{
    if has_failed {
        diagnostics.tell_cable(at);
    }
}
