//! The lines of a schedule, and the setup that they begin with.
ghost use Rattle.std.specs.Prelude.{◌≡◌, ◌<◌, List, ℕ, false, true, length, IfErr, IfOk, IfSome, OnErr, OnOk};
ghost use Rattle.std.specs.Io.BufRead.{DropsThrough, first_piece, strip_last};
ghost use Rattle.std.specs.Io.KnownBytes.{Consumes, IsAtEnd};
ghost use Rattle.at_faults.specs.declared.rule.Rule.{Rule as Told};
ghost use Rattle.at_schedule.specs.Drafts.{HoldsSetup, IsLineFault};
ghost use Rattle.at_setup.specs.Setups.{is_lawful};
ghost use Rattle.at_setup_lines.specs.Drafts.{IsDraft, IsNoSetup};
ghost use Rattle.at_setup_lines.specs.SetupLines.{IsSetup};

use crate::draft::Draft;
use at_faults::{Fault, LineFault, Rule, Unreadable};
use at_setup::Setup;
use at_setup_lines::laws::each_draft_can_end;
use std::alloc::Allocator;
use std::io;
use std::io::{BufRead, BufReader, Read};

/// Reads the lines of a schedule, all of which have to be lawful, and gives the setup that they begin with.
pub fn read_setup<A: Allocator + Copy, R: Read>(alloc: A, reader: &mut R) -> Result<Setup<A>, Fault>
    ensures lawful { IfOk result (λ s. is_lawful s ≡ true) }
    // What the reader holds is said if it is known.
    ensures said { IfOk result (HoldsSetup (R.remaining reader.old)) }
    ensures fault { IfErr result (IsLineFault A (R.remaining reader.old)) }
{
    each_draft_can_end::<A>();
    let mut lines = BufReader::new(alloc, reader)?;
    let mut line = Vec::new(alloc);
    let mut draft = Draft::new(alloc);
    let mut number = 1usize;
    for _turn in 0..u64::MAX {
        let more = next_line(&mut lines, &mut line)?;
        if !more {
            return end_at(draft, number);
        }
        // The events are dropped, so any network serves.
        match draft.take_line(0, &line) {
            Ok(_) => number = number.saturating_add(1),
            Err(fault) => return Err(fault_at(fault, number, &line)),
        }
    }
    // No text has so many lines.
    Err(Fault::Unreadable(Unreadable::Failed))
}

// The setup of lines after which none comes, or what is missing at the line after the last.
pub(crate) fn end_at<A: Allocator + Copy>(draft: Draft<A>, number: usize) -> Result<Setup<A>, Fault>
    ensures said { IfOk result (λ s. (lines : List (List (List ℕ))) → IsDraft lines draft → IsSetup lines s) }
    ensures net { IfOk result (λ s. s.net ≡ draft.net) }
    ensures only { IfErr result (λ fault. IsNoSetup A draft × ((rule : Told) × (fault ≡ Fault.Line number rule))) }
{
    match draft.finish() {
        Ok(setup) => Ok(setup),
        Err(rule) => Err(Fault::Line { number, rule }),
    }
}

/// Reads the next line of a text into the room, in place of what is there, and without its line feed. False if there is
/// none. The room grows to the longest line, and no other memory is asked for.
pub(crate) fn next_line<A: Allocator, R: BufRead>(
    reader: &mut R,
    room: &mut Vec<u8, A>,
) -> io::Result<bool>
    ensures line { result ≡ Ok true → IfSome (R.remaining reader.old)
        (λ text. (0 < length text) × (room.new.items ≡ first_piece 10 text)) }
    ensures rest { OnOk result (DropsThrough (R.remaining reader.old) (R.remaining reader.new) 10) }
    ensures end { result ≡ Ok false → IsAtEnd (R.remaining reader.old) }
    // What was read of a line before a fault is in the room.
    ensures begun { OnErr result (Consumes (R.remaining reader.old) (R.remaining reader.new) room.new.items) }
{
    room.clear();
    match reader.read_until(b'\n', room) {
        Ok(0) => Ok(false),
        Ok(_) => {
            strip_feed(room);
            Ok(true)
        }
        Err(error) => Err(error),
    }
}

// Takes off the line feed that a line ends with, if it does.
fn strip_feed<A: Allocator>(line: &mut Vec<u8, A>)
    ensures { line.new.items ≡ strip_last 10 line.old.items }
{
    let count = line.len();
    if count == 0 {
        return;
    }
    if line[count - 1] == b'\n' {
        line.truncate(count - 1);
    }
}

/// What is wrong with a text that has this line, counted from 1, at which nothing may follow the lines before it.
pub fn fault_at(fault: LineFault, number: usize, line: &[u8]) -> Fault
    ensures unlawful { (rule : Told) → fault ≡ LineFault.Unlawful rule → (r : Told) × (result ≡ Fault.Line number r) }
    ensures memory { fault ≡ LineFault.NoMemory → result ≡ Fault.NoMemory }
{
    match fault {
        LineFault::Unlawful(rule) => Fault::Line {
            number,
            rule: rule_of(rule, line),
        },
        LineFault::NoMemory => Fault::NoMemory,
    }
}

// A carriage return or a tab is part of a word, which is at fault then. It can't be seen, so it is told first.
fn rule_of(rule: Rule, line: &[u8]) -> Rule {
    if line.last() == Some(&b'\r') {
        Rule::CarriageReturn
    } else if line.contains(&b'\t') {
        Rule::Tab
    } else {
        rule
    }
}
