//! What the lines of a drive say before its steps.
ghost use Rattle.std.specs.Prelude.{◌≡◌, true, IfErr, IfOk, IfSome};
ghost use Rattle.at_faults.specs.declared.rule.Rule.{Rule as Told};
ghost use Rattle.at_setup.specs.Setups.{is_lawful};
ghost use Rattle.at_drive_lines.specs.Drafts.{BeginsSo, IsDriveFault};

use crate::draft::DriveDraft;
use crate::lines::Lines;
use at_faults::{Fault, LineFault, Rule};
use at_schedule::fault_at;
use at_setup::Setup;
use at_setup_lines::laws::{each_draft_can_end, lines_say_one_setup};
use at_words::Words;
use std::alloc::{Allocator, Global};

/// What the lines of a drive say before its steps.
#[derive(Drop)]
pub struct DriveHead<A: Allocator = Global> {
    pub setup: Setup<A>,
    /// Node n is at this port + n.
    pub port: u16,
}

/// Reads all lines of a drive, which have to be lawful, and gives what they say before the steps. No step is kept.
pub fn read_head<A: Allocator + Copy, L: Lines>(
    alloc: A,
    lines: &mut L,
) -> Result<DriveHead<A>, Fault>
    // Which lines are left is said if it is known.
    ensures said { IfOk result (λ head. IfSome (L.left lines.old) (BeginsSo head.setup head.port)) }
    ensures lawful { IfOk result (λ head. is_lawful head.setup ≡ true) }
    ensures fault { IfErr result (IsDriveFault A (L.left lines.old) L.may_fail) }
{
    each_draft_can_end::<A>();
    lines_say_one_setup::<A>();
    let mut draft = DriveDraft::new(alloc);
    let mut number = 1usize;
    while lines.advance()? {
        if let Err(fault) = draft.take_line(lines.line()) {
            return Err(fault_at(told(fault, lines.line()), number, lines.line()));
        }
        number = number.saturating_add(1);
    }
    match draft.finish() {
        Ok(head) => Ok(head),
        Err(rule) => Err(Fault::Line { number, rule }),
    }
}

// The same fault by the rule on lines of a drive, which has other words than a schedule that is played.
fn told(fault: LineFault, line: &[u8]) -> LineFault
    ensures unlawful { (rule : Told) → fault ≡ LineFault.Unlawful rule → (r : Told) × (result ≡ LineFault.Unlawful r) }
    ensures memory { fault ≡ LineFault.NoMemory → result ≡ LineFault.NoMemory }
{
    match fault {
        LineFault::Unlawful(Rule::FirstWord) => LineFault::Unlawful(first_word_rule(line)),
        _ => fault,
    }
}

// Which rule a line breaks whose first word says nothing where it stands.
fn first_word_rule(line: &[u8]) -> Rule {
    match Words::of(line).next() {
        Some(b"call") | Some(b"timer") | Some(b"poll") => Rule::NetFirst,
        Some(b"port") => Rule::PortOnce,
        Some(b"deliver") | Some(b"forge") => Rule::PlayAlone,
        _ => Rule::DriveFirstWord,
    }
}
