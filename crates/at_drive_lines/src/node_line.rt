//! The number of a node's line.
ghost use Rattle.std.specs.Prelude.{◌≡◌, ◌↔◌, true, IfErr, IfNone, IfOk, IfSome, IsTrue};
ghost use Rattle.at_faults.specs.Reads.{IsOfRead};
ghost use Rattle.at_drive_lines.specs.NodeLines.{IsFirstLineOf, Names, NoneNames};

use crate::lines::Lines;
use at_faults::Fault;
use at_words::{Words, node_number};

/// The number of the first line, counted from 1, that begins with `node` and this node's number.
pub fn line_of_node<L: Lines>(lines: &mut L, node: u8) -> Result<Option<usize>, Fault>
    // Which lines are left is said if it is known.
    ensures found { IfOk result
        (λ found. IfSome found (λ number. IfSome (L.left lines.old) (λ all. IsFirstLineOf all node number))) }
    ensures none { IfOk result
        (λ found. IfNone found (IfSome (L.left lines.old) (λ all. NoneNames all node))) }
    ensures failed { IfErr result (λ fault. IsOfRead fault × (L.may_fail ≡ true)) }
{
    let mut number = 1usize;
    while lines.advance()? {
        if names(lines.line(), node) {
            return Ok(Some(number));
        }
        number = number.saturating_add(1);
    }
    Ok(None)
}

fn names(line: &[u8], node: u8) -> bool
    ensures { IsTrue result ↔ Names node line.now }
{
    let mut words = Words::of(line);
    if !words.take_if(b"node") {
        return false;
    }
    let Some(word) = words.next() else {
        return false;
    };
    match node_number(word) {
        Some(number) => number == node,
        None => false,
    }
}
