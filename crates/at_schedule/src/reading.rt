//! The next line of a text that a reader gives, or why there is none.
ghost use Rattle.std.specs.Prelude.{◌≡◌, ◌<◌, Err, Ok, IfErr, IfSome, OnOk, false, length, true};
ghost use Rattle.std.specs.Io.BufRead.{DropsThrough, first_piece};
ghost use Rattle.std.specs.Io.KnownBytes.{IsAtEnd};
ghost use Rattle.at_faults.specs.Reads.{IsOfRead};

use crate::schedule::next_line;
use at_faults::{Fault, Unreadable};
use std::alloc::Allocator;
use std::io::BufRead;

/// Reads the next line of a text into the room, in place of what is there, and without its line feed. False if there is
/// none. The room grows to the longest line, and no other memory is asked for. Memory is missing only for a line that
/// is left.
pub fn read_line<A: Allocator, R: BufRead>(
    reader: &mut R,
    room: &mut Vec<u8, A>,
) -> Result<bool, Fault>
    ensures line { result ≡ Ok true → IfSome (R.remaining reader.old)
        (λ text. (0 < length text) × (room.new.items ≡ first_piece 10 text)) }
    ensures rest { OnOk result (DropsThrough (R.remaining reader.old) (R.remaining reader.new) 10) }
    ensures end { result ≡ Ok false → IsAtEnd (R.remaining reader.old) }
    ensures fault { IfErr result IsOfRead }
    ensures memory { result ≡ Err Fault.NoMemory → IfSome (R.remaining reader.old) (λ text. 0 < length text) }
{
    match next_line(reader, room) {
        Ok(more) => Ok(more),
        Err(error) => Err(fault_of(Fault::from(error), reader)),
    }
}

// A read that was refused memory where nothing is left has failed, and no line lacks memory.
fn fault_of<R: BufRead>(fault: Fault, reader: &mut R) -> Fault
    requires { IsOfRead fault }
    ensures fault { IsOfRead result }
    ensures memory { result ≡ Fault.NoMemory → IfSome (R.remaining reader.old) (λ text. 0 < length text) }
{
    match fault {
        Fault::NoMemory => {
            if has_more(reader) {
                Fault::NoMemory
            } else {
                Fault::Unreadable(Unreadable::Failed)
            }
        }
        _ => fault,
    }
}

// Whether something is left to read.
fn has_more<R: BufRead>(reader: &mut R) -> bool
    ensures { result ≡ true → IfSome (R.remaining reader.old) (λ text. 0 < length text) }
{
    match reader.fill_buf() {
        Ok(bytes) => !bytes.is_empty(),
        Err(_) => false,
    }
}
