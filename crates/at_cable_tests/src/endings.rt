//! Ends of plays that no file and no pipe brings about: a read that fails without a number of the system, and a paper
//! to which no write fails.
ghost use Rattle.std.specs.Prelude.{false, None};

use at_diagnostics::{Diagnostics, Stop, write_stop};
use at_print::{Paper, Printer, Status};
use std::io;
use std::io::ErrorKind;

const UNREAD: &str = "atnode: a.txt: can't be read to its end\n";

#[test]
fn a_read_that_fails_without_a_number_is_told_without_a_reason(rt: HostRuntime) {
    let stop = Stop::from(io::Error::from(ErrorKind::NotSeekable));
    let mut printed = Vec::new(rt.alloc());
    let mut told = Vec::new(rt.alloc());
    write_stop(&mut Printer::new(&mut printed), stop);
    Diagnostics::new("a.txt", &mut told).tell_stop(stop);
    assert!(rt; printed.as_slice() == b"fault 0\n".as_slice());
    assert!(rt; told.as_slice() == UNREAD.as_bytes());
}

/// Takes all that is printed, and counts how often.
#[derive(Drop)]
struct Unfailing {
    count: u64,
}

impl Paper for Unfailing {
    ghost page = { λ _. record { contents = None; has_failed = false } };

    ghost settles = { λ before answer after. Unit {0} };

    fn put(&mut self, _bytes: &[u8]) -> io::Result<()> {
        self.count = self.count.saturating_add(1);
        Ok(())
    }

    fn settle(&mut self) -> io::Result<()> {
        self.put(b"")
    }
}

#[test]
fn what_is_printed_onto_what_no_write_to_fails_is_done(rt: HostRuntime) {
    let mut printer = Printer::new(Unfailing { count: 0 });
    let stop = Stop::no_memory(0, 0);
    write_stop(&mut printer, stop);
    Diagnostics::new("a.txt", Unfailing { count: 0 }).tell_stop(stop);
    assert!(rt; printer.finish(Status::Done).code() == 0);
    assert!(rt; !printer.has_failed());
}
