//! An example of how to read captures: each line of standard input has the bytes of a datagram in hexadecimal digits,
//! and the program prints what they are. It goes on behind a line that is refused.
#![tactic(auto)]

use at_diagnostics::Diagnostics;
use at_print::{Printer, Status};
use at_show::show_text;
use std::io::{self, BufWriter};

fn main(rt: HostRuntime) -> io::Result<()> {
    let writer = BufWriter::new(rt.alloc(), io::writer(&rt))?;
    let mut printer = Printer::new(writer);
    // The bytes of one line after another.
    let mut room = Vec::new(rt.alloc());
    let mut diagnostics = Diagnostics::new("standard input", rt.stderr());
    let mut refused = 0u64;
    for line in rt.lines(rt.alloc()) {
        let line = line?;
        let status = show_text(line.as_bytes(), &mut room, &mut printer, &mut diagnostics);
        if let Status::Failed = status {
            refused = refused.saturating_add(1);
        }
    }
    printer.write_number(refused);
    printer.write_all(b" refused\n");
    printer.finish(Status::Done);
    Ok(())
}
