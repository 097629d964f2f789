//! What is printed, also on standard error, of drives over a cable in memory, of which each call fails in turn.
ghost use Rattle.at_drive_lines.specs.Drafts.{BeginsSo};
ghost use Rattle.at_schedule.specs.Schedules.{lines_in};

use at_cable::{Cable, MemoryCable};
use at_diagnostics::Diagnostics;
use at_drive_lines::{DriveHead, TextLines, read_head};
use at_drive_text::drive_lines;
use at_print::{Printer, Status};
use std::alloc::{AllocError, Global};
use std::process::Abort;
use std::test::Fail;

const ZONES: &str = "net 10
port 20000
node 1 router zone Lab
node 5 zone Lab
zones Lab Office
call 5 zones
poll 1
poll 5
";

// Which call of the cable fails, what is printed, and what is told.
static ROWS: [(u64, &str, &str); 5] = [
    (
        0,
        "0 begun 0
sent 0 1 00156711000A000A01050680034001000008000001
0 cable
1 idle
2 idle
",
        "atnode: a.txt: event 0: a call of the cable failed; each call that fails has a line `cable`\n",
    ),
    (
        1,
        "0 begun 0
sent 0 1 00156711000A000A01050680034001000008000001
1 cable
2 idle
",
        "atnode: a.txt: event 1: a call of the cable failed; each call that fails has a line `cable`\n",
    ),
    (
        2,
        "0 begun 0
sent 0 1 00156711000A000A01050680034001000008000001
1 served 1
sent 1 5 0020CA71000A000A05018006039000000001000002034C6162064F6666696365
1 cable
2 idle
",
        "atnode: a.txt: event 1: a call of the cable failed; each call that fails has a line `cable`\n",
    ),
    (
        3,
        "0 begun 0
sent 0 1 00156711000A000A01050680034001000008000001
1 served 1
sent 1 5 0020CA71000A000A05018006039000000001000002034C6162064F6666696365
2 cable
",
        "atnode: a.txt: event 2: a call of the cable failed; each call that fails has a line `cable`\n",
    ),
    (
        4,
        "0 begun 0
sent 0 1 00156711000A000A01050680034001000008000001
1 served 1
sent 1 5 0020CA71000A000A05018006039000000001000002034C6162064F6666696365
2 zones Lab Office
",
        "",
    ),
];

// Drives, and gives what is printed and what is told.
fn printed_by<C: Cable>(
    rt: &impl Abort,
    alloc: Global,
    head: &DriveHead,
    text: &[u8],
    cable: &mut C,
) -> (Vec<u8>, Vec<u8>)
    requires { BeginsSo head.now.setup head.now.port (lines_in text.now) }
{
    let mut printed = Vec::new(alloc);
    let mut told = Vec::new(alloc);
    let status = drive_lines(
        alloc,
        &head.setup,
        &mut TextLines::of(text),
        cable,
        &mut Printer::new(&mut printed),
        &mut Diagnostics::new("a.txt", &mut told),
    );
    assert!(rt; status == Status::Done);
    (printed, told)
}

fn read(rt: &impl Abort, alloc: Global, text: &[u8]) -> DriveHead
    ensures { BeginsSo result.setup result.port (lines_in text.now) }
{
    read_head(alloc, &mut TextLines::of(text)).expect(rt, "a fault")
}

// What is printed and told if this call of the cable fails.
fn printed_failing(
    rt: &impl Abort,
    alloc: Global,
    head: &DriveHead,
    text: &[u8],
    call: u64,
) -> Result<(Vec<u8>, Vec<u8>), AllocError>
    requires { BeginsSo head.now.setup head.now.port (lines_in text.now) }
{
    let mut cable = MemoryCable::new(alloc, &[1, 5])?.failing_at(call);
    Ok(printed_by(rt, alloc, head, text, &mut cable))
}

#[test]
fn a_call_of_the_cable_that_fails_is_printed_after_its_event(rt: HostRuntime) -> Result<(), Fail> {
    let text = ZONES.as_bytes();
    let head = read(&rt, rt.alloc(), text);
    assert!(rt; head.port == 20_000);
    for (call, printed, told) in ROWS.iter() {
        let came = printed_failing(&rt, rt.alloc(), &head, text, *call)?;
        assert!(rt; came.0.as_slice() == printed.as_bytes(), "call {call}");
        assert!(rt; came.1.as_slice() == told.as_bytes(), "call {call}");
    }
    Ok(())
}
