//! Drives by the text of a schedule, and what is printed of their logs.
use at_cable::Cable;
use at_drive::{Log, Step, drive, has_all};
use at_print::{Printer, write_event};
use at_schedule::{Draft, read_setup};
use at_setup::{Event, Setup};
use std::alloc::{AllocError, Global};
use std::process::Abort;

/// Node 5 asks the router for the zone list.
pub(crate) const ZONE_LIST: &str = "net 10
node 1 router zone Lab
node 5 zone Lab
zones Lab Office
call 5 zones
deliver 0 1
deliver 1 5
";

pub(crate) const ZONE_LIST_REPORTS: &str = "0 begun 0
0 served 1
0 zones Lab Office
";

/// Node 5 reads the zone list, finds a name in a zone that it picked, and writes to the node that has it. What the
/// router relays comes to every node, itself included.
pub(crate) const SESSION: &str = "net 10
node 1 router zone Lab
node 5 zone Lab
node 7 zone Office
zones Lab Office
call 7 listen on
call 7 register Chat Stream 130
call 5 zones
deliver 0 1
deliver 1 5
call 5 pick Office
call 5 find = Stream
deliver 2 1
deliver 3 1
deliver 3 5
deliver 3 7
deliver 4 5
call 5 finish 0
call 5 open 0
deliver 5 7
deliver 6 5
deliver 7 7
call 5 write 1 6869 end
deliver 8 7
call 7 read 1 10
deliver 9 5
";

pub(crate) const SESSION_REPORTS: &str = "0 done
0 done
0 begun 0
0 served 1
0 zones Lab Office
0 done
0 looking 0
0 relayed
0 ignored
0 ignored
0 names 1
0 finds 1
0 found Chat:Stream@Office,7,130,0
0 opening 1
0 made 1
0 opened 1
0 opened 1
0 wrote 3
0 heard 1 3
0 read 6869 end
0 heard 1 0
";

pub(crate) fn setup_of(rt: &impl Abort, alloc: Global, text: &str) -> Setup {
    read_setup(alloc, &mut text.as_bytes()).expect(rt, "no setup")
}

/// The steps of a schedule's events, with so many polls of the node in place of a delivery.
pub(crate) fn steps_of(
    rt: &impl Abort,
    alloc: Global,
    text: &str,
    polls: u32,
) -> Result<Vec<Step>, AllocError> {
    let net = setup_of(rt, alloc, text).net;
    let mut draft = Draft::new(alloc);
    let mut steps = Vec::new(alloc);
    for line in text.as_bytes().split(|byte| *byte == b'\n') {
        if let Some(event) = draft
            .take_line(net, line)
            .expect(rt, "no line of a schedule")
        {
            push_steps(&mut steps, event, polls)?;
        }
    }
    Ok(steps)
}

fn push_steps(steps: &mut Vec<Step>, event: Event, polls: u32) -> Result<(), AllocError> {
    match event {
        Event::Call { node, call } => steps.push(Step::Call { node, call })?,
        Event::Timer { node, timer } => steps.push(Step::Timer { node, timer })?,
        Event::Deliver { node, .. } | Event::Forge { node, .. } => {
            for _poll in 0..polls {
                steps.push(Step::Poll { node })?;
            }
        }
    }
    Ok(())
}

/// The log of a drive of these steps.
pub(crate) fn driven<C: Cable>(
    rt: &impl Abort,
    alloc: Global,
    setup: &Setup,
    steps: &[Step],
    cable: &mut C,
) -> Log {
    assert!(rt; setup.is_lawful());
    assert!(rt; has_all(setup, steps));
    drive(alloc, setup, cable, steps)
        .ok()
        .expect(rt, "out of memory")
}

/// The reports of a log, each as that of event 0.
pub(crate) fn reports_of(alloc: Global, log: &Log) -> Vec<u8> {
    let mut text = Vec::new(alloc);
    let mut printer = Printer::new(&mut text);
    for report in &log.reports {
        write_event(&mut printer, 0, report);
    }
    text
}

/// A drive over this cable, with so many polls in place of a delivery, ends with these reports, and no call fails.
pub(crate) fn compare<C: Cable>(
    rt: &impl Abort,
    alloc: Global,
    (text, polls): (&str, u32),
    cable: &mut C,
    reports: &str,
) -> Result<(), AllocError> {
    let setup = setup_of(rt, alloc, text);
    let steps = steps_of(rt, alloc, text, polls)?;
    let log = driven(rt, alloc, &setup, &steps, cable);
    assert!(rt; reports_of(alloc, &log).as_slice() == reports.as_bytes());
    assert!(rt; log.faults.is_empty());
    assert_eq!(rt; cable.failures(), 0);
    Ok(())
}
