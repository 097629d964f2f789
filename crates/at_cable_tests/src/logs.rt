//! The log of a drive, which is lent to each step and may be cleared between them.
use crate::schedules::{ZONE_LIST, setup_of};
use at_cable::MemoryCable;
use at_drive::{Drive, Log, Step};
use at_event::{Call, Report, TransactionReport, ZoneCall, ZoneReport};
use at_zip::TableChoice;
use std::alloc::{AllocError, Global};
use std::process::Abort;
use std::test::Fail;

// Node 5 asks for the zone list.
const ASK: Step = Step::Call {
    node: 5,
    call: Call::Zones(ZoneCall::Read {
        which: TableChoice::All,
    }),
};

// The log of a step at which node 5 asked its router, and what the router did at the next one.
fn asked(rt: &impl Abort, alloc: Global, log: &mut Log, clears: bool) -> Result<(), AllocError> {
    let mut cable = MemoryCable::new(alloc, &[1, 5])?;
    let setup = setup_of(rt, alloc, ZONE_LIST);
    let mut drive = Drive::open(alloc, &setup)?;
    assert!(rt; drive.has(5) && drive.has(1));
    drive.step(&mut cable, 0, &ASK, log)?;
    if clears {
        log.clear();
    }
    drive.step(&mut cable, 1, &Step::Poll { node: 1 }, log)?;
    drop(drive);
    Ok(())
}

#[test]
fn each_step_adds_to_the_log_that_it_is_lent(rt: HostRuntime) -> Result<(), Fail> {
    let mut log = Log::new(rt.alloc());
    asked(&rt, rt.alloc(), &mut log, false)?;
    assert!(rt;
        matches!(
            log.reports.as_slice(),
            [
                Report::Transactions(TransactionReport::Begun(0)),
                Report::Zones(ZoneReport::Served(1))
            ]
        )
    );
    assert_eq!(rt; log.sent.len(), 2);
    assert_eq!(rt; log.arrived.len(), 1);
    Ok(())
}

#[test]
fn a_log_that_is_cleared_is_begun_anew(rt: HostRuntime) -> Result<(), Fail> {
    let mut log = Log::new(rt.alloc());
    asked(&rt, rt.alloc(), &mut log, true)?;
    assert!(rt;
        matches!(
            log.reports.as_slice(),
            [Report::Zones(ZoneReport::Served(1))]
        )
    );
    assert!(rt; matches!(log.sent.as_slice(), [sent] if sent.len() == 1));
    assert_eq!(rt; log.arrived.len(), 1);
    Ok(())
}
