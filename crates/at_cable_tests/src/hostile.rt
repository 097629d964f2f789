//! A drive over a cable that delivers what it likes, and fails when it likes.
ghost use Rattle.std.specs.Prelude.{◌≡◌};
ghost use Rattle.at_cable.specs.Calls.{IsCounted};

use crate::schedules::{SESSION, driven, setup_of, steps_of};
use at_cable::{Cable, CableFault};
use at_drive::Log;
use std::process::Abort;
use std::test::Fail;

// Each third call fails. A node gets what was sent last, whoever sent it, or bytes that nobody sent.
#[derive(Drop)]
struct Hostile {
    calls: u32,
    failures: u64,
    last: [u8; 600],
    len: usize,
}

impl Hostile {
    fn is_failing(&mut self) -> bool
        ensures { self.new.failures ≡ self.old.failures }
    {
        self.calls = self.calls.wrapping_add(1);
        self.calls % 3 == 0
    }
}

impl Cable for Hostile {
    ghost failed = { λ c. c.failures };

    ghost sends = { λ before from to bytes answer after. IsCounted before.failures answer after.failures };

    ghost receives = { λ before node room answer after. IsCounted before.failures answer after.failures };

    fn send(&mut self, _from: u8, _to: u8, bytes: &[u8]) -> Result<(), CableFault> {
        if self.failures == u64::MAX {
            return Err(CableFault);
        }
        if self.is_failing() {
            self.failures += 1;
            return Err(CableFault);
        }
        let len = bytes.len().min(600);
        self.last[..len].copy_from_slice(&bytes[..len]);
        self.len = len;
        Ok(())
    }

    fn receive(&mut self, _node: u8, buffer: &mut [u8]) -> Result<Option<usize>, CableFault> {
        if self.failures == u64::MAX {
            return Err(CableFault);
        }
        if self.is_failing() {
            self.failures += 1;
            return Err(CableFault);
        }
        let len = buffer.len().min(600).min(self.len);
        if self.calls % 5 == 0 {
            return Ok(Some(buffer.len()));
        }
        buffer[..len].copy_from_slice(&self.last[..len]);
        Ok(Some(len))
    }

    fn failures(&self) -> u64 {
        self.failures
    }

    ghost send_is_counted = { λ before from to bytes answer after counted. counted };

    ghost receive_is_counted = { λ before node room answer after counted. counted };
}

// Each failure is noted, and each report is of a step or of what came.
fn compare(rt: &impl Abort, log: &Log, failures: u64) {
    assert!(rt; log.faults.len() as u64 == failures);
    assert!(rt; log.reports.len() > log.arrived.len());
}

#[test]
fn a_drive_over_a_hostile_cable_goes_to_its_end(rt: HostRuntime) -> Result<(), Fail> {
    let setup = setup_of(&rt, rt.alloc(), SESSION);
    for polls in 1..40u32 {
        let steps = steps_of(&rt, rt.alloc(), SESSION, polls)?;
        let mut cable = Hostile {
            calls: polls,
            failures: 0,
            last: [0; 600],
            len: 0,
        };
        let log = driven(&rt, rt.alloc(), &setup, &steps, &mut cable);
        compare(&rt, &log, cable.failures());
        assert!(rt; !log.arrived.is_empty() || polls == 1);
    }
    Ok(())
}
