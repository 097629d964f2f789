//! Why a play ends before its last event.
ghost use Rattle.std.specs.Prelude.{◌≡◌};
ghost use Rattle.at_diagnostics.specs.Stops.{stop_of};
ghost use Rattle.at_faults.specs.Reads.{IsOfRead};
ghost use Rattle.at_diagnostics.specs.declared.stop.Stop.TheVariants as stop;
ghost use Rattle.at_faults.specs.declared.fault.Fault.{Fault as Why};
ghost use Rattle.at_faults.specs.declared.fault.Fault.TheVariants as why;
ghost use Rattle.at_play.specs.declared.ending.Ending.TheVariants as ending;

use at_diagnostics::Stop;
use at_faults::{Fault, Unreadable};
use std::io;

/// Why a play ends before its last event.
#[derive(Clone, Copy)]
pub(crate) enum Ending {
    /// An event was not played, or there is no schedule.
    Stopped(Stop),
    /// A write failed, so nothing more can be printed.
    Unwritten,
}

impl From<Stop> for Ending {
    ghost from_gives = { λ s e. e ≡ ending.Stopped s };

    fn from(stop: Stop) -> Ending {
        Ending::Stopped(stop)
    }
}

impl From<Fault> for Ending {
    ghost from_gives = { λ fault e. e ≡ ending.Stopped (stop_of fault) };

    fn from(fault: Fault) -> Ending {
        Ending::Stopped(Stop::from(fault))
    }
}

impl From<Unreadable> for Ending {
    ghost from_gives = { λ unreadable e. e ≡ ending.Stopped (stop.Text (why.Unreadable unreadable)) };

    fn from(unreadable: Unreadable) -> Ending {
        Ending::Stopped(Stop::Text(Fault::Unreadable(unreadable)))
    }
}

impl From<io::Error> for Ending {
    ghost from_gives = { λ _ e. (fault : Why) × IsOfRead fault × (e ≡ ending.Stopped (stop_of fault)) };

    fn from(error: io::Error) -> Ending {
        Ending::Stopped(Stop::from(error))
    }
}
