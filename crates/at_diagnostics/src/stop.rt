//! Why a play ends before its last event, and the line that says so.
ghost use Rattle.std.specs.Prelude.{◌≡◌, None};
ghost use Rattle.at_diagnostics.specs.Lines.{refusal_of};
ghost use Rattle.at_diagnostics.specs.Stops.{IsUnread, stop_line, stop_of, text_fault_line};
ghost use Rattle.at_print.specs.Printers.{Prints};
ghost use Rattle.at_faults.specs.Reads.{IsOfRead};
ghost use Rattle.at_faults.specs.declared.fault.Fault.{Fault as Why};
ghost use Rattle.at_diagnostics.specs.declared.stop.Stop.TheVariants as stop;
ghost use Rattle.at_setup.specs.declared.refusal.EventFault.TheVariants as world;

use at_faults::Fault;
use at_print::{Paper, Part, Printer};
use std::io;

/// Why a play ends before its last event.
#[derive(Clone, Copy)]
pub enum Stop {
    /// There is no schedule.
    Text(Fault),
    /// The event of this place, counted from 0, was not played. It is in the line of this number, counted from 1;
    /// the number is 0 before any line was read. `which` is the datagram that was to be delivered.
    Event {
        fault: at_setup::EventFault,
        at: u32,
        line: usize,
        datagram: Option<u64>,
    },
}

impl Stop {
    /// There is no memory to read the event of this place, in this line.
    pub fn no_memory(at: u32, line: usize) -> Stop
        ensures unread { IsUnread at result }
        ensures stop { result ≡ stop.Event world.NoMemory at line None }
    {
        Stop::Event {
            fault: at_setup::EventFault::NoMemory,
            at,
            line,
            datagram: None,
        }
    }
}

impl From<Fault> for Stop {
    ghost from_gives = { λ fault stop. stop ≡ stop_of fault };

    fn from(fault: Fault) -> Stop {
        match fault {
            Fault::NoMemory => Stop::no_memory(0, 0),
            _ => Stop::Text(fault),
        }
    }
}

impl From<io::Error> for Stop {
    ghost from_gives = { λ _ stop. (fault : Why) × IsOfRead fault × (stop ≡ stop_of fault) };

    fn from(error: io::Error) -> Stop {
        Stop::from(Fault::from(error))
    }
}

/// Prints why a play ended.
pub fn write_stop<W: Paper>(printer: &mut Printer<W>, stop: Stop)
    ensures { Prints W.page printer.old printer.new (stop_line stop) }
{
    match stop {
        Stop::Text(fault) => write_fault(printer, fault),
        Stop::Event { fault, at, .. } => match fault {
            at_setup::EventFault::Refused(refusal) => {
                printer.write_each(&[
                    Part::Text(b"stopped "),
                    Part::Number(refusal.number() as u64),
                    Part::Text(b" at "),
                    Part::Number(at as u64),
                    Part::Text(b"\n"),
                ]);
            }
            at_setup::EventFault::NoMemory => printer.write_each(&[
                Part::Text(b"stopped nomemory at "),
                Part::Number(at as u64),
                Part::Text(b"\n"),
            ]),
        },
    }
}

/// Prints that there is no schedule.
pub fn write_fault<W: Paper>(printer: &mut Printer<W>, fault: Fault)
    ensures { Prints W.page printer.old printer.new (text_fault_line fault) }
{
    match fault {
        Fault::Unreadable(_) => printer.write_all(b"fault 0\n"),
        Fault::Line { number, .. } => printer.write_each(&[
            Part::Text(b"fault "),
            Part::Number(number as u64),
            Part::Text(b"\n"),
        ]),
        Fault::NoMemory => printer.write_all(b"stopped nomemory at 0\n"),
    }
}

/// The number of the refusal for which an event was not played.
pub(crate) fn refusal_of(fault: at_setup::EventFault) -> Option<u8>
    ensures { result ≡ refusal_of fault }
{
    match fault {
        at_setup::EventFault::Refused(refusal) => Some(refusal.number()),
        at_setup::EventFault::NoMemory => None,
    }
}
