//! The records of what a world sent.
ghost use Rattle.at_print.specs.Printers.{Prints};
ghost use Rattle.at_record.specs.Recordings.{AreSendings, records_text};

use at_print::{Paper, Printer};
use at_recording::{Moment, write_record};
use at_world::World;
use std::alloc::Allocator;

/// Writes a record for each datagram that a world sent, in the order of sending.
pub(crate) fn write_records<A: Allocator + Copy, W: Paper>(
    printer: &mut Printer<W>,
    world: &World<A>,
)
    ensures printed { Prints W.page printer.old printer.new (records_text world.now.sent) }
    ensures ranges { AreSendings world.now.sent }
{
    let mut last = None;
    for number in 0..world.sent_count() {
        let sent = world.sent(number);
        let moment = Moment::after(last, sent.event);
        write_record(printer, moment, sent.to, sent.bytes);
        last = Some(moment);
    }
}
