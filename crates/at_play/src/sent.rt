//! What is printed of the datagrams that an event sent.
ghost use Rattle.std.specs.Prelude.{drop};
ghost use Rattle.at_play.specs.Sent.{sent_lines};
ghost use Rattle.at_print.specs.Printers.{Prints};

use at_print::{Paper, Printer, write_datagram};
use at_world::World;
use std::alloc::Allocator;

/// Prints the datagrams that a world sent, from a number on.
pub fn write_sent<A: Allocator + Copy, W: Paper>(
    printer: &mut Printer<W>,
    world: &World<A>,
    first: usize,
)
    ensures { Prints W.page printer.old printer.new (sent_lines first (drop first world.now.sent)) }
{
    for number in first..world.sent_count() {
        let sent = world.sent(number);
        write_datagram(printer, number, sent.to, sent.bytes);
    }
}
