//! The timers of a node, as text.
ghost use Rattle.std.specs.Prelude.{◌≡◌, [], IfOk, IsOk};
ghost use Rattle.std.specs.List.{flat_map};
ghost use Rattle.at_held.specs.Handing.{timer_lines};
ghost use Rattle.at_node.specs.Timers.{timers_of};
ghost use Rattle.at_print.specs.Printers.{Prints};
ghost use Rattle.at_print.specs.Reports.{timer_line};

use at_event::Timer;
use at_node::Node;
use at_print::{Paper, Printer, write_timer};
use std::alloc::{AllocError, Global};

/// A line for each timer of a node that would do something now. Where there is none, no memory is taken.
pub(crate) fn timer_lines(alloc: Global, node: &Node) -> Result<Vec<u8>, AllocError>
    ensures lines { IfOk result (λ lines. lines.items ≡ timer_lines node.now) }
    ensures none { timers_of node.now ≡ [] → IsOk result }
{
    let mut timers = Vec::new(alloc);
    node.timers(&mut timers)?;
    lines_of(alloc, node.net(), &timers)
}

fn lines_of(alloc: Global, net: u16, timers: &[Timer]) -> Result<Vec<u8>, AllocError>
    ensures lines { IfOk result (λ lines. lines.items ≡ flat_map (timer_line net) timers.now) }
    ensures none { timers.now ≡ [] → IsOk result }
{
    let mut printer = Printer::new(Vec::new(alloc));
    write_timers(&mut printer, net, timers);
    if printer.has_failed() {
        return Err(AllocError);
    }
    Ok(printer.into_writer())
}

fn write_timers<W: Paper>(printer: &mut Printer<W>, net: u16, timers: &[Timer])
    ensures printed { Prints W.page printer.old printer.new (flat_map (timer_line net) timers.now) }
    ensures none { timers.now ≡ [] → printer.new ≡ printer.old }
{
    for timer in timers {
        write_timer(printer, net, *timer);
    }
}
