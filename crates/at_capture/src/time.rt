//! How the time of a frame prints.
ghost use Rattle.std.specs.Prelude.{replicate};
ghost use Rattle.at_capture.specs.Times.{fraction_text, time_text};
ghost use Rattle.at_print.specs.Printers.{Prints};

use at_pcap::Time;
use at_print::{Paper, Printer};
use itoa::Buffer;

/// Prints a time: seconds, a point and the fraction; or `-` for none.
pub(crate) fn write_time<W: Paper>(printer: &mut Printer<W>, time: Option<Time>)
    ensures { Prints W.page printer.old printer.new (time_text time) }
{
    match time {
        Some(time) => write_known(printer, time),
        None => printer.write_all(b"-"),
    }
}

fn write_known<W: Paper>(printer: &mut Printer<W>, time: Time)
    ensures { Prints W.page printer.old printer.new (time_text (Some time)) }
{
    printer.write_number(time.seconds);
    if time.digits != 0 {
        write_fraction(printer, time.fraction, time.digits);
    }
}

// The point, and the fraction with zeros before it.
fn write_fraction<W: Paper>(printer: &mut Printer<W>, fraction: u64, digits: u8)
    ensures { Prints W.page printer.old printer.new (fraction_text digits fraction) }
{
    let mut buffer = Buffer::new();
    let figures = buffer.format(fraction).as_bytes();
    printer.write_all(b".");
    write_zeros(printer, usize::from(digits).saturating_sub(figures.len()));
    printer.write_all(figures);
}

fn write_zeros<W: Paper>(printer: &mut Printer<W>, count: usize)
    ensures { Prints W.page printer.old printer.new (replicate count 48) }
{
    for _place in 0..count {
        printer.write_all(b"0");
    }
}
