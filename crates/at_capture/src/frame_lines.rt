//! The lines of a frame, but for those of its datagram.
ghost use Rattle.std.specs.Prelude.{◌≡◌};
ghost use Rattle.at_capture.specs.FrameLines.{answer_line, beginning, carried_line, carrier_word, other_line};
ghost use Rattle.at_capture.specs.FrameLines.{reason_word, stations_text};
ghost use Rattle.at_print.specs.Printers.{Prints};

use crate::stations::write_station;
use crate::time::write_time;
use at_frames::{Carrier, Reason, Stations};
use at_pcap::Time;
use at_print::{Paper, Part, Printer};

/// The line of a frame that carries a datagram.
pub(crate) fn write_carried<W: Paper>(
    printer: &mut Printer<W>,
    number: u64,
    time: Option<Time>,
    carrier: Carrier,
    stations: Stations,
)
    ensures { Prints W.page printer.old printer.new (carried_line number time carrier stations) }
{
    write_beginning(printer, number, time);
    printer.write_all(carrier_word(carrier));
    write_stations(printer, stations);
}

/// The line of a frame that carries no datagram.
pub(crate) fn write_other<W: Paper>(
    printer: &mut Printer<W>,
    number: u64,
    time: Option<Time>,
    reason: Reason,
)
    ensures { Prints W.page printer.old printer.new (other_line number time reason) }
{
    write_beginning(printer, number, time);
    printer.write_all(b"other ");
    printer.write_all(reason_word(reason));
    printer.write_all(b"\n");
}

/// The line of the frame that a frame answers, if it answers one.
pub(crate) fn write_answer<W: Paper>(printer: &mut Printer<W>, answered: Option<u64>)
    ensures { Prints W.page printer.old printer.new (answer_line answered) }
{
    if let Some(number) = answered {
        printer.write_each(&[
            Part::Text(b"answers frame "),
            Part::Number(number),
            Part::Text(b"\n"),
        ]);
    }
}

// The number and the time, and a space behind them.
fn write_beginning<W: Paper>(printer: &mut Printer<W>, number: u64, time: Option<Time>)
    ensures { Prints W.page printer.old printer.new (beginning number time) }
{
    printer.write_each(&[
        Part::Text(b"frame "),
        Part::Number(number),
        Part::Text(b" "),
    ]);
    write_time(printer, time);
    printer.write_all(b" ");
}

// Where the frame comes from and where it goes to, up to the end of the line.
fn write_stations<W: Paper>(printer: &mut Printer<W>, stations: Stations)
    ensures { Prints W.page printer.old printer.new (stations_text stations) }
{
    printer.write_all(b" ");
    write_station(printer, stations.from);
    printer.write_all(b" ");
    write_station(printer, stations.to);
    printer.write_all(b"\n");
}

fn carrier_word(carrier: Carrier) -> &'static [u8]
    ensures { result.now ≡ carrier_word carrier }
{
    match carrier {
        Carrier::EtherTalk => b"ethertalk",
        Carrier::EtherTalkPhase1 => b"phase1",
        Carrier::LocalTalk => b"localtalk",
        Carrier::LocalTalkOverUdp => b"ltoudp",
    }
}

fn reason_word(reason: Reason) -> &'static [u8]
    ensures { result.now ≡ reason_word reason }
{
    match reason {
        Reason::Aarp => b"aarp",
        Reason::Control => b"llap",
        Reason::OtherIp => b"ip",
        Reason::OtherLink => b"link",
        Reason::Cut => b"cut",
        Reason::Foreign => b"foreign",
    }
}
