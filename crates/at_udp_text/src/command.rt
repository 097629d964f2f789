//! The drive of what a command line names.
ghost use Rattle.at_print.specs.Printers.{IsSettled};
ghost use Rattle.at_udp.specs.Sockets.{Receives, Sends};
ghost use Rattle.at_udp_text.specs.Commands.{DrivesSource};

use crate::program::{drive_opened, drive_stream};
use at_diagnostics::{Diagnostics, end_unopened, tell_input};
use at_opened::{Opened, Source};
use at_print::{Paper, Printer, Status};
use at_udp::Socket;
use std::alloc::Allocator;
use std::io::Read;
use std::net::Net;

/// Drives the nodes of a schedule from where it is to be read, as `atnode udp` does: a stream, what was opened, or a
/// file that can't be opened.
pub fn drive_source<
    S: Socket,
    A: Allocator + Copy,
    N: Net,
    I: Read + Drop,
    F: Opened + Drop,
    W: Paper,
    E: Paper,
>(
    alloc: A,
    net: &N,
    source: Source<I, F>,
    printer: &mut Printer<W>,
    diagnostics: &mut Diagnostics<'_, E>,
) -> Status
    ensures ended { DrivesSource A S.binds (Sends S.sends) (Receives S.receives) I.remaining F.remaining F.goes_back
        source W.page E.page result printer.old printer.new diagnostics.old diagnostics.new }
    ensures settled { IsSettled W.settles printer.new }
{
    match source {
        Source::Stream(mut reader) => {
            tell_input(diagnostics);
            drive_stream::<S, A, N, I, W, E>(alloc, net, &mut reader, printer, diagnostics)
        }
        Source::Opened(mut file) => {
            drive_opened::<S, A, N, F, W, E>(alloc, net, &mut file, printer, diagnostics)
        }
        Source::Unopened(error) => end_unopened(error, printer, diagnostics),
    }
}
