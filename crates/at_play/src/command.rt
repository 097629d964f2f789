//! The play of what a command line names.
ghost use Rattle.std.specs.Prelude.{◌≡◌};
ghost use Rattle.at_play.specs.Commands.{PlaysSource};
ghost use Rattle.at_play.specs.Ends.{PlaysText};
ghost use Rattle.at_play.specs.Runs.{PrintsRun};
ghost use Rattle.at_print.specs.Printers.{HasFailed, IsSettled};

use crate::program::{play_opened, play_text};
use at_diagnostics::{Diagnostics, end_unopened, tell_input};
use at_opened::{Opened, Source};
use at_print::{Paper, Printer, Status};
use std::alloc::Allocator;
use std::io::Read;

/// Plays a schedule from where it is to be read, as `atnode play` does: a stream, what was opened, or a file that can't
/// be opened.
pub fn play_source<A: Allocator + Copy, S: Read + Drop, F: Opened + Drop, W: Paper, E: Paper>(
    alloc: A,
    source: Source<S, F>,
    printer: &mut Printer<W>,
    diagnostics: &mut Diagnostics<'_, E>,
) -> Status
    ensures printed { result ≡ Status.Done → ¬ HasFailed printer.new }
    ensures settled { IsSettled W.settles printer.new }
    ensures ended { PlaysSource A (PlaysText A E.page) S.remaining F.remaining F.goes_back source W.page E.page result
        printer.old printer.new diagnostics.old diagnostics.new }
    // The same by the plain machine alone, for a reader who does not go by the node's own step.
    ensures runs { PlaysSource A (PrintsRun A E.page) S.remaining F.remaining F.goes_back source W.page E.page result
        printer.old printer.new diagnostics.old diagnostics.new }
{
    match source {
        Source::Stream(mut reader) => {
            tell_input(diagnostics);
            play_text(alloc, &mut reader, printer, diagnostics)
        }
        Source::Opened(mut file) => play_opened(alloc, &mut file, printer, diagnostics),
        Source::Unopened(error) => end_unopened(error, printer, diagnostics),
    }
}
