//! What each command does of what its word names: one call of a library, whose status the program ends with.
ghost use Rattle.std.specs.Prelude.{◌≡◌, ◌⊎◌};
ghost use Rattle.at_capture.specs.Captures.{printer_of};
ghost use Rattle.at_capture.specs.Commands.{TellsSource};
ghost use Rattle.at_diagnostics.specs.declared.diagnostics.Diagnostics.{Diagnostics as Told};
ghost use Rattle.at_opened.specs.declared.source.Source.{Source};
ghost use Rattle.at_play.specs.Commands.{PlaysSource};
ghost use Rattle.at_play.specs.Ends.{PlaysText};
ghost use Rattle.at_play.specs.Runs.{PrintsRun};
ghost use Rattle.at_print.specs.Printers.{IsSettled};
ghost use Rattle.at_print.specs.Statuses.{code_of};
ghost use Rattle.at_print.specs.declared.status.Status.{Status as Ends};
ghost use Rattle.at_record.specs.Commands.{RecordsSource};
ghost use Rattle.at_show.specs.Words.{IsWordShown, IsWordUnshown, TellsDash};
ghost use Rattle.at_udp.specs.Sockets.{Receives, Sends};
ghost use Rattle.at_udp_text.specs.Commands.{DrivesSource};
ghost use Rattle.atnode.specs.Names.{Names};

use crate::named::open;
use at_capture::CapturePrinter;
use at_diagnostics::Diagnostics;
use at_opened::Opened;
use at_play::play_source;
use at_print::{Paper, Printer};
use at_record::record_source;
use at_show::show_word;
use at_udp::Socket;
use at_udp_text::drive_source;
use std::alloc::Allocator;
use std::net::Net;
use std::rt::Files;

/// Plays a file, or the standard input for `-`.
pub(crate) fn play<A: Allocator + Copy, R: Files + Input, W: Paper, E: Paper>(
    alloc: A,
    rt: &R,
    file: &str,
    printer: &mut Printer<W>,
    diagnostics: &mut Diagnostics<'_, E>,
) -> u8
    ensures ended { (source : Source R.Reader R.File) × Names file.now source
        × ((status : Ends) × (result ≡ code_of status) × PlaysSource A (PlaysText A E.page) R.Reader.remaining
        R.File.remaining ⟦<R::File as Opened>⟧.goes_back source W.page E.page status printer.old printer.new
        diagnostics.old diagnostics.new) }
    ensures runs { (source : Source R.Reader R.File) × Names file.now source
        × ((status : Ends) × (result ≡ code_of status) × PlaysSource A (PrintsRun A E.page) R.Reader.remaining
        R.File.remaining ⟦<R::File as Opened>⟧.goes_back source W.page E.page status printer.old printer.new
        diagnostics.old diagnostics.new) }
    ensures settled { IsSettled W.settles printer.new }
{
    play_source(alloc, open(rt, file), printer, diagnostics).code()
}

/// Plays a file, or the standard input for `-`, and writes a capture of what it sends. No text is printed.
pub(crate) fn record<A: Allocator + Copy, R: Files + Input, W: Paper, E: Paper>(
    alloc: A,
    rt: &R,
    file: &str,
    printer: &mut Printer<W>,
    diagnostics: &mut Diagnostics<'_, E>,
) -> u8
    ensures ended { (source : Source R.Reader R.File) × Names file.now source
        × ((status : Ends) × (result ≡ code_of status) × RecordsSource A R.Reader.remaining R.File.remaining source
        W.page E.page status printer.old printer.new diagnostics.old diagnostics.new) }
    ensures settled { IsSettled W.settles printer.new }
{
    record_source(alloc, open(rt, file), printer, diagnostics).code()
}

/// Drives the nodes of a file, or of the standard input for `-`.
pub(crate) fn drive<S: Socket, A: Allocator + Copy, R: Files + Input + Net, W: Paper, E: Paper>(
    alloc: A,
    rt: &R,
    file: &str,
    printer: &mut Printer<W>,
    diagnostics: &mut Diagnostics<'_, E>,
) -> u8
    ensures ended { (source : Source R.Reader R.File) × Names file.now source
        × ((status : Ends) × (result ≡ code_of status) × DrivesSource A S.binds (Sends S.sends) (Receives S.receives)
        R.Reader.remaining R.File.remaining ⟦<R::File as Opened>⟧.goes_back source W.page E.page status printer.old
        printer.new diagnostics.old diagnostics.new) }
    ensures settled { IsSettled W.settles printer.new }
{
    let source = open(rt, file);
    let status = drive_source::<S, A, R, _, _, W, E>(alloc, rt, source, printer, diagnostics);
    status.code()
}

/// Shows the frames of a file, or of the standard input for `-`.
pub(crate) fn capture<A: Allocator + Copy, R: Files + Input, W: Paper, E: Paper>(
    rt: &R,
    file: &str,
    frames: &mut CapturePrinter<'_, W, E, A>,
) -> u8
    ensures ended { (source : Source R.Reader R.File) × Names file.now source
        × ((status : Ends) × (result ≡ code_of status)
        × TellsSource R.Reader.remaining R.File.remaining source W.page E.page status frames.old frames.new) }
    ensures settled { IsSettled W.settles (printer_of frames.new) }
{
    frames.print_source(open(rt, file)).code()
}

/// Shows the datagram that a word spells in hexadecimal digits.
pub(crate) fn show<A: Allocator, W: Paper, E: Paper>(
    alloc: A,
    word: &str,
    printer: &mut Printer<W>,
    diagnostics: &mut Diagnostics<'_, E>,
) -> u8
    ensures ended { (status : Ends) × (result ≡ code_of status)
        × ((mid : Told E) × TellsDash E.page word.now diagnostics.old mid
        × (IsWordShown W.page E.page word.now status printer.old printer.new mid diagnostics.new
        ⊎ IsWordUnshown W.page E.page status printer.old printer.new mid diagnostics.new)) }
    ensures settled { IsSettled W.settles printer.new }
{
    show_word(alloc, word.as_bytes(), printer, diagnostics).code()
}
