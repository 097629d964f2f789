//! The drive of a schedule, from its text to what is printed. The text is read for its faults before a socket is bound,
//! and once more as it is driven.
ghost use Rattle.std.specs.Prelude.{◌≡◌, ◌<◌, ◌≤◌, IfErr, IfOk, IfSome, OnOk, length, true};
ghost use Rattle.std.specs.Result.{IsErrAnd};
ghost use Rattle.at_faults.specs.Reads.{IsOfBytes};
ghost use Rattle.at_drive_lines.specs.Drafts.{BeginsSo, IsDriveFault};
ghost use Rattle.at_drive_lines.specs.Lines.{lines_of};
ghost use Rattle.at_print.specs.Printers.{IsSettled};
ghost use Rattle.at_setup.specs.Setups.{is_lawful};
ghost use Rattle.at_udp.specs.Sockets.{Receives, Sends};
ghost use Rattle.at_udp_text.specs.Ends.{DrivesAgain, DrivesFile, DrivesFrom, DrivesOpened, DrivesStream, DrivesText};
ghost use Rattle.at_udp_text.specs.Ends.{IsFileFault, IsHeadOf, IsNotRead, IsUnreadable};

use crate::driving::drive_nodes;
use at_diagnostics::Diagnostics;
use at_drive_lines::{DriveHead, ReadLines, TextLines, read_head};
use at_drive_text::end_at_fault;
use at_faults::{Fault, MAX_LEN, Unreadable, check_length, read_bytes};
use at_opened::Opened;
use at_print::{Paper, Printer, Status};
use at_udp::Socket;
use std::alloc::Allocator;
use std::io::{BufReader, Read};
use std::net::Net;

/// Reads a schedule to its end, drives its nodes over UDP on this machine, and prints what came of each step.
pub fn drive_stream<S: Socket, A: Allocator + Copy, N: Net, R: Read, W: Paper, E: Paper>(
    alloc: A,
    net: &N,
    reader: &mut R,
    printer: &mut Printer<W>,
    diagnostics: &mut Diagnostics<'_, E>,
) -> Status
    // This and the next are said if it is known what the reader holds.
    ensures too_long { IfSome (R.remaining reader.old)
        (λ all. MAX_LEN < length all → IsNotRead IsOfBytes W.page E.page result printer.old printer.new
        diagnostics.old diagnostics.new) }
    ensures ended { DrivesStream A S.binds (Sends S.sends) (Receives S.receives) (R.remaining reader.old) W.page E.page
        result printer.old printer.new diagnostics.old diagnostics.new }
    ensures settled { IsSettled W.settles printer.new }
{
    match read_bytes(alloc, reader) {
        Ok(text) => drive_text::<S, A, N, W, E>(alloc, net, text.as_slice(), printer, diagnostics),
        Err(fault) => end_at_fault(fault, printer, diagnostics),
    }
}

fn drive_text<S: Socket, A: Allocator + Copy, N: Net, W: Paper, E: Paper>(
    alloc: A,
    net: &N,
    text: &[u8],
    printer: &mut Printer<W>,
    diagnostics: &mut Diagnostics<'_, E>,
) -> Status
    ensures driven { DrivesText A S.binds (Sends S.sends) (Receives S.receives) text.now W.page E.page result
        printer.old printer.new diagnostics.old diagnostics.new }
    ensures settled { IsSettled W.settles printer.new }
{
    let mut lines = TextLines::of(text);
    match read_head(alloc, &mut TextLines::of(text)) {
        Ok(head) => {
            drive_nodes::<S, A, N, _, W, E>(alloc, net, &head, &mut lines, printer, diagnostics)
        }
        Err(fault) => end_at_fault(fault, printer, diagnostics),
    }
}

/// Drives the nodes of a schedule that can be read again from its beginning, as a file can. Only its setup is kept. It
/// is read for its length, then for its faults, and last to be driven. One that changes meanwhile is reported as
/// unreadable.
pub fn drive_file<S: Socket, A: Allocator + Copy, N: Net, F: Opened, W: Paper, E: Paper>(
    alloc: A,
    net: &N,
    file: &mut F,
    printer: &mut Printer<W>,
    diagnostics: &mut Diagnostics<'_, E>,
) -> Status
    // Nothing but `fault 0` is printed of one that is too long. Said if it is known what the file holds.
    ensures too_long { IfSome (F.remaining file.old) (λ all. MAX_LEN < length all
        → IsNotRead IsUnreadable W.page E.page result printer.old printer.new diagnostics.old diagnostics.new) }
    ensures ended { DrivesFile A S.binds (Sends S.sends) (Receives S.receives) F.remaining F.goes_back W.page
        E.page result printer.old printer.new diagnostics.old diagnostics.new }
    ensures settled { IsSettled W.settles printer.new }
{
    match head_of(alloc, file) {
        Ok(head) => drive_again::<S, A, N, F, W, E>(alloc, net, &head, file, printer, diagnostics),
        Err(fault) => end_at_fault(fault, printer, diagnostics),
    }
}

/// Drives the nodes of a file that was opened. A pipe has no beginning to go back to, and is read whole.
pub fn drive_opened<S: Socket, A: Allocator + Copy, N: Net, F: Opened, W: Paper, E: Paper>(
    alloc: A,
    net: &N,
    file: &mut F,
    printer: &mut Printer<W>,
    diagnostics: &mut Diagnostics<'_, E>,
) -> Status
    ensures ended { DrivesOpened A S.binds (Sends S.sends) (Receives S.receives) F.remaining F.goes_back file.old
        W.page E.page result printer.old printer.new diagnostics.old diagnostics.new }
    ensures settled { IsSettled W.settles printer.new }
{
    match file.send_back() {
        Ok(()) => drive_file::<S, A, N, F, W, E>(alloc, net, file, printer, diagnostics),
        Err(_) => drive_stream::<S, A, N, F, W, E>(alloc, net, file, printer, diagnostics),
    }
}

// What the lines of a file say before its steps.
fn head_of<A: Allocator + Copy, F: Opened>(alloc: A, file: &mut F) -> Result<DriveHead<A>, Fault>
    ensures too_long { IfSome (F.remaining file.old) (λ all. MAX_LEN < length all → IsErrAnd result IsUnreadable) }
    ensures lawful { IfOk result (λ head. is_lawful head.setup ≡ true) }
    ensures said { IfOk result
        (λ head. IsHeadOf F.remaining F.goes_back head.setup head.port) }
    ensures fault { IfErr result (IsFileFault A F.remaining F.goes_back) }
{
    check_file(file)?;
    file.send_back()?;
    head_from(alloc, file)
}

// Reads a file to its end, and tells whether this is too much for a schedule. That asks for no memory.
fn check_file<F: Read>(file: &mut F) -> Result<(), Fault>
    ensures fits { OnOk result (IfSome (F.remaining file.old) (λ all. length all ≤ MAX_LEN)) }
    ensures fault { IfErr result IsOfBytes }
    ensures unreadable { IfErr result IsUnreadable }
{
    match check_length(file) {
        Ok(()) => Ok(()),
        Err(Fault::Unreadable(why)) => Err(Fault::Unreadable(why)),
        Err(_) => Err(Fault::Unreadable(Unreadable::Failed)),
    }
}

fn head_from<A: Allocator + Copy, R: Read>(alloc: A, reader: &mut R) -> Result<DriveHead<A>, Fault>
    ensures lawful { IfOk result (λ head. is_lawful head.setup ≡ true) }
    ensures said { IfOk result
        (λ head. IfSome (lines_of (R.remaining reader.old)) (BeginsSo head.setup head.port)) }
    ensures fault { IfErr result (IsDriveFault A (lines_of (R.remaining reader.old)) true) }
{
    let reader = BufReader::new(alloc, reader)?;
    read_head(alloc, &mut ReadLines::of(alloc, reader))
}

fn drive_again<S: Socket, A: Allocator + Copy, N: Net, F: Opened, W: Paper, E: Paper>(
    alloc: A,
    net: &N,
    head: &DriveHead<A>,
    file: &mut F,
    printer: &mut Printer<W>,
    diagnostics: &mut Diagnostics<'_, E>,
) -> Status
    ensures driven { DrivesAgain S.binds (Sends S.sends) (Receives S.receives) F.remaining F.goes_back
        head.now.setup head.now.port W.page E.page result printer.old printer.new diagnostics.old diagnostics.new }
    ensures settled { IsSettled W.settles printer.new }
{
    match file.send_back() {
        Ok(()) => drive_from::<S, A, N, F, W, E>(alloc, net, head, file, printer, diagnostics),
        Err(error) => end_at_fault(Fault::from(error), printer, diagnostics),
    }
}

fn drive_from<S: Socket, A: Allocator + Copy, N: Net, R: Read, W: Paper, E: Paper>(
    alloc: A,
    net: &N,
    head: &DriveHead<A>,
    reader: &mut R,
    printer: &mut Printer<W>,
    diagnostics: &mut Diagnostics<'_, E>,
) -> Status
    ensures driven { DrivesFrom S.binds (Sends S.sends) (Receives S.receives) head.now.setup head.now.port
        (lines_of (R.remaining reader.old)) W.page E.page result printer.old printer.new diagnostics.old
        diagnostics.new }
    ensures settled { IsSettled W.settles printer.new }
{
    match BufReader::new(alloc, reader) {
        Ok(reader) => {
            let mut lines = ReadLines::of(alloc, reader);
            drive_nodes::<S, A, N, _, W, E>(alloc, net, head, &mut lines, printer, diagnostics)
        }
        Err(_) => end_at_fault(Fault::NoMemory, printer, diagnostics),
    }
}
