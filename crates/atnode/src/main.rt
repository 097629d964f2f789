//! Plays and records schedules of AppleTalk nodes on one cable, drives nodes over UDP, and shows datagrams and
//! captures: `atnode play FILE`, `atnode record FILE`, `atnode udp FILE`, `atnode show HEX`, `atnode capture FILE`.
#![tactic(auto)]

mod command_line;
mod commands;
mod named;
mod output;
mod telling;
mod udp;

use at_capture::CapturePrinter;
use at_diagnostics::Diagnostics;
use at_print::Status;
use command_line::{Request, request_of};
use named::name_of;
use output::printer_to;
use std::env::Env;
use std::io::{ErrorKind, Write};
use std::net::Net;
use std::process::ExitCode;
use std::rt::Files;
use std::{env, io};
use telling::{tell, tell_usage};
use udp::udp_named;

/// The status after a command line that asks for nothing.
const USAGE: u8 = 2;

fn main(rt: HostRuntime) -> ExitCode {
    let mut errors = rt.stderr();
    let status = run(&rt, &mut errors).unwrap_or(Status::Failed.code());
    ExitCode::from(status)
}

// Does what the command line asks for, and tells the status to end with. An error is a write that failed.
fn run<R: Env + Files + Input + Print + Net + AllocGlobal, E: Write>(
    rt: &R,
    errors: &mut E,
) -> io::Result<u8> {
    let words = match words(rt) {
        Ok(words) => words,
        Err(error) if error.kind() == ErrorKind::OutOfMemory => return stop(rt, errors),
        Err(_) => return usage(rt, errors),
    };
    match request_of(rt.alloc(), words.as_slice()) {
        Request::Play(file) => play_named(rt, file, errors),
        Request::Record(file) => Ok(record_named(rt, file, errors)),
        Request::Udp(file) => udp_named(rt, file, errors),
        Request::Show(word) => show_named(rt, word, errors),
        Request::Capture(file) => capture_named(rt, file, errors),
        Request::Usage => usage(rt, errors),
        Request::NoMemory => stop(rt, errors),
    }
}

fn words<R: Env + AllocGlobal>(rt: &R) -> io::Result<Vec<String>> {
    Ok(env::args(rt)?.collect(rt.alloc())?)
}

fn usage<E: Write>(rt: &impl Print, errors: &mut E) -> io::Result<u8> {
    tell_usage(errors);
    rt.println("usage")?;
    Ok(USAGE)
}

// There is no memory for the first event.
pub(crate) fn stop<E: Write>(rt: &impl Print, errors: &mut E) -> io::Result<u8> {
    tell(errors, "out of memory");
    rt.println("stopped nomemory at 0")?;
    Ok(Status::Failed.code())
}

// Plays a file, or the standard input for `-`.
fn play_named<R: Files + Input + Print + AllocGlobal, E: Write>(
    rt: &R,
    file: &str,
    errors: &mut E,
) -> io::Result<u8> {
    let Ok(mut printer) = printer_to(rt) else {
        return stop(rt, errors);
    };
    let mut diagnostics = Diagnostics::new(name_of(file), errors);
    Ok(commands::play(rt.alloc(), rt, file, &mut printer, &mut diagnostics))
}

// Plays a file, or the standard input for `-`, and writes a capture of what it sends. No text is printed.
fn record_named<R: Files + Input + Print + AllocGlobal, E: Write>(
    rt: &R,
    file: &str,
    errors: &mut E,
) -> u8 {
    let Ok(mut printer) = printer_to(rt) else {
        tell(errors, "out of memory");
        return Status::Failed.code();
    };
    let mut diagnostics = Diagnostics::new(name_of(file), errors);
    commands::record(rt.alloc(), rt, file, &mut printer, &mut diagnostics)
}

// Shows the frames of a file, or of the standard input for `-`.
fn capture_named<R: Files + Input + Print + AllocGlobal, E: Write>(
    rt: &R,
    file: &str,
    errors: &mut E,
) -> io::Result<u8> {
    let Ok(printer) = printer_to(rt) else {
        return stop(rt, errors);
    };
    let diagnostics = Diagnostics::new(name_of(file), errors);
    let mut frames = CapturePrinter::new(rt.alloc(), printer, diagnostics);
    Ok(commands::capture(rt, file, &mut frames))
}

// Shows the datagram that a word spells in hexadecimal digits.
fn show_named<R: Print + AllocGlobal, E: Write>(
    rt: &R,
    word: &str,
    errors: &mut E,
) -> io::Result<u8> {
    let Ok(mut printer) = printer_to(rt) else {
        return stop(rt, errors);
    };
    let mut diagnostics = Diagnostics::new(word, errors);
    Ok(commands::show(rt.alloc(), word, &mut printer, &mut diagnostics))
}
