//! What a command line asks for.
use clap::error::ErrorKind;
use clap::{Arg, ArgMatches, Command, Error};
use std::alloc::{AllocError, Global};

/// What the words of a command line ask for.
#[derive(Clone, Copy)]
pub enum Request<'a> {
    /// To play this file, or the standard input for `-`.
    Play(&'a str),
    /// To play this file, or the standard input for `-`, and to write a capture of what it sends.
    Record(&'a str),
    /// To drive this file's nodes over sockets, or those of the standard input for `-`.
    Udp(&'a str),
    /// To show the datagram that this word spells in hexadecimal digits.
    Show(&'a str),
    /// To show the frames of this capture, or those of the standard input for `-`.
    Capture(&'a str),
    /// Nothing that is known.
    Usage,
    /// The words could not be read, out of memory.
    NoMemory,
}

/// Reads the words, of which the first is the program's name.
pub fn request_of<'a>(alloc: Global, words: &'a [String]) -> Request<'a> {
    match asked_by(alloc, words) {
        Ok(Some(request)) => request,
        Err(error) if error.kind() == ErrorKind::OutOfMemory => Request::NoMemory,
        _ => Request::Usage,
    }
}

fn asked_by<'a>(alloc: Global, words: &'a [String]) -> Result<Option<Request<'a>>, Error> {
    let matches = command_of(alloc)?.try_get_matches_from(words)?;
    Ok(request_in(&matches))
}

// What the one subcommand and its one word ask for.
fn request_in<'a>(matches: &ArgMatches<'a>) -> Option<Request<'a>> {
    match matches.subcommand()? {
        ("play", play) => play.get_str("FILE").map(Request::Play),
        ("record", record) => record.get_str("FILE").map(Request::Record),
        ("udp", udp) => udp.get_str("FILE").map(Request::Udp),
        ("capture", capture) => capture.get_str("FILE").map(Request::Capture),
        (_, show) => show.get_str("HEX").map(Request::Show),
    }
}

// The subcommands, each with the name of its one word.
const SUBCOMMANDS: [(&str, &str); 5] = [
    ("play", "FILE"),
    ("record", "FILE"),
    ("udp", "FILE"),
    ("show", "HEX"),
    ("capture", "FILE"),
];

fn command_of<'a>(alloc: Global) -> Result<Command<'a>, AllocError> {
    let mut command = Command::new(alloc, "atnode");
    for (name, word) in SUBCOMMANDS {
        command = command.subcommand(subcommand(alloc, name, word)?)?;
    }
    Ok(command)
}

// A subcommand that takes one word.
fn subcommand<'a>(alloc: Global, name: &'a str, word: &'a str) -> Result<Command<'a>, AllocError> {
    Command::new(alloc, name).arg(Arg::new(alloc, word).required(true))
}
