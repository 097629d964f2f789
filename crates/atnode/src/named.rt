//! What a command line names.
ghost use Rattle.atnode.specs.Names.{IsToldAs, Names};

use at_opened::Source;
use std::fs;
use std::rt::Files;

// What stands for the name of a file in what is told of the standard input.
const STANDARD_INPUT: &str = "standard input";

/// The name that is told of a file, or of the standard input for `-`.
pub(crate) fn name_of(file: &str) -> &str
    ensures { IsToldAs file.now result.now }
{
    if file == "-" { STANDARD_INPUT } else { file }
}

/// Opens a file, or the standard input for `-`.
pub(crate) fn open<R: Files + Input>(rt: &R, file: &str) -> Source<R::Reader, R::File>
    ensures { Names file.now result }
{
    if file == "-" {
        return Source::Stream(rt.reader());
    }
    match fs::open(rt, file) {
        Ok(opened) => Source::Opened(opened),
        Err(error) => Source::Unopened(error),
    }
}
