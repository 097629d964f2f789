//! What holds of every printer.
ghost use Rattle.std.specs.Prelude.{List, ℕ};
ghost use Rattle.at_print.specs.Printers.{HasFailed, NeverFails, Prints};
ghost use Rattle.at_print.specs.declared.printer.Printer.{Printer};

use crate::paper::Paper;

/// Over a paper to which no write and no flush fails, what is printed makes no printer fail.
pub fn none_fails_where_no_write_does<W: Paper>()
    ensures { NeverFails W.page → (old new : Printer W) (bytes : List ℕ)
        → Prints W.page old new bytes → ¬ HasFailed old → ¬ HasFailed new }
{}
