//! How many frames there are of each verdict.
ghost use Rattle.std.specs.Prelude.{◌≡◌, ◌++◌, ◌∷◌, [], List};
ghost use Rattle.at_capture.specs.Tallies.{end_line, verdict_of, tally_of};
ghost use Rattle.at_capture.specs.declared.tally.FrameVerdict.{FrameVerdict as Verdict};
ghost use Rattle.at_print.specs.Printers.{Prints};

use at_print::{Paper, Part, Printer, Status};

/// What a frame is counted as.
#[derive(Clone, Copy, Debug, PartialEq, Eq)]
pub enum FrameVerdict {
    /// It carries a datagram, which was shown whole.
    Shown,
    /// It carries a datagram, which was refused, or whose packet was.
    Refused,
    /// It carries no datagram.
    Other,
}

/// How many frames there are, of each verdict. A count stops at the largest number of 64 bits.
#[derive(Clone, Copy, Debug, PartialEq, Eq)]
pub struct Tally {
    /// All frames.
    pub frames: u64,
    /// Those that carry a datagram.
    pub datagrams: u64,
    /// Those of them that were refused, or whose packet was.
    pub refused: u64,
    /// Those that carry no datagram.
    pub others: u64,
}

impl Tally {
    /// No frame yet.
    pub(crate) fn new() -> Tally
        ensures { result ≡ tally_of [] }
    {
        Tally {
            frames: 0,
            datagrams: 0,
            refused: 0,
            others: 0,
        }
    }

    /// With one frame more.
    pub(crate) fn with(self, verdict: FrameVerdict) -> Tally
        ensures { (verdicts : List Verdict) → self ≡ tally_of verdicts → result ≡ tally_of (verdicts ++ verdict ∷ []) }
    {
        let frames = self.frames.saturating_add(1);
        let datagrams = self.datagrams.saturating_add(1);
        match verdict {
            FrameVerdict::Shown => Tally {
                frames,
                datagrams,
                ..self
            },
            FrameVerdict::Refused => Tally {
                frames,
                datagrams,
                refused: self.refused.saturating_add(1),
                ..self
            },
            FrameVerdict::Other => Tally {
                frames,
                others: self.others.saturating_add(1),
                ..self
            },
        }
    }
}

/// What a frame is counted as whose datagram was shown with this status.
pub(crate) fn verdict_of(status: Status) -> FrameVerdict
    ensures { result ≡ verdict_of status }
{
    match status {
        Status::Done => FrameVerdict::Shown,
        Status::Failed => FrameVerdict::Refused,
    }
}

/// The last line.
pub(crate) fn write_tally<W: Paper>(printer: &mut Printer<W>, tally: Tally)
    ensures { Prints W.page printer.old printer.new (end_line tally) }
{
    printer.write_each(&[
        Part::Text(b"frames "),
        Part::Number(tally.frames),
        Part::Text(b" datagrams "),
        Part::Number(tally.datagrams),
        Part::Text(b" refused "),
        Part::Number(tally.refused),
        Part::Text(b" other "),
        Part::Number(tally.others),
        Part::Text(b"\n"),
    ]);
}
