//! How a play ends.
ghost use Rattle.std.specs.Prelude.{◌≡◌};

/// How a play, or the showing of a datagram, ended.
#[derive(Clone, Copy, Debug, PartialEq, Eq)]
pub enum Status {
    /// Each event was played and printed, or the datagram shown.
    Done,
    /// The schedule or the datagram has a fault, the play was stopped, or a write failed.
    Failed,
}

impl Status {
    ghost use Rattle.at_print.specs.Statuses.{code_of};

    /// The status with which the program ends.
    pub fn code(self) -> u8
        ensures { result ≡ code_of self }
    {
        match self {
            Status::Done => 0,
            Status::Failed => 1,
        }
    }
}
