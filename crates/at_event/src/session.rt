//! The calls of what a node keeps for its user, and the rules on their words.
ghost use Rattle.std.specs.Prelude.{◌≡◌};
ghost use Rattle.at_event.specs.Kinds.Sessions.{IsSessionCall, session_sentence};

use crate::ranges::ranges_of_text;
use at_ddp::Pascal;

/// A call about what a node keeps for its user.
#[derive(Drop)]
pub enum SessionCall {
    /// Picks a zone of a zone list that was read last. Lookups that name no zone ask for it from now on.
    Pick { zone: Pascal },
}

impl SessionCall {
    pub(crate) fn ranges(&self)
        ensures { IsSessionCall self.now }
    {
        match self {
            SessionCall::Pick { zone } => ranges_of_text(zone),
        }
    }
}

/// How the words of a call of the session must be.
#[derive(Clone, Copy, Debug, PartialEq, Eq)]
pub enum SessionRule {
    /// `call N pick TEXT`
    Pick,
}

impl SessionRule {
    pub(crate) fn sentence(self) -> &'static str
        ensures { result.now ≡ session_sentence self }
    {
        match self {
            SessionRule::Pick =>
                "`pick` takes a zone of at most 32 bytes, as in \"call 5 pick Office\"",
        }
    }
}
