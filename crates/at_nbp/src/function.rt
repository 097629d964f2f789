//! What a packet asks or answers, and its number in bytes.
ghost use Rattle.std.specs.Prelude.{◌≡◌, ◌≢◌, IfSome};
ghost use Rattle.at_nbp.specs.Lookups.{is_reply};
ghost use Rattle.at_nbp.specs.Packets.{code};
ghost use Rattle.at_nbp.specs.declared.function.Function.{Function};

/// What an NBP packet asks or answers.
#[derive(Clone, Copy, Debug, PartialEq, Eq)]
pub enum Function {
    /// A request to the router to look a name up in a zone (BrRq).
    BroadcastRequest,
    /// A request to every node for the names that match (LkUp).
    LookUp,
    /// An answer with the names that match (LkUp-Reply).
    Reply,
    /// A request from one router to another to look a name up (FwdReq).
    ForwardRequest,
}

impl Function {
    pub(crate) fn is_reply(self) -> bool
        ensures { result ≡ is_reply self }
    {
        matches!(self, Function::Reply)
    }

    /// The number that a packet has for this function, 1 to 4.
    pub(crate) fn code(self) -> u8
        ensures { result ≡ code self }
    {
        match self {
            Function::BroadcastRequest => 1,
            Function::LookUp => 2,
            Function::Reply => 3,
            Function::ForwardRequest => 4,
        }
    }

    /// The function with this number; none if the number is not 1 to 4.
    pub(crate) fn of_code(number: u8) -> Option<Function>
        ensures some { IfSome result (λ function. number ≡ code function) }
        ensures none { result ≡ None → (function : Function) → number ≢ code function }
    {
        match number {
            1 => Some(Function::BroadcastRequest),
            2 => Some(Function::LookUp),
            3 => Some(Function::Reply),
            4 => Some(Function::ForwardRequest),
            _ => None,
        }
    }
}
