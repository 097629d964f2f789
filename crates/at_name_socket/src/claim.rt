//! A claim: a lookup after which its name is registered, if nobody has it.
use at_ddp::Pascal;

/// A name that is to be registered if its lookup finds none like it.
#[derive(Debug, Drop)]
pub struct Claim {
    /// The identifier of the lookup.
    pub id: u8,
    pub object: Pascal,
    /// The type of the object.
    pub kind: Pascal,
    pub socket: u8,
}
