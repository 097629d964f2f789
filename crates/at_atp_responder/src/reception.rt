//! What came of a packet at the side that answers, and what names a request there.
ghost use Rattle.std.proofs.Common.{rules};
ghost use Rattle.std.specs.Cmp.Rules.{hashing};
ghost use Rattle.std.specs.Hash as fed;
ghost use Rattle.std.specs.Prelude.{◌≡◌};
ghost use Rattle.at_atp_responder.specs.Keys.{packed};

use at_ddp::Address;
use std::hash::{Hash, Hasher};

/// What names a request: the socket that asked, and the transaction number.
#[derive(Clone, Copy, Debug, PartialEq, Eq)]
pub struct Key {
    pub from: Address,
    pub tid: u16,
}

// A key is hashed at each look-up. One number takes one write, and each field would take one.
impl Hash for Key {
    ghost hash_input = { λ key. fed.u64 (packed key) };

    ghost respects_eq = { Prim.search (hashing, rules) };

    fn hash<H: Hasher>(&self, state: &mut H) {
        state.write_u64(packed(*self));
    }
}

// All fields of a key in one number.
fn packed(key: Key) -> u64
    ensures { result ≡ packed key }
{
    let Address { net, node, socket } = key.from;
    let from = u64::from(net) * 65536 + u64::from(node) * 256 + u64::from(socket);
    from * 65536 + u64::from(key.tid)
}

/// A request that is new and at-least-once, and finds a place.
#[derive(Clone, Copy, Debug, PartialEq, Eq)]
pub struct NewRequest {
    pub key: Key,
    /// Which packets of the answer it asks for.
    pub bitmap: u8,
}

/// What came of a packet at a responder.
#[derive(Clone, Copy, Debug, PartialEq, Eq)]
pub enum Reception {
    /// The packet had no effect.
    Ignored,
    /// The request is new. It waits for its answer from now on.
    New(Key),
    /// A request that has a record came again, and so many packets were sent again.
    Again(u8),
    /// The answer to an exactly-once request arrived complete, so it is no longer kept.
    Released,
}
