//! Short strings, of at most 32 bytes.
ghost use Rattle.std.specs.Prelude.{◌≡◌, ◌≤◌, ◌↔◌, length, IsSome, IfSome};

use arrayvec::ArrayVec;
use std::marker::Model;

/// A string of 0 to 32 bytes, as for the names of zones and of entities.
#[derive(Clone, Debug, Drop, PartialEq, Eq, Hash)]
pub struct Pascal {
    text: ArrayVec<u8, 32>,
}

impl Model for Pascal {
    ghost use Rattle.std.specs.Prelude.{ℕ, List};

    ghost Value = { List ℕ };

    ghost view = { λ p. p.text.items };

    ghost inverse = { λ bytes. record { text = record { items = bytes } } };
}

impl Pascal {
    pub const MAX_LEN: usize = 32;

    /// The string of these bytes; none if there are more than 32.
    pub fn new(bytes: &[u8]) -> Option<Pascal>
        ensures fits { IsSome result ↔ (length bytes.now ≤ 32) }
        ensures value { IfSome result (λ p. p ≡ bytes.now) }
    {
        let mut text = ArrayVec::new();
        text.try_extend_from_slice(bytes).ok()?;
        Some(Pascal { text })
    }

    pub fn bytes(&self) -> &[u8]
        ensures value { result.now ≡ self.now }
        ensures fits { length result.now ≤ 32 }
    {
        self.text.as_slice()
    }
}
