//! A name that a lookup found. Copies of it need no memory.
ghost use Rattle.std.specs.Prelude.{◌≡◌};

use crate::name::Name;
use at_ddp::{Address, Pascal};

/// A name that a lookup found, and the socket that has it.
#[derive(Debug, Drop, PartialEq, Eq, Hash)]
pub struct Find {
    pub name: Name,
    pub address: Address,
    /// Which of several names of one socket this is.
    pub enumerator: u8,
}

impl Find {
    /// The same find once more. This needs no memory.
    pub fn copy(&self) -> Find
        ensures { result ≡ self.now }
    {
        Find {
            name: Name {
                object: copy_of(&self.name.object),
                kind: copy_of(&self.name.kind),
                zone: copy_of(&self.name.zone),
            },
            address: self.address,
            enumerator: self.enumerator,
        }
    }
}

/// The same text once more. This needs no memory.
pub fn copy_of(text: &Pascal) -> Pascal
    ensures { result ≡ text.now }
{
    Pascal::new(text.bytes()).unwrap()
}

// What an array of finds holds in places that are free.
impl Default for Find {
    ghost use Rattle.std.specs.Prelude.{◌≡◌};

    ghost is_default = { λ f. f.enumerator ≡ 0 };

    fn default() -> Find {
        Find {
            name: Name {
                object: Pascal::new(b"").unwrap(),
                kind: Pascal::new(b"").unwrap(),
                zone: Pascal::new(b"").unwrap(),
            },
            address: Address {
                net: 0,
                node: 0,
                socket: 0,
            },
            enumerator: 0,
        }
    }
}
