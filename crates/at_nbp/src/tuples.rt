//! The tuples of a packet, which stay in the bytes that it was decoded from.
ghost use Rattle.std.specs.Prelude.{◌≡◌, ◌++◌, ◌∷◌, ◌≤◌, [], length, All, IfOk, IfErr, IfSome, None};
ghost use Rattle.std.specs.List.{flat_map};
ghost use Rattle.std.specs.Iterator.{YieldsFirstBy, item_count};
ghost use Rattle.at_nbp.specs.Fault.{StandsAfterTuples};
ghost use Rattle.at_nbp.specs.Tuples.{IsTuple, content, tuple_spelling};

use crate::fault::NbpFault;
use crate::tuple::{Tuple, take_tuple};
use std::marker::Model;

/// The tuples of a packet that are still to be read, in their order. They stay in the bytes that the packet was decoded
/// from, and all of them are whole.
#[derive(Drop)]
pub struct Tuples<'a> {
    count: u8,
    bytes: &'a [u8],
}

impl<'a> Model for Tuples<'a> {
    ghost use Rattle.std.specs.Prelude.{List};
    ghost use Rattle.at_nbp.specs.Tuples.{Entry};

    ghost Value = { List Entry };

    ghost use Rattle.at_nbp.specs.Unread.{AreUnread, entries};

    ghost view = { λ t. entries t.count t.bytes.now };

    ghost invariant = { λ t. AreUnread t.count t.bytes.now };
}

impl<'a> Tuples<'a> {
    /// How many tuples are still to be read, 0 to 15.
    pub fn unread(&self) -> usize
        ensures count { result ≡ length self.now }
        ensures few { result ≤ 15 }
        ensures lawful { All IsTuple self.now }
    {
        usize::from(self.count)
    }

    /// The same tuples, to be read apart from these.
    pub fn iter(&self) -> Tuples<'a>
        ensures { result ≡ self.now }
    {
        Tuples {
            count: self.count,
            bytes: self.bytes,
        }
    }

    /// The tuple, if one alone is still to be read.
    pub fn only(&self) -> Tuple<'a>
        requires { length self.now ≡ 1 }
        ensures value { self.now ≡ content result ∷ [] }
        ensures lawful { IsTuple (content result) }
    {
        let mut tuples = self.iter();
        tuples.take_next().unwrap()
    }

    // The next tuple, which is whole.
    pub(crate) fn take_next(&mut self) -> Option<Tuple<'a>>
        ensures next { IfSome result (λ t. self.old ≡ content t ∷ self.new) }
        ensures lawful { IfSome result (λ t. IsTuple (content t)) }
        ensures end { result ≡ None → (self.old ≡ []) × (self.new ≡ []) }
    {
        if self.count == 0 {
            return None;
        }
        let (tuple, rest) = take_tuple(self.bytes).unwrap();
        self.count -= 1;
        self.bytes = rest;
        Some(tuple)
    }
}

impl<'a> Iterator for Tuples<'a> {
    type Item = Tuple<'a>;

    ghost next_gives = { YieldsFirstBy content (λ s. s) };

    ghost remaining = { item_count (λ s. s) };

    fn next(&mut self) -> Option<Tuple<'a>> {
        self.take_next()
    }
}

/// So many tuples at the front, at most 15, and the bytes after them. The error is the first fault of a tuple.
pub(crate) fn take_tuples(count: u8, bytes: &[u8]) -> Result<(Tuples<'_>, &[u8]), NbpFault>
    requires { count ≤ 15 }
    ensures each { IfOk result (λ r. All IsTuple r.0) }
    ensures count { IfOk result (λ r. length r.0 ≡ count) }
    ensures found { IfOk result (λ r. bytes.now ≡ flat_map tuple_spelling r.0 ++ r.1.now) }
    ensures fault { IfErr result (λ fault. StandsAfterTuples fault count bytes.now) }
{
    let mut rest = bytes;
    for _ in 0..count {
        let (_, after) = take_tuple(rest)?;
        rest = after;
    }
    Ok((Tuples { count, bytes }, rest))
}
