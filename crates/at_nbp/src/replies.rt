//! The replies to a lookup: the names that match, as many in each reply as fit.
ghost use Rattle.std.specs.Prelude.{◌≡◌, ◌<◌, ◌≤◌, [], All, List, length, map, IfOk, IsOk, OnOk, OnErr};
ghost use Rattle.at_ddp.specs.Sending.{Sends};
ghost use Rattle.at_nbp.specs.Replies.{Answers, AreReplies, IsFull, entry_in, matching, name_in};
ghost use Rattle.at_nbp.specs.Names.{is_match};
ghost use Rattle.at_nbp.specs.Tuples.{Entry, FitsStrings, content};

use crate::name::{Name, matches_texts};
use crate::names::{Names, Registered};
use crate::packet::{HEADER_LEN, MAX_TUPLES, write_reply};
use crate::tuple::{Tuple, spelled_len};
use at_ddp::{Address, MAX_DATA, Outbox};
use std::alloc::{AllocError, Allocator};

impl<A: Allocator + Copy> Names<A> {
    /// Answers a lookup: sends the names that match its pattern to the socket that asked, in replies that are as full
    /// as fit, and returns how many match. If none does, it sends nothing and needs no memory. The error is out of
    /// memory.
    pub fn answer(
        &self,
        id: u8,
        to: Address,
        pattern: &Name,
        out: &mut Outbox<A>,
    ) -> Result<usize, AllocError>
        ensures count { IfOk result (λ count. count ≡ length (matching self.now pattern.now)) }
        ensures sent { OnOk result (Answers (matching self.now pattern.now) id to out.old out.new) }
        ensures nothing_sent { OnErr result (Sends out.old out.new []) }
        ensures ignored { length (matching self.now pattern.now) ≡ 0 → IsOk result }
        ensures owed { OnErr result ((replies : List (List Entry))
            × AreReplies (matching self.now pattern.now) replies) }
    {
        let count = self.count_matching(pattern);
        if count == 0 {
            return Ok(0);
        }
        let found = self.matching(pattern)?;
        send_replies(self.alloc, id, to, &found, out)?;
        Ok(count)
    }

    // How many names match. Their strings are read, so that it is known how short they are.
    fn count_matching(&self, pattern: &Name) -> usize
        ensures count { result ≡ length (matching self.now pattern.now) }
        ensures short { All FitsStrings (matching self.now pattern.now) }
    {
        let mut count = 0;
        for name in self.listed() {
            if self.is_match(pattern, name) {
                let _tuple = self.tuple_of(name);
                count += 1;
            }
        }
        count
    }

    // The names that match, as the tuples of replies.
    fn matching(&self, pattern: &Name) -> Result<Vec<Tuple<'_>, A>, AllocError>
        ensures found { IfOk result (λ found. map content found.items ≡ matching self.now pattern.now) }
        ensures short { IfOk result (λ found. All FitsStrings (map content found.items)) }
        ensures few { IfOk result (λ found. length found.items ≤ 64) }
    {
        let mut found = Vec::with_capacity(self.alloc, self.names.len())?;
        for name in self.listed() {
            if self.is_match(pattern, name) {
                found.push(self.tuple_of(name)).unwrap();
            }
        }
        Ok(found)
    }

    fn is_match(&self, pattern: &Name, name: &Registered) -> bool
        ensures { result ≡ is_match pattern.now (name_in self.now name.now) }
    {
        matches_texts(
            pattern,
            name.object.bytes(),
            name.kind.bytes(),
            self.zone.bytes(),
        )
    }

    fn tuple_of<'a>(&'a self, name: &'a Registered) -> Tuple<'a>
        ensures entry { content result ≡ entry_in self.now name.now }
        ensures short { FitsStrings (content result) }
    {
        Tuple {
            address: Address {
                socket: name.socket,
                ..self.own
            },
            enumerator: name.enumerator,
            object: name.object.bytes(),
            kind: name.kind.bytes(),
            zone: self.zone.bytes(),
        }
    }
}

// Sends tuples in replies that are as full as fit.
fn send_replies<A: Allocator + Copy>(
    alloc: A,
    id: u8,
    to: Address,
    tuples: &[Tuple<'_>],
    out: &mut Outbox<A>,
) -> Result<(), AllocError>
    requires short { All FitsStrings (map content tuples.now) }
    requires few { length tuples.now ≤ 64 }
    ensures sent { OnOk result (Answers (map content tuples.now) id to out.old out.new) }
    ensures nothing_sent { OnErr result (Sends out.old out.new []) }
{
    let mut bytes = Vec::with_capacity(alloc, MAX_DATA)?;
    out.room(tuples.len() as u32, MAX_DATA)?;
    let mut sent = 0;
    while sent < tuples.len() {
        let count = fitting(&tuples[sent..]);
        write_reply(id, &tuples[sent..sent + count], &mut bytes);
        out.push(to, bytes.as_slice()).unwrap();
        sent += count;
    }
    Ok(())
}

/// How many of the tuples go into the next reply. No string is over 32 bytes.
fn fitting(tuples: &[Tuple<'_>]) -> usize
    requires some { 0 < length tuples.now }
    requires short { All FitsStrings (map content tuples.now) }
    ensures { IsFull (map content tuples.now) result }
{
    let mut len = HEADER_LEN;
    for (count, tuple) in tuples.iter().enumerate() {
        len += spelled_len(tuple);
        if count == MAX_TUPLES || len > MAX_DATA {
            return count;
        }
    }
    tuples.len()
}
