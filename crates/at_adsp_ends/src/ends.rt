//! The table of a node's ends: which of them an identifier or a remote names, and what is asked of the table.
ghost use Rattle.std.specs.Prelude.{◌≡◌, ◌≤◌, ◌<◌, ◌↔◌, find, length, is_some};
ghost use Rattle.std.specs.Prelude.{IfSome, None, Err, remove, slice_get};
ghost use Rattle.std.specs.List.{AllByRecursion, position_from, list_any};
ghost use Rattle.std.specs.Option.{option_copied};
ghost use Rattle.at_adsp_end.specs.Ends.{FitsRooms, has_remote};
ghost use Rattle.at_adsp_ends.specs.Calls.{heeding, listened, unread_at};
ghost use Rattle.at_adsp_ends.specs.Tables.{AreEnds, AreRooms, by_id, by_remote, has_remote_at};
ghost use Rattle.at_adsp_ends.specs.Tables.{next_id, no_ends};

use crate::identifiers::{FIRST, following, is_used};
use crate::remotes::{Remotes, forget, id_under};
use crate::standing::{Standing, any_at_from, end_named, index_of, limits_from};
use at_adsp_end::{End, Remote, Rooms, StreamFault, Tick};
use at_ddp::{Address, first_free};
use at_table::Table;
use indexmap::IndexMap;
use std::alloc::{Allocator, Global};
use std::marker::Model;

/// The most ends of a node.
pub const MAX_ENDS: usize = 16;

/// The ends of a node's streams, at most 16. Each is named by its connection identifier.
#[derive(Drop)]
pub struct Ends<A: Allocator = Global> {
    pub(crate) alloc: A,
    pub(crate) listening: bool,
    pub(crate) next: u16,
    pub(crate) rooms: Rooms,
    pub(crate) ends: Standing<A>,
    // Has room for each end that gets its remote later, so that no answer finds it full.
    pub(crate) remotes: Remotes<A>,
}

impl<A: Allocator> Model for Ends<A> {
    ghost use Rattle.at_adsp_ends.specs.Tables.{EndTable, AreEnds};

    ghost Value = { EndTable };

    ghost view = { λ t. record { listening = t.listening; next = t.next; rooms = t.rooms; ends = t.ends.items } };

    ghost use Rattle.indexmap.specs.IndexMap.{spare};
    ghost use Rattle.at_adsp_ends.specs.Filed.{AreFiled, named};

    ghost invariant = { λ t. AreEnds
        (record { listening = t.listening; next = t.next; rooms = t.rooms; ends = t.ends.items })
        × AreFiled t.ends (named t.remotes) (spare t.remotes) };
}

impl<A: Allocator + Copy> Ends<A> {
    /// A table without ends, which does not listen. Its ends will have queues of these rooms, at least 1 each.
    pub fn new(alloc: A, rooms: Rooms) -> Ends<A>
        requires { AreRooms rooms }
        ensures { result ≡ no_ends rooms }
    {
        Ends {
            alloc,
            listening: false,
            next: FIRST,
            rooms,
            ends: Table::new(alloc),
            remotes: IndexMap::new(alloc),
        }
    }

    /// Sets whether requests for connections are answered. This needs no memory.
    pub fn listen(&mut self, on: bool)
        ensures { self.new ≡ listened self.old on }
    {
        self.listening = on;
    }

    /// There are at most 16 ends, whose queues fit their rooms. The body only visits them.
    pub fn limits(&self)
        ensures ends { AreEnds self.now }
        ensures queues { AllByRecursion FitsRooms self.now.ends }
    {
        limits_from(&self.ends, 0);
        let _next = self.next;
    }

    /// The identifier that the next end will get; none if there are 16.
    pub fn next_id(&self) -> Option<u16>
        ensures id { result ≡ next_id self.now }
        ensures none { (result ≡ None) ↔ (16 ≤ length self.now.ends) }
    {
        let count = self.ends.len();
        if count < MAX_ENDS {
            first_free(
                self.next,
                count + 1,
                following,
                |id| is_used(&self.ends, id),
            )
        } else {
            None
        }
    }

    /// Whether an end is connected to the end of this address and identifier, or is about to be.
    pub fn has_remote(&self, address: Address, id: u16) -> bool
        ensures { result ≡ is_some (by_remote self.now (record { address = address; id = id })) }
    {
        self.end_of(Remote { address, id }).is_some()
    }

    /// Whether an end is connected to one with this identifier at a node with this number, whatever its network and its
    /// socket, or is about to be.
    pub fn holds_number(&self, node: u8, id: u16) -> bool
        ensures { result ≡ list_any (has_remote_at node id) self.now.ends }
    {
        any_at_from(&self.ends, 0, node, id)
    }

    /// How many ends there are.
    pub fn end_count(&self) -> usize
        ensures { result ≡ length self.now.ends }
    {
        self.ends.len()
    }

    /// The identifier of the end at a place, if this tick would do anything there. The end that was made first has
    /// place 0.
    pub fn heeding_at(&self, place: usize, tick: Tick) -> Option<u16>
        requires { place < length self.now.ends }
        ensures { IfSome (slice_get self.now.ends place) (λ e. result ≡ heeding tick e) }
    {
        let end = self.ends.at(place);
        if end.heeds(tick) {
            Some(end.id())
        } else {
            None
        }
    }

    /// How many items can be read of an end that is open or was.
    pub fn unread(&self, id: u16) -> Result<usize, StreamFault>
        ensures { result ≡ unread_at (by_id self.now id) }
    {
        match end_named(&self.ends, id) {
            None => Err(StreamFault::NoSuchEnd),
            Some(end) if end.has_opened() => Ok(end.unread()),
            Some(_) => Err(StreamFault::NotOpen),
        }
    }

    // Where the end stands that has this remote.
    pub(crate) fn index_of_remote(&self, remote: Remote) -> Option<usize>
        ensures first { result ≡ position_from (has_remote remote) 0 self.now.ends }
        ensures within { IfSome result (λ index. index < length self.now.ends) }
    {
        let id = id_under(&self.remotes, remote)?;
        index_of(&self.ends, id)
    }

    pub(crate) fn end_of(&self, remote: Remote) -> Option<&End<A>>
        ensures { option_copied result ≡ find (has_remote remote) self.now.ends }
    {
        let index = self.index_of_remote(remote)?;
        Some(self.ends.at(index))
    }

    // Removes the end at an index. This needs no memory.
    pub(crate) fn remove_at(&mut self, index: usize)
        requires { index < length self.old.ends }
        ensures { self.new ≡ record self.old { ends = remove self.old.ends index } }
    {
        let end = self.ends.remove(index);
        if let Some(remote) = end.remote() {
            forget(&mut self.remotes, remote);
        }
    }
}
