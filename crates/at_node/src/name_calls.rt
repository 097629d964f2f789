//! The calls and the timer of the socket for names.
ghost use Rattle.std.specs.Prelude.{◌≡◌, List, IfOk, IsSome, OnErr};
ghost use Rattle.at_ddp.specs.Outbox.{Posted};
ghost use Rattle.at_name_socket.specs.NameSockets.{finds_told};
ghost use Rattle.at_node.specs.NameCalls.{claim_called, find_called, finish_called, lookup_fired};
ghost use Rattle.at_node.specs.NameCalls.{register_called, told_of, unregister_called};
ghost use Rattle.at_event.specs.Outcomes.{IsStep};

use crate::name_part::NamePart;
use at_ddp::{Listed, NBP, Outbox, Pascal};
use at_event::{NameReport, Report, Seat};
use at_name_socket::{Finished, NAME_SOCKET};
use at_nbp::{Find, Name, copy_of};
use at_transaction_socket::refused;
use std::alloc::{AllocError, Allocator};

impl<A: Allocator + Copy> NamePart<A> {
    // Looks up the names that match a pattern.
    pub(crate) fn find(&mut self, seat: Seat, pattern: Name, out: &mut Outbox<A>) -> Report<A>
        ensures { IsStep (find_called seat self.old pattern) self.old out.old.items result self.new out.new.items }
    {
        out.send_from(seat.at(NAME_SOCKET), NBP);
        match self.socket.find(pattern, out) {
            Ok(id) => Report::Names(NameReport::Looking(id)),
            Err(fault) => refused(fault.number()),
        }
    }

    // Begins to claim a name for a socket.
    pub(crate) fn claim(
        &mut self,
        seat: Seat,
        object: &Pascal,
        kind: &Pascal,
        socket: u8,
        out: &mut Outbox<A>,
    ) -> Report<A>
        ensures { IsStep (claim_called seat self.old object.now kind.now socket) self.old out.old.items result self.new
            out.new.items }
    {
        out.send_from(seat.at(NAME_SOCKET), NBP);
        match self
            .socket
            .claim(copy_of(object), copy_of(kind), socket, out)
        {
            Ok(id) => Report::Names(NameReport::Looking(id)),
            Err(fault) => refused(fault.number()),
        }
    }

    // Ends a lookup, and with it a claim.
    pub(crate) fn finish(&mut self, id: u8) -> Report<A>
        ensures { (sent : List Posted) → IsStep (finish_called self.old id) self.old sent result self.new sent }
    {
        match self.socket.finish(id) {
            Ok(finished) => told_of(finished),
            Err(fault) => refused(fault.number()),
        }
    }

    // A copy of what a lookup found so far, if it is open and no claim.
    pub(crate) fn finds_told(&self, id: u8) -> Result<Option<Listed<Find, A>>, AllocError>
        ensures copy { IfOk result (λ finds. finds ≡ finds_told self.now id) }
        ensures memory { OnErr result (IsSome (finds_told self.now id)) }
    {
        self.socket.finds_told(id)
    }

    // Asks again for an open lookup.
    pub(crate) fn ask_again(&mut self, seat: Seat, id: u8, out: &mut Outbox<A>) -> Report<A>
        ensures { IsStep (lookup_fired seat self.old id) self.old out.old.items result self.new out.new.items }
    {
        out.send_from(seat.at(NAME_SOCKET), NBP);
        match self.socket.retry(id, out) {
            Ok(()) => Report::Again,
            Err(fault) => refused(fault.number()),
        }
    }

    // Registers a name for a socket.
    pub(crate) fn register(&mut self, object: &Pascal, kind: &Pascal, socket: u8) -> Report<A>
        ensures { (sent : List Posted)
            → IsStep (register_called self.old object.now kind.now socket) self.old sent result self.new sent }
    {
        match self.socket.register(copy_of(object), copy_of(kind), socket) {
            Ok(()) => Report::Names(NameReport::Registered),
            Err(fault) => refused(fault.number()),
        }
    }

    // Takes a name away.
    pub(crate) fn unregister(&mut self, object: &Pascal, kind: &Pascal) -> Report<A>
        ensures { (sent : List Posted)
            → IsStep (unregister_called self.old object.now kind.now) self.old sent result self.new sent }
    {
        match self.socket.unregister(object, kind) {
            Ok(()) => Report::Names(NameReport::Unregistered),
            Err(fault) => refused(fault.number()),
        }
    }
}

// The report of the end of a lookup.
fn told_of<A: Allocator>(finished: Finished<A>) -> Report<A>
    ensures { result ≡ told_of finished }
{
    match finished {
        Finished::Found(finds) => Report::Names(NameReport::Found(finds)),
        Finished::Claimed => Report::Names(NameReport::Claimed),
        Finished::Taken(owner) => Report::Names(NameReport::Taken(owner)),
    }
}
