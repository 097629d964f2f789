//! The responder of a socket: what packets and timers do to its records. `answering.rt` has the answers.
ghost use Rattle.std.specs.Prelude.{◌≡◌, ◌≢◌, ◌↔◌, [], true, find, is_some, IfOk, IfErr, IfSome, OnOk, OnErr, IsOk};
ghost use Rattle.std.specs.Prelude.{IsErrOf, None, Err, ◌<◌, length, slice_get};
ghost use Rattle.std.specs.List.{list_any};
ghost use Rattle.at_ddp.specs.Sending.{Sends};
ghost use Rattle.at_atp_frame.specs.Frames.{content, number_of};
ghost use Rattle.at_atp_responder.specs.Records.{is_from, is_key, received, finds_no_place, record_fault, expiry_fault};
ghost use Rattle.at_atp_responder.specs.Records.{IsTaken, expiring_key};
ghost use Rattle.at_ddp.specs.Tables.{without_first};

use crate::reception::{Key, Reception};
use crate::records::{
    Records, count, expiring_at, expiring_index, has_number, hear_release, hear_request, record_of,
    waiting,
};
use crate::settling::forget;
use at_atp_frame::{AtpFault, Frame};
use at_ddp::{Address, Outbox};
use std::alloc::{Allocator, Global};
use std::marker::Model;

/// The responder of a socket: a record for each request that came, with what became of it. It has at most 64 records.
#[derive(Drop)]
pub struct Responder<A: Allocator = Global> {
    pub(crate) alloc: A,
    pub(crate) records: Records<A>,
}

impl<A: Allocator> Model for Responder<A> {
    ghost use Rattle.std.specs.Prelude.{List};
    ghost use Rattle.at_atp_responder.specs.Records.{Record as Kept};

    ghost Value = { List Kept };

    ghost view = { λ r. r.records };

    ghost use Rattle.std.specs.Prelude.{◌≤◌, length};

    ghost invariant = { λ r. length r.records ≤ 64 };
}

impl<A: Allocator + Copy> Responder<A> {
    pub fn new(alloc: A) -> Responder<A>
        ensures { result ≡ [] }
    {
        Responder {
            alloc,
            records: Records::new(alloc),
        }
    }

    /// Takes a packet that came from this address. A new request waits for its answer from then on.
    pub fn receive(
        &mut self,
        from: Address,
        frame: &Frame<'_>,
        out: &mut Outbox<A>,
    ) -> Result<Reception, AtpFault>
        ensures ok { IfOk result (λ r. IsTaken (received self.old from (content frame.now)) r self.new out.old
            out.new) }
        ensures full { IsErrOf result AtpFault.Full ↔ (finds_no_place self.old from (content frame.now) ≡ true) }
        ensures memory { IfErr result (λ fault. fault ≢ AtpFault.Full → fault ≡ AtpFault.NoMemory) }
        ensures unchanged { OnErr result (self.new ≡ self.old) }
        ensures nothing_sent { OnErr result (Sends out.old out.new []) }

        // A packet that has no effect needs no memory. Neither does a release, nor a repeat of a request that waits.
        ensures ignored { (received self.old from (content frame.now)).reception ≡ Reception.Ignored → IsOk result }
        ensures released { (received self.old from (content frame.now)).reception ≡ Reception.Released → IsOk result }
        ensures waits { record_fault (find (is_key (record { from = from; tid = number_of (content frame.now) }))
            self.old) ≡ None → IsOk result }
    {
        match *frame {
            Frame::Request {
                mask: bitmap,
                xo,
                tid,
                ..
            } => {
                if bitmap == 0 {
                    return Ok(Reception::Ignored);
                }
                hear_request(
                    self.alloc,
                    &mut self.records,
                    Key { from, tid },
                    xo,
                    bitmap,
                    out,
                )
            }
            Frame::Release { tid } => Ok(hear_release(&mut self.records, Key { from, tid })),
            Frame::Response { .. } => Ok(Reception::Ignored),
        }
    }

    /// Whether this request has a record.
    pub fn holds(&self, key: Key) -> bool
        ensures { result ≡ is_some (find (is_key key) self.now) }
    {
        record_of(&self.records, key).is_some()
    }

    /// Whether a request with this number from this node has a record.
    pub fn holds_number(&self, node: u8, tid: u16) -> bool
        ensures { result ≡ list_any (is_from node tid) self.now }
    {
        has_number(&self.records, node, tid)
    }

    /// How many records there are.
    pub fn record_count(&self) -> usize
        ensures { result ≡ length self.now }
    {
        count(&self.records)
    }

    /// The key of the record at a place, if that record can expire. The first that came has place 0.
    pub fn expiring_at(&self, place: usize) -> Option<Key>
        requires { place < length self.now }
        ensures { IfSome (slice_get self.now place) (λ r. result ≡ expiring_key r) }
    {
        expiring_at(&self.records, place)
    }

    /// Removes the record of a request that waits, as if the request had not come. This needs no memory.
    pub fn undo(&mut self, key: Key) -> Result<(), AtpFault>
        ensures ok { OnOk result (self.new ≡ without_first (is_key key) self.old) }
        ensures refuses { IfSome (record_fault (find (is_key key) self.old)) (λ fault. result ≡ Err fault) }
        ensures succeeds { record_fault (find (is_key key) self.old) ≡ None → IsOk result }
        ensures unchanged { OnErr result (self.new ≡ self.old) }
    {
        let request = waiting(&self.records, key)?;
        forget(&mut self.records, key, request.index);
        Ok(())
    }

    /// Removes the record of a request that was answered, since its release timer fired. This needs no memory.
    pub fn expire(&mut self, key: Key) -> Result<(), AtpFault>
        ensures ok { OnOk result (self.new ≡ without_first (is_key key) self.old) }
        ensures refuses { IfSome (expiry_fault (find (is_key key) self.old)) (λ fault. result ≡ Err fault) }
        ensures succeeds { expiry_fault (find (is_key key) self.old) ≡ None → IsOk result }
        ensures unchanged { OnErr result (self.new ≡ self.old) }
    {
        let index = expiring_index(&self.records, key)?;
        forget(&mut self.records, key, index);
        Ok(())
    }
}
