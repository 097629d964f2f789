//! What stands at the sockets for transactions: open transactions, and records of requests for the service.
ghost use Rattle.std.specs.Prelude.{◌≡◌, ◌<◌, ◌≤◌, length, slice_get, IfSome, true, Some};
ghost use Rattle.std.specs.List.{list_any};
ghost use Rattle.at_ddp.specs.declared.address.Address.{Address as From};
ghost use Rattle.at_atp_frame.specs.Frames.{Content, number_of};
ghost use Rattle.at_atp_requester.specs.Requests.{IsRequester, closing, finishes, heard, next_number};
ghost use Rattle.at_atp_responder.specs.Keys.{AreApart};
ghost use Rattle.at_atp_responder.specs.Records.{expiring_key, is_from};

use crate::transaction_socket::TransactionSocket;
use at_atp::Key;
use at_atp::laws::{at_most_64_records_stand, no_two_records_are_of_one_request};
use std::alloc::Allocator;

impl<A: Allocator + Copy> TransactionSocket<A> {
    /// At most 32 transactions are open, and at most 64 records stand. The body only visits them.
    pub fn limits(&self)
        ensures requester { IsRequester self.now.requester }
        ensures records { length self.now.service_responder ≤ 64 }
    {
        self.requester.limits();
        at_most_64_records_stand(&self.service_responder);
    }

    /// No two records are of one request. The body only visits them.
    pub fn keys_differ(&self)
        ensures { AreApart self.now.service_responder }
    {
        no_two_records_are_of_one_request(&self.service_responder);
    }

    /// The number that the next transaction will get, if this one is closed before; none if 32 are open. This needs no
    /// memory.
    pub fn next_tid(&self, closed: Option<u16>) -> Option<u16>
        ensures number { result ≡ next_number (closing self.now.requester closed) }

        // So it tells the number that a turn will draw.
        ensures turn { (from : From) (f : Content) → finishes A self.now.requester from f ≡ true
            → closed ≡ Some (number_of f) → result ≡ next_number (heard {A = A} self.now.requester from f).after }
    {
        self.requester.next_number(closed)
    }

    /// How many transactions are open.
    pub fn open_count(&self) -> usize
        ensures { result ≡ length self.now.requester.standing }
    {
        self.requester.open_count()
    }

    /// The number of the open transaction at a place. The one that began first has place 0.
    pub fn number_at(&self, place: usize) -> u16
        requires { place < length self.now.requester.standing }
        ensures { IfSome (slice_get self.now.requester.standing place) (λ t. result ≡ t.tid) }
    {
        self.requester.number_at(place)
    }

    /// Whether there is a record of a request that has this number and came from a node with this number.
    pub fn holds_number(&self, node: u8, tid: u16) -> bool
        ensures { result ≡ list_any (is_from node tid) self.now.service_responder }
    {
        self.service_responder.holds_number(node, tid)
    }

    /// How many records stand.
    pub fn record_count(&self) -> usize
        ensures { result ≡ length self.now.service_responder }
    {
        self.service_responder.record_count()
    }

    /// The key of the record at a place, if that record can expire. The first that came has place 0.
    pub fn expiring_at(&self, place: usize) -> Option<Key>
        requires { place < length self.now.service_responder }
        ensures { IfSome (slice_get self.now.service_responder place) (λ r. result ≡ expiring_key r) }
    {
        self.service_responder.expiring_at(place)
    }
}
