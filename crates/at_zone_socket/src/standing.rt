//! What stands at the part: open transactions, records of requests, and the reading of a zone table.
ghost use Rattle.std.specs.Prelude.{◌≡◌, ◌<◌, ◌≤◌, ◌||◌, length, is_some, slice_get, IfSome};
ghost use Rattle.std.specs.List.{list_any};
ghost use Rattle.at_atp_requester.specs.Requests.{IsRequester, next_number};
ghost use Rattle.at_atp_responder.specs.Keys.{AreApart};
ghost use Rattle.at_atp_responder.specs.Records.{expiring_key, is_from};
ghost use Rattle.at_zone_socket.specs.AtpTimers.{records_at};
ghost use Rattle.at_zip.specs.Tables.{AreTables};

use crate::atp_part::AtpPart;
use crate::zone_socket::{ZONE_SOCKET, ZoneSocket};
use at_atp::Key;
use at_atp::laws::{at_most_64_records_stand, no_two_records_are_of_one_request};
use at_transaction_socket::SERVICE_SOCKET;
use std::alloc::Allocator;

impl<A: Allocator + Copy> AtpPart<A> {
    /// At most 32 transactions are open, at most 64 records stand at each socket that answers, and each zone table has
    /// at most 1,024 names. The body only visits them.
    pub fn limits(&self)
        ensures requester { IsRequester self.now.transactions.requester }
        ensures zone_records { length self.now.zones.zone_responder ≤ 64 }
        ensures service_records { length self.now.transactions.service_responder ≤ 64 }
        ensures tables { IfSome self.now.zones.tables AreTables }
    {
        self.transactions.limits();
        self.zones.limits();
    }

    /// No two records of a socket are of one request. The body only visits them.
    pub fn keys_differ(&self)
        ensures zones { AreApart self.now.zones.zone_responder }
        ensures services { AreApart self.now.transactions.service_responder }
    {
        self.zones.keys_differ();
        self.transactions.keys_differ();
    }

    /// Whether a zone table is being read.
    pub fn reads_zones(&self) -> bool
        ensures { result ≡ is_some self.now.zones.reading }
    {
        self.zones.reads()
    }

    /// The number that the next transaction will get; none if 32 are open. This needs no memory.
    pub fn next_tid(&self) -> Option<u16>
        ensures { result ≡ next_number self.now.transactions.requester }
    {
        self.transactions.next_tid(None)
    }

    /// How many transactions are open.
    pub fn open_count(&self) -> usize
        ensures { result ≡ length self.now.transactions.requester.standing }
    {
        self.transactions.open_count()
    }

    /// The number of the open transaction at a place. The one that began first has place 0.
    pub fn number_at(&self, place: usize) -> u16
        requires { place < length self.now.transactions.requester.standing }
        ensures { IfSome (slice_get self.now.transactions.requester.standing place) (λ t. result ≡ t.tid) }
    {
        self.transactions.number_at(place)
    }

    /// Whether there is a record of a request that has this number and came from a node with this number.
    pub fn holds_number(&self, node: u8, tid: u16) -> bool
        ensures { result ≡ (list_any (is_from node tid) self.now.zones.zone_responder
            || list_any (is_from node tid) self.now.transactions.service_responder) }
    {
        self.zones.holds_number(node, tid) || self.transactions.holds_number(node, tid)
    }

    /// How many records stand at a socket that answers; none at any other.
    pub fn record_count(&self, socket: u8) -> usize
        ensures { result ≡ length (records_at self.now socket) }
    {
        match socket {
            SERVICE_SOCKET => self.transactions.record_count(),
            ZONE_SOCKET => self.zones.record_count(),
            _ => 0,
        }
    }

    /// The key of the record at a place of a socket, if that record can expire. The first that came has place 0.
    pub fn expiring_at(&self, socket: u8, place: usize) -> Option<Key>
        requires { place < length (records_at self.now socket) }
        ensures { IfSome (slice_get (records_at self.now socket) place) (λ r. result ≡ expiring_key r) }
    {
        match socket {
            SERVICE_SOCKET => self.transactions.expiring_at(place),
            ZONE_SOCKET => self.zones.expiring_at(place),
            _ => None,
        }
    }
}

impl<A: Allocator + Copy> ZoneSocket<A> {
    /// At most 64 records stand, and each zone table has at most 1,024 names. The body only visits them.
    pub fn limits(&self)
        ensures records { length self.now.zone_responder ≤ 64 }
        ensures tables { IfSome self.now.tables AreTables }
    {
        at_most_64_records_stand(&self.zone_responder);
        if let Some(tables) = &self.tables {
            tables.limits();
        }
    }

    /// No two records are of one request. The body only visits them.
    pub fn keys_differ(&self)
        ensures { AreApart self.now.zone_responder }
    {
        no_two_records_are_of_one_request(&self.zone_responder);
    }

    /// Whether the node has zone tables: only a router serves its zone socket.
    pub fn is_router(&self) -> bool
        ensures { result ≡ is_some self.now.tables }
    {
        self.tables.is_some()
    }

    /// Whether a zone table is being read.
    pub fn reads(&self) -> bool
        ensures { result ≡ is_some self.now.reading }
    {
        self.reading.is_some()
    }

    /// Whether there is a record of a request that has this number and came from a node with this number.
    pub fn holds_number(&self, node: u8, tid: u16) -> bool
        ensures { result ≡ list_any (is_from node tid) self.now.zone_responder }
    {
        self.zone_responder.holds_number(node, tid)
    }

    /// How many records stand.
    pub fn record_count(&self) -> usize
        ensures { result ≡ length self.now.zone_responder }
    {
        self.zone_responder.record_count()
    }

    /// The key of the record at a place, if that record can expire. The first that came has place 0.
    pub fn expiring_at(&self, place: usize) -> Option<Key>
        requires { place < length self.now.zone_responder }
        ensures { IfSome (slice_get self.now.zone_responder place) (λ r. result ≡ expiring_key r) }
    {
        self.zone_responder.expiring_at(place)
    }
}
