//! The part of a node that speaks ATP: its calls and its timers, each at the sockets that have it.
ghost use Rattle.std.specs.Prelude.{◌≡◌, ◌≤◌, List};
ghost use Rattle.at_atp_requester.specs.Requests.{retried};
ghost use Rattle.at_ddp.specs.Outbox.{Posted};
ghost use Rattle.at_event.specs.Outcomes.{IsStep, over};
ghost use Rattle.at_transaction_socket.specs.RequesterSocket.{ask_called};
ghost use Rattle.at_transaction_socket.specs.ServiceSocket.{answer_called};
ghost use Rattle.at_zone_socket.specs.AtpParts.{opening, with_transactions, with_zones};
ghost use Rattle.at_zone_socket.specs.AtpTimers.{release_fired, retry_fired};
ghost use Rattle.at_zone_socket.specs.ZoneReading.{zones_called};
ghost use Rattle.at_zone_socket.specs.ZoneSocket.{set_zones_called};

use crate::zone_socket::{ZONE_SOCKET, ZoneSocket};
use at_atp::{AtpFault, Key, Packet, Retry};
use at_ddp::{Listed, Outbox, Pascal};
use at_event::{Report, Seat, TransactionReport};
use at_transaction_socket::{Question, SERVICE_SOCKET, TransactionSocket, refused};
use at_zip::{TableChoice, Tables};
use std::alloc::{Allocator, Global};
use std::marker::Model;

/// The part of a node that speaks ATP.
#[derive(Drop)]
pub struct AtpPart<A: Allocator = Global> {
    pub(crate) transactions: TransactionSocket<A>,
    pub(crate) zones: ZoneSocket<A>,
}

impl<A: Allocator> Model for AtpPart<A> {
    ghost use Rattle.at_zone_socket.specs.AtpParts.{AtpState};

    ghost Value = { AtpState };

    ghost view = { λ a. record { transactions = a.transactions; zones = a.zones } };
}

impl<A: Allocator + Copy> AtpPart<A> {
    /// A part without transactions and records, where no zone table is read. `tables` are the router's.
    pub fn new(alloc: A, tables: Option<Tables<A>>) -> AtpPart<A>
        ensures { result ≡ opening tables }
    {
        AtpPart {
            transactions: TransactionSocket::new(alloc),
            zones: ZoneSocket::new(alloc, tables),
        }
    }

    /// Begins a transaction, and sends its request.
    pub fn ask(&mut self, seat: Seat, question: &Question<'_>, out: &mut Outbox<A>) -> Report<A>
        requires some { 1 ≤ question.now.wanted }
        requires few { question.now.wanted ≤ 8 }
        ensures { IsStep (over (with_transactions self.old) (ask_called seat self.old.transactions question.now.to
            question.now.user question.now.bytes.now question.now.wanted question.now.exactly_once
            question.now.retries)) self.old out.old.items result self.new out.new.items }
    {
        self.transactions.ask(seat, question, out)
    }

    /// Answers a request that was delivered to the service.
    pub fn answer(
        &mut self,
        seat: Seat,
        key: Key,
        packets: &[Packet<A>],
        out: &mut Outbox<A>,
    ) -> Report<A>
        ensures { IsStep (over (with_transactions self.old)
            (answer_called seat self.old.transactions key packets.now)) self.old out.old.items result self.new
            out.new.items }
    {
        self.transactions.answer(seat, key, packets, out)
    }

    /// Asks the router for a zone table.
    pub fn read_zones(&mut self, seat: Seat, which: TableChoice, out: &mut Outbox<A>) -> Report<A>
        ensures { IsStep (zones_called seat self.old which seat.router self.old.zones.reading) self.old out.old.items
            result self.new out.new.items }
    {
        self.zones.read(seat, which, &mut self.transactions, out)
    }

    /// Replaces one of the router's two zone tables.
    pub fn set_zones(&mut self, which: TableChoice, names: &[Pascal]) -> Report<A>
        ensures { (items : List Posted) → IsStep (over (with_zones self.old)
            (set_zones_called self.old.zones self.old.zones.tables which names.now)) self.old items result self.new
            items }
    {
        self.zones.set_table(which, names)
    }

    /// Sends the request of this number again, or closes its transaction. If that reads a zone table, the reading ends.
    pub fn retry(&mut self, seat: Seat, tid: u16, out: &mut Outbox<A>) -> Report<A>
        ensures { IsStep (retry_fired seat self.old tid (retried self.old.transactions.requester tid)) self.old
            out.old.items result self.new out.new.items }
    {
        match self.transactions.retry(seat, tid, out) {
            Ok(Retry::AskedAgain) => Report::Again,
            Ok(Retry::Failed) => self.zones.fail(tid),
            Err(fault) => refused(fault.number()),
        }
    }

    /// Removes the record of a request, at the service's socket or at the zone socket.
    pub fn expire(&mut self, own: u8, key: Key) -> Report<A>
        ensures report { result ≡ (release_fired {A = A} self.old own key).report }
        ensures state { self.new ≡ (release_fired {A = A} self.old own key).state }
    {
        let expired = match own {
            SERVICE_SOCKET => self.transactions.expire(key),
            ZONE_SOCKET => self.zones.expire(key),
            _ => Err(AtpFault::NoSuch),
        };
        match expired {
            Ok(()) => Report::Transactions(TransactionReport::Expired),
            Err(fault) => refused(fault.number()),
        }
    }

    /// Keeps the room of a list that is no longer wanted, if there is one, for the list that the next reading ends
    /// with.
    pub fn keep_room(&mut self, list: Option<Listed<Pascal, A>>)
        ensures { self.new ≡ self.old }
    {
        self.zones.keep_room(list);
    }
}
