//! A reading of a zone table that is open, which is a user of the transactions that it is lent. `page_taking.rt` has
//! what a page does to it.
ghost use Rattle.std.specs.Prelude.{◌≡◌, ◌+◌, ◌&&◌, [], length, nat_lt, not, Some};
ghost use Rattle.std.specs.Prelude.{IfSome, IsNone, IsSome, true, false};
ghost use Rattle.at_atp_frame.specs.Frames.{content};
ghost use Rattle.at_atp_requester.specs.Requests.{heard, next_number};
ghost use Rattle.at_event.specs.Outcomes.{IsStep};
ghost use Rattle.at_transaction_socket.specs.LastPackets.{IsLast};
ghost use Rattle.at_zone_socket.specs.AtpParts.{both};
ghost use Rattle.at_zone_socket.specs.Readings.{reading_of};
ghost use Rattle.at_zone_socket.specs.ZoneReading.{is_page, is_reading, reading_fails, zones_called};
ghost use Rattle.at_zip.specs.Request.{request_user};

use crate::zone_socket::{ZONE_SOCKET, ZoneSocket};
use at_ddp::{Address, Outbox};
use at_event::{NodeFault, Report, Seat, TransactionReport, ZoneReport};
use at_transaction_socket::{Incoming, LastPacket, Question, TransactionSocket, refused};
use at_zip::{PageView, TableChoice, ZoneReader, request_user};
use std::alloc::Allocator;

// How often a page is asked for again.
pub(crate) const RETRIES: u8 = 3;

// A reading of a zone table that is open.
#[derive(Drop)]
pub(crate) struct ZoneReading<A: Allocator> {
    // The table that is read.
    pub(crate) which: TableChoice,
    // The transaction that asks for the next page.
    pub(crate) tid: u16,
    // The names of the pages so far.
    pub(crate) reader: ZoneReader<A>,
}

impl<A: Allocator + Copy> ZoneSocket<A> {
    /// Asks the router for a zone table.
    pub fn read(
        &mut self,
        seat: Seat,
        which: TableChoice,
        transactions: &mut TransactionSocket<A>,
        out: &mut Outbox<A>,
    ) -> Report<A>
        ensures { IsStep (zones_called seat (both transactions.old self.old) which seat.router self.old.reading)
            (both transactions.old self.old) out.old.items result (both transactions.new self.new) out.new.items }
    {
        let Some(router) = seat.router else {
            return Report::Refused(NodeFault::NoRouter.number());
        };
        if self.reading.is_some() {
            return Report::Refused(NodeFault::StillReading.number());
        }
        let question = first_page(seat.there(router, ZONE_SOCKET), which);
        match transactions.begin(seat, &question, out) {
            Ok(tid) => {
                let reader = ZoneReader::new(self.alloc);
                self.reading = Some(ZoneReading { which, tid, reader });
                Report::Transactions(TransactionReport::Begun(tid))
            }
            Err(fault) => refused(fault.number()),
        }
    }

    // Whether a packet is the page that the reading asked for.
    pub(crate) fn is_page(&self, packet: &Incoming<'_>, transactions: &TransactionSocket<A>) -> bool
        ensures page { result ≡ is_page A (both transactions.now self.now) packet.now.from (content packet.now.frame) }
        ensures free { result ≡ true → IsSome (next_number
            (heard {A = A} transactions.now.requester packet.now.from (content packet.now.frame)).after) }
    {
        self.is_reading(packet.frame.tid()) && transactions.ending(packet).is_some()
    }

    // Takes the open reading out, if a packet is the page that it asked for.
    pub(crate) fn take_reading<'a>(
        &mut self,
        packet: &Incoming<'a>,
        transactions: &TransactionSocket<A>,
    ) -> Option<(ZoneReading<A>, LastPacket<'a>)>
        ensures received { IfSome result
            (λ r. self.old ≡ record self.new { reading = Some (reading_of r.0) }) }
        ensures last { IfSome result (λ r. IsLast A transactions.now.requester r.1) }
        ensures same { IfSome result (λ r. r.1.packet ≡ packet.now) }
        ensures page { IfSome result (λ r.
            is_page A (both transactions.now self.old) r.1.packet.from (content r.1.packet.frame) ≡ true) }
        ensures free { IfSome result (λ r. IsSome (next_number
            (heard {A = A} transactions.now.requester r.1.packet.from (content r.1.packet.frame)).after)) }
        ensures other { IsNone result
            → is_page A (both transactions.now self.old) packet.now.from (content packet.now.frame) ≡ false }
        ensures unchanged { IsNone result → self.new ≡ self.old }
    {
        if !self.is_reading(packet.frame.tid()) {
            return None;
        }
        let last = transactions.ending(packet)?;
        let reading = self.reading.take()?;
        Some((reading, last))
    }

    // Whether the next page is asked for after this one.
    pub(crate) fn asks_on(&self, page: &PageView<'_>) -> bool
        ensures { IfSome self.now.reading (λ r. result
            ≡ (not page.now.last && not (nat_lt 1024 (length r.names + length page.now.names)))) }
    {
        match &self.reading {
            Some(reading) => !page.is_last() && !reading.reader.is_too_long_with(page),
            None => false,
        }
    }

    fn is_reading(&self, tid: u16) -> bool
        ensures { result ≡ is_reading self.now.reading tid }
    {
        match &self.reading {
            Some(reading) => reading.tid == tid,
            None => false,
        }
    }

    /// The transaction of this number ended without an answer.
    pub fn fail(&mut self, tid: u16) -> Report<A>
        ensures report { result ≡ (reading_fails {A = A} self.old tid (is_reading self.old.reading tid)).report }
        ensures state { self.new ≡ (reading_fails {A = A} self.old tid (is_reading self.old.reading tid)).state }
    {
        if self.is_reading(tid) {
            self.reading = None;
            Report::Zones(ZoneReport::Unanswered)
        } else {
            Report::Transactions(TransactionReport::Failed(tid))
        }
    }
}

// The request for the first page of a zone table: one packet.
fn first_page(router: Address, which: TableChoice) -> Question<'static>
    ensures to { result.to ≡ router }
    ensures user { result.user ≡ request_user which 1 }
    ensures bytes { result.bytes.now ≡ [] }
    ensures wanted { result.wanted ≡ 1 }
    ensures at_least_once { result.exactly_once ≡ false }
    ensures retries { result.retries ≡ 3 }
{
    Question {
        to: router,
        user: request_user(which, 1),
        bytes: &[],
        wanted: 1,
        exactly_once: false,
        retries: RETRIES,
    }
}
