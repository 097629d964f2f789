//! What becomes of the page that a reading of a zone table asked for. Whoever takes a list that a reading ends with
//! gets two copies of it: one in the report, and one for the session.
ghost use Rattle.std.specs.Prelude.{◌≡◌, ◌≢◌, ◌++◌, List, ℕ, None, Option, Some};
ghost use Rattle.std.specs.Prelude.{IfSome, IsSome, true, false};
ghost use Rattle.at_ddp.specs.Outbox.{Posted};
ghost use Rattle.at_atp_frame.specs.Frames.{content};
ghost use Rattle.at_atp_requester.specs.Requests.{heard, next_number};
ghost use Rattle.at_event.specs.Outcomes.{Comes, IsStep, wants_memory};
ghost use Rattle.at_event.specs.Services.{is_asked};
ghost use Rattle.at_transaction_socket.specs.LastPackets.{IsLast};
ghost use Rattle.at_transaction_socket.specs.TransactionSockets.{packet_in};
ghost use Rattle.at_zone_socket.specs.AtpHearing.{AtRequester};
ghost use Rattle.at_zone_socket.specs.AtpParts.{both};
ghost use Rattle.at_zone_socket.specs.Readings.{reading_of};
ghost use Rattle.at_zone_socket.specs.ZoneReading.{AsksOn, TakesPage, is_page, reading_ends};
ghost use Rattle.at_zone_socket.specs.ZoneSockets.{Reading};
ghost use Rattle.at_zip.specs.Fault.{number_of as zip_number};
ghost use Rattle.at_zip.specs.Reading.{HasRoomFor};
ghost use Rattle.at_zip.specs.declared.request.TableChoice.{TableChoice as Table};

use crate::zone_reading::{RETRIES, ZoneReading};
use crate::zone_socket::ZoneSocket;
use at_ddp::{Listed, Outbox, Pascal};
use at_event::{Report, TransactionReport, ZoneReport};
use at_transaction_socket::{LastPacket, TransactionSocket};
use at_zip::{PageView, ZipFault, read_page, request_user};
use std::alloc::{AllocError, Allocator};
use std::mem;

impl<A: Allocator + Copy> ZoneSocket<A> {
    // Takes the page that the reading asked for.
    pub(crate) fn hear_page(
        &mut self,
        last: &LastPacket<'_>,
        reading: ZoneReading<A>,
        user: [u8; 4],
        bytes: &[u8],
        transactions: &mut TransactionSocket<A>,
        list: &mut Option<Listed<Pascal, A>>,
        out: &mut Outbox<A>,
    ) -> Report<A>
        requires page { is_page A (both transactions.old (record self.old { reading = Some (reading_of reading) }))
            last.now.packet.from (content last.now.packet.frame) ≡ true }
        requires free { IsSome (next_number
            (heard {A = A} transactions.old.requester last.now.packet.from (content last.now.packet.frame)).after) }
        requires last { IsLast A transactions.old.requester last.now }
        requires packet { packet_in (content last.now.packet.frame) ≡ record { user = user; data_ = bytes.now } }
        ensures comes { let before = both transactions.old (record self.old { reading = Some (reading_of reading) }) in
            Comes (AtRequester last.now.packet.seat before last.now.packet.from (content last.now.packet.frame)) before
            out.old.items result (both transactions.new self.new) out.new.items }
        ensures not_asked { is_asked result ≡ false }
        ensures listed { (which : Table) (names : List (List ℕ)) → result ≡ Report.Zones (ZoneReport.List which names)
            → list.new ≡ Some names }
    {
        match read_page(user, bytes) {
            Ok(page) => self.hear_names(last, reading, &page, transactions, list, out),
            Err(fault) => self.end_reading(last, transactions, zone_fault(fault)),
        }
    }

    // Takes the names of a page: the reading ends with them, or asks for the next page.
    fn hear_names(
        &mut self,
        last: &LastPacket<'_>,
        mut reading: ZoneReading<A>,
        page: &PageView<'_>,
        transactions: &mut TransactionSocket<A>,
        list: &mut Option<Listed<Pascal, A>>,
        out: &mut Outbox<A>,
    ) -> Report<A>
        requires last { IsLast A transactions.old.requester last.now }
        requires free { IsSome (next_number
            (heard {A = A} transactions.old.requester last.now.packet.from (content last.now.packet.frame)).after) }
        ensures comes { let before = both transactions.old (record self.old { reading = Some (reading_of reading) }) in
            Comes (TakesPage last.now.packet.seat before
            (heard transactions.old.requester last.now.packet.from (content last.now.packet.frame)) last.now.packet.from
            reading.reader.names page.now) before out.old.items result (both transactions.new self.new)
            out.new.items }
        ensures not_asked { is_asked result ≡ false }
        ensures listed { (which : Table) (names : List (List ℕ)) → result ≡ Report.Zones (ZoneReport.List which names)
            → list.new ≡ Some names }
    {
        let fault = match reading.reader.room(page) {
            Ok(()) if page.is_last() => {
                return self.finish(last, reading, page, transactions, list);
            }
            Ok(()) => return self.ask_on(last, reading, page, transactions, out),
            Err(fault) => fault,
        };
        match fault {
            ZipFault::NoMemory => {
                self.reading = Some(reading);
                Report::NoMemory
            }
            fault => self.end_reading(last, transactions, zone_fault(fault)),
        }
    }

    // Takes the packet with the last page of a reading, and tells all names. They are copied before anything changes.
    fn finish(
        &mut self,
        last: &LastPacket<'_>,
        reading: ZoneReading<A>,
        page: &PageView<'_>,
        transactions: &mut TransactionSocket<A>,
        list: &mut Option<Listed<Pascal, A>>,
    ) -> Report<A>
        requires room { HasRoomFor reading.reader page.now }
        requires last { IsLast A transactions.old.requester last.now }
        ensures step { let before = both transactions.old (record self.old { reading = Some (reading_of reading) }) in
            (items : List Posted) → IsStep (reading_ends last.now.packet.seat before
            (heard transactions.old.requester last.now.packet.from (content last.now.packet.frame))
            (Report.Zones (ZoneReport.List reading.which (reading.reader.names ++ page.now.names)))) before items
            result (both transactions.new self.new) items }
        ensures not_asked { is_asked result ≡ false }
        ensures listed { (which : Table) (names : List (List ℕ)) → result ≡ Report.Zones (ZoneReport.List which names)
            → list.new ≡ Some names }
    {
        let room = mem::replace(&mut self.names, Listed::from_vec(Vec::new(self.alloc)));
        let Ok(copy) = reading.reader.list_with(page, room) else {
            self.reading = Some(reading);
            return Report::NoMemory;
        };
        *list = Some(copy);
        transactions.close(last);
        self.reading = None;
        let ZoneReading { which, reader, .. } = reading;
        let names = reader.into_list(page);
        Report::Zones(ZoneReport::List { which, names })
    }

    // Takes the packet with a page of a reading, and asks for the next one.
    fn ask_on(
        &mut self,
        last: &LastPacket<'_>,
        mut reading: ZoneReading<A>,
        page: &PageView<'_>,
        transactions: &mut TransactionSocket<A>,
        out: &mut Outbox<A>,
    ) -> Report<A>
        requires room { HasRoomFor reading.reader page.now }
        requires last { IsLast A transactions.old.requester last.now }
        requires free { IsSome (next_number
            (heard {A = A} transactions.old.requester last.now.packet.from (content last.now.packet.frame)).after) }
        ensures comes { let before = both transactions.old (record self.old { reading = Some (reading_of reading) }) in
            Comes (AsksOn last.now.packet.seat before
            (heard transactions.old.requester last.now.packet.from (content last.now.packet.frame)) last.now.packet.from
            (reading.reader.names ++ page.now.names)) before out.old.items result (both transactions.new self.new)
            out.new.items }
        ensures not_asked { is_asked result ≡ false }
        ensures no_list { (which : Table) (names : List (List ℕ))
            → result ≢ Report.Zones (ZoneReport.List which names) }
    {
        let user = request_user(reading.which, reading.reader.after(page));
        match transactions.turn(last, user, RETRIES, out) {
            Ok(tid) => {
                reading.reader.take(page);
                reading.tid = tid;
                self.reading = Some(reading);
                Report::Transactions(TransactionReport::Begun(tid))
            }
            Err(AllocError) => {
                self.reading = Some(reading);
                Report::NoMemory
            }
        }
    }

    // The reading ends by its page, and this is told of it.
    fn end_reading(
        &mut self,
        last: &LastPacket<'_>,
        transactions: &mut TransactionSocket<A>,
        told: Report<A>,
    ) -> Report<A>
        requires last { IsLast A transactions.old.requester last.now }
        requires some { wants_memory told ≡ false }
        ensures step { (was : Option Reading) (items : List Posted) →
            let before = both transactions.old (record self.old { reading = was }) in
            IsStep (reading_ends last.now.packet.seat before
            (heard transactions.old.requester last.now.packet.from (content last.now.packet.frame)) told) before items
            result (both transactions.new self.new) items }
        ensures told { result ≡ told }
    {
        transactions.close(last);
        self.reading = None;
        told
    }
}

// The report of a page that is refused.
fn zone_fault<A: Allocator>(fault: ZipFault) -> Report<A>
    ensures fault { IfSome (zip_number fault) (λ n. result ≡ Report.Zones (ZoneReport.Fault n)) }
    ensures not_asked { is_asked result ≡ false }
    ensures no_list { (which : Table) (names : List (List ℕ)) → result ≢ Report.Zones (ZoneReport.List which names) }
{
    match fault.number() {
        Some(number) => Report::Zones(ZoneReport::Fault(number)),
        None => Report::NoMemory,
    }
}
