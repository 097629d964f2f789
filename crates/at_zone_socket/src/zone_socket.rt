//! The zone socket, which only a router serves: it answers requests with pages of its tables. With the reading of a
//! zone table, for which the sockets for transactions are lent.
ghost use Rattle.std.specs.Prelude.{◌≡◌, ◌≤◌, ◌++◌, ◌∷◌, List, [], map, length, find, None, Err, Some, false};
ghost use Rattle.std.specs.Prelude.{IfOk, IfSome, IsOk, OnOk, OnErr, true};
ghost use Rattle.at_ddp.specs.Outbox.{Posted};
ghost use Rattle.at_atp_frame.specs.Frames.{content, spelled_all};
ghost use Rattle.at_atp_responder.specs.Records.{record_fault, is_key, after_answer, asked_for, fit, responses};
ghost use Rattle.at_atp_responder.specs.Records.{expiry_fault};
ghost use Rattle.at_ddp.specs.Tables.{without_first};
ghost use Rattle.at_ddp.specs.Protocols.{atp_kind};
ghost use Rattle.at_zone_socket.specs.ZoneSockets.{ZoneState, opening, zones_at};
ghost use Rattle.at_event.specs.Outcomes.{Comes, IsStep, posted, sent_by};
ghost use Rattle.at_event.specs.Services.{is_asked};
ghost use Rattle.at_zone_socket.specs.ZoneSocket.{AtZones, page_packet, set_zones_called, zone_asked};
ghost use Rattle.at_event.specs.declared.seat.Seat.{Seat as SeatOf};
ghost use Rattle.at_zip.specs.declared.Tables.{Tables as TwoTables};

use crate::zone_reading::ZoneReading;
use at_atp::laws::an_answer_at_once_leaves_no_record;
use at_atp::{AtpFault, Frame, Key, NewRequest, Packet, Reception, Responder};
use at_ddp::{ATP, Address, Listed, Outbox, Pascal};
use at_event::{NodeFault, Report, TransactionReport, ZoneReport};
use at_transaction_socket::{Incoming, answer, hear, refused, release};
use at_zip::{TableChoice, Tables, Zones, page, read_request};
use std::alloc::{AllocError, Allocator, Global};
use std::marker::Model;

/// The router's zone socket.
pub const ZONE_SOCKET: u8 = 6;

/// The part of a node that speaks ZIP.
#[derive(Drop)]
pub struct ZoneSocket<A: Allocator = Global> {
    pub(crate) alloc: A,
    // The zone tables, if the node is the router.
    pub(crate) tables: Option<Tables<A>>,
    // The reading of a zone table, if one is open.
    pub(crate) reading: Option<ZoneReading<A>>,
    // The requests that came to the zone socket.
    pub(crate) zone_responder: Responder<A>,
    // Room for the packet that has a page, kept from one answer to the next.
    pub(crate) page: Vec<Packet<A>, A>,
    // Room for the names of a list, kept from a list that is no longer wanted.
    pub(crate) names: Listed<Pascal, A>,
}

impl<A: Allocator> Model for ZoneSocket<A> {
    ghost use Rattle.std.specs.Prelude.{option_map};
    ghost use Rattle.at_zone_socket.specs.ZoneSockets.{ZoneState};
    ghost use Rattle.at_zone_socket.specs.Readings.{reading_of};

    ghost Value = { ZoneState };

    ghost view = { λ z. record {
      tables = z.tables;
      reading = option_map reading_of z.reading;
      zone_responder = z.zone_responder;
    } };
}

impl<A: Allocator + Copy> ZoneSocket<A> {
    /// A part without records, where no zone table is read. `tables` are the router's.
    pub fn new(alloc: A, tables: Option<Tables<A>>) -> ZoneSocket<A>
        ensures { result ≡ opening tables }
    {
        ZoneSocket {
            alloc,
            tables,
            reading: None,
            zone_responder: Responder::new(alloc),
            page: Vec::new(alloc),
            names: Listed::from_vec(Vec::new(alloc)),
        }
    }

    /// Replaces one of the router's two zone tables.
    pub fn set_table(&mut self, which: TableChoice, names: &[Pascal]) -> Report<A>
        ensures { (items : List Posted) → IsStep (set_zones_called self.old self.old.tables which names.now) self.old
            items result self.new items }
    {
        let Some(tables) = &mut self.tables else {
            return Report::Refused(NodeFault::NoRouter.number());
        };
        match Zones::copy_of(self.alloc, names) {
            Ok(zones) => {
                tables.set(which, zones);
                Report::Zones(ZoneReport::TableSet)
            }
            Err(fault) => refused(fault.number()),
        }
    }

    /// Takes a packet for the zone socket of a router.
    pub fn hear(&mut self, packet: &Incoming<'_>, out: &mut Outbox<A>) -> Report<A>
        ensures comes { (tables : TwoTables A) → self.old.tables ≡ Some tables
            → Comes (AtZones packet.now.seat self.old packet.now.from tables (content packet.now.frame)) self.old
            out.old.items result self.new out.new.items }
        ensures not_asked { is_asked result ≡ false }
    {
        let own = packet.seat.at(ZONE_SOCKET);
        let Some(tables) = &self.tables else {
            return Report::Ignored;
        };
        if let Frame::Release { .. } = packet.frame {
            return release(&mut self.zone_responder, own, packet, out);
        }
        let Frame::Request { user, .. } = packet.frame else {
            return Report::Ignored;
        };
        match read_request(user) {
            Ok((which, start)) => serve_request(
                &mut self.page,
                &mut self.zone_responder,
                own,
                packet,
                tables.get(which),
                start,
                out,
            ),
            Err(_) => Report::Ignored,
        }
    }

    /// Removes the record of a zone request. This needs no memory.
    pub fn expire(&mut self, key: Key) -> Result<(), AtpFault>
        ensures ok { OnOk result (self.new ≡ record self.old {
          zone_responder = without_first (is_key key) self.old.zone_responder;
        }) }
        ensures refuses { IfSome (expiry_fault (find (is_key key) self.old.zone_responder))
            (λ fault. result ≡ Err fault) }
        ensures succeeds { expiry_fault (find (is_key key) self.old.zone_responder) ≡ None → IsOk result }
        ensures unchanged { OnErr result (self.new ≡ self.old) }
    {
        self.zone_responder.expire(key)
    }

    /// Keeps the room of a list that is no longer wanted, if there is one, for the list that the next reading ends
    /// with.
    pub fn keep_room(&mut self, list: Option<Listed<Pascal, A>>)
        ensures { self.new ≡ self.old }
    {
        if let Some(list) = list {
            self.names = list;
        }
    }
}

// Takes a request for the page from a place on.
fn serve_request<A: Allocator + Copy>(
    room: &mut Vec<Packet<A>, A>,
    records: &mut Responder<A>,
    own: Address,
    packet: &Incoming<'_>,
    zones: &Zones<A>,
    start: u16,
    out: &mut Outbox<A>,
) -> Report<A>
    requires { 1 ≤ start }
    ensures step { (s : SeatOf) (a : ZoneState) → a.zone_responder ≡ records.old → zones_at s.net s.number ≡ own →
        IsStep (zone_asked s a packet.now.from (content packet.now.frame) zones.now start) a out.old.items result
        (record a { zone_responder = records.new }) out.new.items }
    ensures not_asked { is_asked result ≡ false }
{
    an_answer_at_once_leaves_no_record();
    match records.new_request(packet.from, &packet.frame) {
        None => serve_filed(room, records, own, packet, zones, start, out),
        Some(request) => match serve_at_once(room, own, request, zones, start, out) {
            Ok(count) => Report::Zones(ZoneReport::Served(count)),
            Err(AllocError) => Report::NoMemory,
        },
    }
}

// Answers a new at-least-once request as it comes, without a record.
fn serve_at_once<A: Allocator + Copy>(
    room: &mut Vec<Packet<A>, A>,
    own: Address,
    request: NewRequest,
    zones: &Zones<A>,
    start: u16,
    out: &mut Outbox<A>,
) -> Result<u8, AllocError>
    requires { 1 ≤ start }
    ensures count { IfOk result (λ count. count
        ≡ length (responses request.key 0 request.bitmap (page_packet zones.now start ∷ []))) }
    ensures sent { OnOk result
        (out.new.items ≡ out.old.items ++ map posted
        (sent_by own atp_kind
        (spelled_all (responses request.key 0 request.bitmap (page_packet zones.now start ∷ []))))) }
    ensures nothing_sent { OnErr result (out.new.items ≡ out.old.items) }
{
    make_answer(room, zones, start)?;
    out.send_from(own, ATP);
    Responder::answer_at_once(request, room, out)
}

// Takes a request for the page from a place on, which has a record or gets one.
fn serve_filed<A: Allocator + Copy>(
    room: &mut Vec<Packet<A>, A>,
    records: &mut Responder<A>,
    own: Address,
    packet: &Incoming<'_>,
    zones: &Zones<A>,
    start: u16,
    out: &mut Outbox<A>,
) -> Report<A>
    requires { 1 ≤ start }
    ensures step { (s : SeatOf) (a : ZoneState) → a.zone_responder ≡ records.old → zones_at s.net s.number ≡ own →
        IsStep (zone_asked s a packet.now.from (content packet.now.frame) zones.now start) a out.old.items result
        (record a { zone_responder = records.new }) out.new.items }
    ensures not_asked { is_asked result ≡ false }
{
    match hear(records, own, packet, out) {
        Err(fault) => refused(fault.number()),
        Ok(Reception::Ignored) => Report::Ignored,
        Ok(Reception::Again(_)) => Report::Again,
        Ok(Reception::Released) => Report::Transactions(TransactionReport::Released),
        Ok(Reception::New(key)) => {
            match serve(room, records, own, key, zones, start, out) {
                Ok(count) => Report::Zones(ZoneReport::Served(count)),
                Err(AllocError) => Report::NoMemory,
            }
        }
    }
}

// Makes the answer to a request for the page from a place on: one packet, in the room of the answer before.
fn make_answer<A: Allocator + Copy>(
    room: &mut Vec<Packet<A>, A>,
    zones: &Zones<A>,
    start: u16,
) -> Result<(), AllocError>
    requires { 1 ≤ start }
    ensures answer { OnOk result (room.new.items ≡ page_packet zones.now start ∷ []) }
    ensures fits { OnOk result (fit room.new.items ≡ true) }
{
    room.clear();
    room.reserve(1)?;
    match page(*room.allocator(), zones, start) {
        Ok(page) => {
            room.push(Packet::new(page.user, page.data_)).unwrap();
            Ok(())
        }
        Err(_) => Err(AllocError),
    }
}

// Answers a new zone request. If memory runs out, removes its record, as if the request had not come.
fn serve<A: Allocator + Copy>(
    room: &mut Vec<Packet<A>, A>,
    records: &mut Responder<A>,
    own: Address,
    key: Key,
    zones: &Zones<A>,
    start: u16,
    out: &mut Outbox<A>,
) -> Result<u8, AllocError>
    requires start { 1 ≤ start }
    requires waits { record_fault (find (is_key key) records.old) ≡ None }
    ensures state { OnOk result (records.new ≡ after_answer records.old key (page_packet zones.now start ∷ [])) }
    ensures undone { OnErr result (records.new ≡ without_first (is_key key) records.old) }
    ensures count { IfOk result
        (λ count. count ≡ length (asked_for (find (is_key key) records.old) key (page_packet zones.now start ∷ []))) }
    ensures sent { OnOk result
        (out.new.items ≡ out.old.items ++ map posted
        (sent_by own atp_kind
        (spelled_all (asked_for (find (is_key key) records.old) key (page_packet zones.now start ∷ []))))) }
    ensures nothing_sent { OnErr result (out.new.items ≡ out.old.items) }
{
    let answered = match make_answer(room, zones, start) {
        Ok(()) => answer(records, own, key, room, out),
        Err(AllocError) => Err(AtpFault::NoMemory),
    };
    match answered {
        Ok(count) => Ok(count),
        Err(_) => {
            let _ = records.undo(key);
            Err(AllocError)
        }
    }
}
