//! Which of the three sockets has a datagram of ATP, and whether a packet is the page that a reading asked for.
ghost use Rattle.std.specs.Prelude.{◌≡◌, ℕ, List, option_map, Some, false};
ghost use Rattle.at_atp_frame.specs.Frames.{content};
ghost use Rattle.at_event.specs.Outcomes.{Comes};
ghost use Rattle.at_event.specs.Services.{Serves, is_asked};
ghost use Rattle.at_event.specs.declared.service.Reply.{Reply as Said};
ghost use Rattle.at_zip.specs.declared.request.TableChoice.{TableChoice as Table};
ghost use Rattle.at_zone_socket.specs.AtpHearing as Heard;
ghost use Rattle.at_zone_socket.specs.AtpHearing.{AtRequester, HearsAt, HearsAtp};

use crate::atp_part::AtpPart;
use crate::zone_socket::ZONE_SOCKET;
use at_atp::Frame;
use at_ddp::{Listed, Outbox, Pascal};
use at_event::{Report, Seat, Service, ZoneReport};
use at_packet::AtpPacket;
use at_transaction_socket::{Incoming, REQUESTER_SOCKET, SERVICE_SOCKET, refused};
use std::alloc::Allocator;

impl<A: Allocator + Copy> AtpPart<A> {
    /// Takes a datagram of ATP that is for this node. If a reading ends with a zone list, this is copied into `list`.
    pub fn hear<S: Service<A>>(
        &mut self,
        seat: Seat,
        service: &mut S,
        packet: &AtpPacket<'_>,
        list: &mut Option<Listed<Pascal, A>>,
        out: &mut Outbox<A>,
    ) -> Report<A>
        ensures heard { (said : Said A)
            × Comes (HearsAtp said seat self.old packet.now) self.old out.old.items result self.new
            out.new.items
            × Serves S.serves result said service.old service.new }
        ensures listed { (which : Table) (names : List (List ℕ)) → result ≡ Report.Zones (ZoneReport.List which names)
            → list.new ≡ Some names }
    {
        let datagram = packet.datagram();
        if datagram.to.socket == REQUESTER_SOCKET {
            return self.hear_response(seat, packet, list, out);
        }
        if datagram.to.socket == SERVICE_SOCKET {
            return self.hear_request(seat, service, packet, out);
        }
        if datagram.to.socket == ZONE_SOCKET {
            return self.hear_zone_request(seat, packet, out);
        }
        Report::Ignored
    }

    // Takes a datagram for the socket that asks. If a reading ends with a zone list, this is copied into `list`.
    fn hear_response(
        &mut self,
        seat: Seat,
        packet: &AtpPacket<'_>,
        list: &mut Option<Listed<Pascal, A>>,
        out: &mut Outbox<A>,
    ) -> Report<A>
        ensures comes { (said : Said A)
            → Comes (HearsAt said seat self.old packet.now (Some Heard.Requester)) self.old out.old.items
            result self.new out.new.items }
        ensures not_asked { is_asked result ≡ false }
        ensures listed { (which : Table) (names : List (List ℕ)) → result ≡ Report.Zones (ZoneReport.List which names)
            → list.new ≡ Some names }
    {
        match Incoming::of(seat, packet) {
            Ok(packet) => self.hear_at_requester(&packet, list, out),
            Err(fault) => refused(fault.number()),
        }
    }

    fn hear_at_requester(
        &mut self,
        packet: &Incoming<'_>,
        list: &mut Option<Listed<Pascal, A>>,
        out: &mut Outbox<A>,
    ) -> Report<A>
        ensures comes { Comes (AtRequester packet.now.seat self.old packet.now.from (content packet.now.frame)) self.old
            out.old.items result self.new out.new.items }
        ensures not_asked { is_asked result ≡ false }
        ensures listed { (which : Table) (names : List (List ℕ)) → result ≡ Report.Zones (ZoneReport.List which names)
            → list.new ≡ Some names }
    {
        let Frame::Response { user, data_, .. } = packet.frame else {
            return self.transactions.hear_other(packet, out);
        };
        match self.zones.take_reading(packet, &self.transactions) {
            Some((reading, last)) => self.zones.hear_page(
                &last,
                reading,
                user,
                data_,
                &mut self.transactions,
                list,
                out,
            ),
            None => self.transactions.hear_other(packet, out),
        }
    }

    // Takes a datagram for the service.
    fn hear_request<S: Service<A>>(
        &mut self,
        seat: Seat,
        service: &mut S,
        packet: &AtpPacket<'_>,
        out: &mut Outbox<A>,
    ) -> Report<A>
        ensures { (said : Said A)
            × Comes (HearsAt said seat self.old packet.now (Some Heard.Service)) self.old out.old.items
            result self.new out.new.items
            × Serves S.serves result said service.old service.new }
    {
        match Incoming::of(seat, packet) {
            Ok(packet) => self.transactions.hear_at_service(service, &packet, out),
            Err(fault) => refused(fault.number()),
        }
    }

    // Takes a datagram for the zone socket, which only a router serves.
    fn hear_zone_request(
        &mut self,
        seat: Seat,
        packet: &AtpPacket<'_>,
        out: &mut Outbox<A>,
    ) -> Report<A>
        ensures comes { (said : Said A)
            → Comes (HearsAt said seat self.old packet.now (option_map Heard.Zones self.old.zones.tables)) self.old
            out.old.items result self.new out.new.items }
        ensures not_asked { is_asked result ≡ false }
    {
        if !self.zones.is_router() {
            return Report::Ignored;
        }
        match Incoming::of(seat, packet) {
            Ok(packet) => self.zones.hear(&packet, out),
            Err(fault) => refused(fault.number()),
        }
    }
}
