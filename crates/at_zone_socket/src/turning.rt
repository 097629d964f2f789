//! The page after which the next one is asked for, before it is taken.
ghost use Rattle.std.specs.Prelude.{◌≡◌, ℕ, Some, IfSome};
ghost use Rattle.at_atp_frame.specs.Frames.{content};
ghost use Rattle.at_event.specs.Outcomes.{Outcome};
ghost use Rattle.at_zone_socket.specs.AtpHearing.{AtRequester};
ghost use Rattle.at_zone_socket.specs.AtpParts.{AtpState};
ghost use Rattle.at_zone_socket.specs.Turning.{HasTurn};

use crate::atp_part::AtpPart;
use at_atp::Frame;
use at_event::{Report, Seat, TransactionReport};
use at_packet::AtpPacket;
use at_transaction_socket::{Incoming, REQUESTER_SOCKET};
use at_zip::read_page;
use std::alloc::Allocator;

impl<A: Allocator + Copy> AtpPart<A> {
    /// The number under which the next page will be asked for, if a datagram of ATP for this node is a page that makes
    /// it be asked for, and memory does not run out.
    pub fn turned_by(&self, seat: Seat, packet: &AtpPacket<'_>) -> Option<u16>
        ensures found { IfSome result (λ tid. HasTurn self.now packet.now tid) }
        ensures only { (tid : ℕ) → HasTurn self.now packet.now tid → result ≡ Some tid }
    {
        let datagram = packet.datagram();
        if datagram.to.socket != REQUESTER_SOCKET {
            return None;
        }
        match Incoming::of(seat, packet) {
            Ok(packet) => self.draw_of_page(&packet),
            Err(_) => None,
        }
    }

    // The same of a packet that came to the socket that asks, by what it does there.
    fn draw_of_page(&self, packet: &Incoming<'_>) -> Option<u16>
        ensures found { IfSome result (λ tid. (o : Outcome A AtpState)
            × AtRequester packet.now.seat self.now packet.now.from (content packet.now.frame) o
            × (o.report ≡ Report.Transactions (TransactionReport.Begun tid))) }
        ensures only { (o : Outcome A AtpState)
            → AtRequester packet.now.seat self.now packet.now.from (content packet.now.frame) o
            → (tid : ℕ) → o.report ≡ Report.Transactions (TransactionReport.Begun tid) → result ≡ Some tid }
    {
        let Frame::Response {
            tid,
            user,
            data_,
            ..
        } = packet.frame
        else {
            return None;
        };
        if !self.zones.is_page(packet, &self.transactions) {
            return None;
        }
        match read_page(user, data_) {
            Ok(page) if self.zones.asks_on(&page) => self.transactions.next_tid(Some(tid)),
            _ => None,
        }
    }
}
