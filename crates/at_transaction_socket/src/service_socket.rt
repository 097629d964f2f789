//! The socket of the node's service: a new request is delivered to it, and answered at once or by a later call.
ghost use Rattle.std.specs.Prelude.{◌≡◌, ◌++◌, [], map, find, None, Err, IfOk, IfSome, IsOk, OnOk, OnErr};
ghost use Rattle.at_ddp.specs.Sending.{Sends};
ghost use Rattle.at_ddp.specs.Protocols.{atp_kind};
ghost use Rattle.at_ddp.specs.Tables.{without_first};
ghost use Rattle.at_atp_frame.specs.Frames.{content, spelled_all};
ghost use Rattle.at_atp_responder.specs.Records.{expiry_fault, record_fault, is_key};
ghost use Rattle.at_transaction_socket.specs.TransactionSockets.{TransactionState, serving};
ghost use Rattle.at_event.specs.Outcomes.{IsStep, posted, sent_by};
ghost use Rattle.at_event.specs.Services.{Serves};
ghost use Rattle.at_transaction_socket.specs.ServiceSocket.{answer_called, service_asked, service_heard};
ghost use Rattle.at_transaction_socket.specs.ServiceSocket.{after_reply, sent_by_reply};
ghost use Rattle.at_event.specs.declared.seat.Seat.{Seat as SeatOf};
ghost use Rattle.at_event.specs.declared.service.Reply.{Reply as Said};

use crate::incoming::Incoming;
use crate::refusals::refused;
use crate::responders::{answer, hear, release};
use crate::transaction_socket::TransactionSocket;
use at_atp::{AtpFault, Frame, Key, Packet, Reception, Responder};
use at_ddp::{ATP, Address, Bytes, Outbox};
use at_event::{Reply, Report, Seat, Service, TransactionReport};
use std::alloc::{AllocError, Allocator};

/// The socket of the node's service.
pub const SERVICE_SOCKET: u8 = 129;

impl<A: Allocator + Copy> TransactionSocket<A> {
    /// Answers a request that was delivered to the service.
    pub fn answer(
        &mut self,
        seat: Seat,
        key: Key,
        packets: &[Packet<A>],
        out: &mut Outbox<A>,
    ) -> Report<A>
        ensures { IsStep (answer_called seat self.old key packets.now) self.old out.old.items result self.new
            out.new.items }
    {
        let sender = seat.at(SERVICE_SOCKET);
        match answer(&mut self.service_responder, sender, key, packets, out) {
            Ok(count) => Report::Transactions(TransactionReport::Answered(count)),
            Err(fault) => refused(fault.number()),
        }
    }

    /// Takes a packet for the service.
    pub fn hear_at_service<S: Service<A>>(
        &mut self,
        service: &mut S,
        packet: &Incoming<'_>,
        out: &mut Outbox<A>,
    ) -> Report<A>
        ensures { (said : Said A)
            × IsStep (service_heard said packet.now.seat self.old packet.now.from (content packet.now.frame))
            self.old out.old.items result self.new out.new.items
            × Serves S.serves result said service.old service.new }
    {
        let own = packet.seat.at(SERVICE_SOCKET);
        if let Frame::Release { .. } = packet.frame {
            return release(&mut self.service_responder, own, packet, out);
        }
        let Frame::Request { user, data_, .. } = packet.frame else {
            return Report::Ignored;
        };
        give_request(
            self.alloc,
            &mut self.service_responder,
            service,
            own,
            packet,
            user,
            data_,
            out,
        )
    }

    /// Removes the record of a request for the service. This needs no memory.
    pub fn expire(&mut self, key: Key) -> Result<(), AtpFault>
        ensures ok { OnOk result (self.new ≡ record self.old {
          service_responder = without_first (is_key key) self.old.service_responder;
        }) }
        ensures refuses { IfSome (expiry_fault (find (is_key key) self.old.service_responder))
            (λ fault. result ≡ Err fault) }
        ensures succeeds { expiry_fault (find (is_key key) self.old.service_responder) ≡ None → IsOk result }
        ensures unchanged { OnErr result (self.new ≡ self.old) }
    {
        self.service_responder.expire(key)
    }
}

// Takes a request for the service, with its user bytes and its data.
fn give_request<A: Allocator + Copy, S: Service<A>>(
    alloc: A,
    records: &mut Responder<A>,
    service: &mut S,
    own: Address,
    packet: &Incoming<'_>,
    user: [u8; 4],
    bytes: &[u8],
    out: &mut Outbox<A>,
) -> Report<A>
    ensures { (said : Said A)
        × ((s : SeatOf) (a : TransactionState) → a.service_responder ≡ records.old → serving s.net s.number ≡ own →
        IsStep (service_asked s a packet.now.from (content packet.now.frame) user bytes.now said) a out.old.items result
        (record a { service_responder = records.new }) out.new.items)
        × Serves S.serves result said service.old service.new }
{
    match hear(records, own, packet, out) {
        Err(fault) => refused(fault.number()),
        Ok(Reception::Ignored) => Report::Ignored,
        Ok(Reception::Again(_)) => Report::Again,
        Ok(Reception::Released) => Report::Transactions(TransactionReport::Released),
        Ok(Reception::New(key)) => {
            match hand_up(alloc, records, service, own, key, user, bytes, out) {
                Ok(data_) => Report::Transactions(TransactionReport::Asked { key, user, data_ }),
                Err(AllocError) => {
                    let _ = records.undo(key);
                    Report::NoMemory
                }
            }
        }
    }
}

// Delivers a request to the service, and sends the answer if the service gives one now. Returns a copy of the request's
// data for the report.
fn hand_up<A: Allocator + Copy, S: Service<A>>(
    alloc: A,
    records: &mut Responder<A>,
    service: &mut S,
    own: Address,
    key: Key,
    user: [u8; 4],
    bytes: &[u8],
    out: &mut Outbox<A>,
) -> Result<Bytes<A>, AllocError>
    requires waits { record_fault (find (is_key key) records.old) ≡ None }
    ensures copy { IfOk result (λ copy. copy ≡ bytes.now) }
    ensures replied { OnOk result ((reply : Said A) × S.serves service.old key user bytes.now reply service.new
        × (records.new ≡ after_reply records.old key reply)
        × (out.new.items ≡ out.old.items ++ map posted
        (sent_by own atp_kind (spelled_all (sent_by_reply records.old key reply))))) }
    ensures unchanged { OnErr result (records.new ≡ records.old) }
    ensures nothing_sent { OnErr result (out.new.items ≡ out.old.items) }
    ensures not_asked { OnErr result (service.new ≡ service.old) }
{
    // The copy comes first: a delivery to the service cannot be taken back.
    let copy = Bytes::copy_of(alloc, bytes)?;
    out.send_from(own, ATP);
    match reply(records, service, key, user, bytes, out) {
        Ok(()) => Ok(copy),
        Err(AllocError) => Err(AllocError),
    }
}

// Room for the largest answer comes first: after the service was called, nothing may fail.
fn reply<A: Allocator + Copy, S: Service<A>>(
    records: &mut Responder<A>,
    service: &mut S,
    key: Key,
    user: [u8; 4],
    bytes: &[u8],
    out: &mut Outbox<A>,
) -> Result<(), AllocError>
    requires waits { record_fault (find (is_key key) records.old) ≡ None }
    ensures replied { OnOk result ((reply : Said A) × S.serves service.old key user bytes.now reply service.new
        × (records.new ≡ after_reply records.old key reply)
        × Sends out.old out.new (spelled_all (sent_by_reply records.old key reply))) }
    ensures unchanged { OnErr result (records.new ≡ records.old) }
    ensures nothing_sent { OnErr result (Sends out.old out.new []) }
    ensures not_asked { OnErr result (service.new ≡ service.old) }
{
    Responder::room(out)?;
    match service.serve(key, user, bytes) {
        Err(AllocError) => Err(AllocError),
        Ok(Reply::Later) => Ok(()),
        Ok(Reply::Now(packets)) => {
            records.hand_over(key, packets, out).unwrap();
            Ok(())
        }
    }
}
