//! What the sockets that answer do alike, each with its own responder.
ghost use Rattle.std.specs.Prelude.{◌≡◌, ◌≢◌, ◌↔◌, ◌++◌, map, length, find, None, Err, true, IfOk, IfErr, IfSome, OnOk};
ghost use Rattle.std.specs.Prelude.{OnErr, IsOk, IsErrOf, false};
ghost use Rattle.at_ddp.specs.Protocols.{atp_kind};
ghost use Rattle.at_atp_frame.specs.Frames.{content, spelled_all};
ghost use Rattle.at_atp_responder.specs.Records.{after_answer, answer_fault, asked_for, finds_no_place, is_key};
ghost use Rattle.at_atp_responder.specs.Records.{received};
ghost use Rattle.at_event.specs.Outcomes.{posted, sent_by};
ghost use Rattle.at_transaction_socket.specs.Responders.{is_release, released_report};
ghost use Rattle.at_event.specs.Services.{is_asked};

use crate::incoming::Incoming;
use at_atp::{AtpFault, Key, Packet, Reception, Responder};
use at_ddp::{ATP, Address, Outbox};
use at_event::{Report, TransactionReport};
use std::alloc::Allocator;

/// The responder takes a packet.
pub fn hear<A: Allocator + Copy>(
    records: &mut Responder<A>,
    own: Address,
    packet: &Incoming<'_>,
    out: &mut Outbox<A>,
) -> Result<Reception, AtpFault>
    ensures reception { IfOk result
        (λ r. r ≡ (received records.old packet.now.from (content packet.now.frame)).reception) }
    ensures state { OnOk result
        (records.new ≡ (received records.old packet.now.from (content packet.now.frame)).after) }
    ensures sent { OnOk result
        (out.new.items ≡ out.old.items ++ map posted
        (sent_by own atp_kind (spelled_all (received records.old packet.now.from (content packet.now.frame)).sent))) }
    ensures full { IsErrOf result AtpFault.Full
        ↔ (finds_no_place records.old packet.now.from (content packet.now.frame) ≡ true) }
    ensures memory { IfErr result (λ fault. fault ≢ AtpFault.Full → fault ≡ AtpFault.NoMemory) }
    ensures ignored { (received records.old packet.now.from (content packet.now.frame)).reception ≡ Reception.Ignored
        → IsOk result }
    ensures unchanged { OnErr result (records.new ≡ records.old) }
    ensures nothing_sent { OnErr result (out.new.items ≡ out.old.items) }
    ensures release { is_release (content packet.now.frame) ≡ true → IsOk result }
{
    out.send_from(own, ATP);
    records.receive(packet.from, &packet.frame, out)
}

/// Answers a request, and sends the packets that it asks for.
pub fn answer<A: Allocator + Copy>(
    records: &mut Responder<A>,
    own: Address,
    key: Key,
    packets: &[Packet<A>],
    out: &mut Outbox<A>,
) -> Result<u8, AtpFault>
    ensures state { OnOk result (records.new ≡ after_answer records.old key packets.now) }
    ensures count { IfOk result (λ count. count ≡ length (asked_for (find (is_key key) records.old) key packets.now)) }
    ensures sent { OnOk result
        (out.new.items ≡ out.old.items ++ map posted
        (sent_by own atp_kind (spelled_all (asked_for (find (is_key key) records.old) key packets.now)))) }
    ensures refuses { IfSome (answer_fault records.old key packets.now) (λ fault. result ≡ Err fault) }
    ensures memory { answer_fault records.old key packets.now ≡ None
        → IfErr result (λ fault. fault ≡ AtpFault.NoMemory) }
    ensures unchanged { OnErr result (records.new ≡ records.old) }
    ensures nothing_sent { OnErr result (out.new.items ≡ out.old.items) }
{
    out.send_from(own, ATP);
    records.respond(key, packets, out)
}

/// Takes a release, which never runs out of memory.
pub fn release<A: Allocator + Copy>(
    records: &mut Responder<A>,
    own: Address,
    packet: &Incoming<'_>,
    out: &mut Outbox<A>,
) -> Report<A>
    requires { is_release (content packet.now.frame) ≡ true }
    ensures report { result
        ≡ released_report (received records.old packet.now.from (content packet.now.frame)).reception }
    ensures state { records.new ≡ (received records.old packet.now.from (content packet.now.frame)).after }
    ensures sent { out.new.items ≡ out.old.items ++ map posted
        (sent_by own atp_kind (spelled_all (received records.old packet.now.from (content packet.now.frame)).sent)) }
    ensures not_asked { is_asked result ≡ false }
{
    match hear(records, own, packet, out).unwrap() {
        Reception::Released => Report::Transactions(TransactionReport::Released),
        _ => Report::Ignored,
    }
}
