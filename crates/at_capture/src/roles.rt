//! What a frame asks or answers, by the datagram that it carries.
ghost use Rattle.std.specs.Prelude.{◌≡◌, length};
ghost use Rattle.at_atp_frame.specs.Frames as atp;
ghost use Rattle.at_capture.specs.Frames.{content as captured};
ghost use Rattle.at_capture.specs.Questions.{asks_for, lookup, lookup_role, socket_of, transaction, transaction_role};
ghost use Rattle.at_capture.specs.Roles.{BeginsRole, HasRole, IsRole, LookupRole, PlaysRole, TransactionRole};
ghost use Rattle.at_ddp.specs.Datagram.{content};
ghost use Rattle.at_nbp.specs.Packets.{HasCount, packet_content};

use crate::frame::Frame;
use crate::question::{InternetSocket, Question, Role};
use at_atp_frame::Frame as AtpPacket;
use at_ddp::{ATP, Address, Datagram, NBP};
use at_frames::{Header, datagram_in, decode_short};
use at_nbp::{Function, Packet};

/// What a frame asks or answers.
pub(crate) fn role_of(frame: Frame<'_>) -> Role
    ensures { IsRole (PlaysRole (captured frame.entry)) result }
{
    match datagram_in(frame.link_type, frame.bytes) {
        Ok(carried) => role_in(carried.header, carried.bytes),
        Err(_) => Role::Neither,
    }
}

// What the datagram asks or answers that begins these bytes.
fn role_in(header: Header, bytes: &[u8]) -> Role
    ensures { IsRole (BeginsRole header bytes.now) result }
{
    match header {
        Header::Long => role_in_long(bytes),
        Header::Short { to, from } => role_in_short(to, from, bytes),
    }
}

fn role_in_long(bytes: &[u8]) -> Role
    ensures { IsRole (BeginsRole Header.Long bytes.now) result }
{
    match at_ddp::decode(bytes) {
        Ok((datagram, _)) => role_of_datagram(&datagram),
        Err(_) => Role::Neither,
    }
}

fn role_in_short(to: u8, from: u8, bytes: &[u8]) -> Role
    ensures { IsRole (BeginsRole (Header.Short to from) bytes.now) result }
{
    match decode_short(to, from, bytes) {
        Ok((datagram, _)) => role_of_datagram(&datagram),
        Err(_) => Role::Neither,
    }
}

fn role_of_datagram(datagram: &Datagram<'_>) -> Role
    ensures { IsRole (HasRole (content datagram.now)) result }
{
    if datagram.kind == ATP {
        role_in_transaction(datagram.from, datagram.to, datagram.data_)
    } else if datagram.kind == NBP {
        role_in_lookup(datagram.to, datagram.data_)
    } else {
        Role::Neither
    }
}

fn role_in_transaction(from: Address, to: Address, bytes: &[u8]) -> Role
    ensures { IsRole (TransactionRole from to bytes.now) result }
{
    match at_atp_frame::decode(bytes) {
        Ok(packet) => transaction_role(from, to, &packet),
        Err(_) => Role::Neither,
    }
}

fn role_in_lookup(to: Address, bytes: &[u8]) -> Role
    ensures { IsRole (LookupRole to bytes.now) result }
{
    match at_nbp::decode(bytes) {
        Ok((packet, _)) => lookup_role(to, &packet),
        Err(_) => Role::Neither,
    }
}

fn transaction_role(from: Address, to: Address, packet: &AtpPacket<'_>) -> Role
    ensures { result ≡ transaction_role from to (atp.content packet.now) }
{
    match packet {
        AtpPacket::Request { mask, tid, .. } => asks_for(*mask, *tid, from, to),
        AtpPacket::Response { tid, .. } => Role::Answers(transaction(*tid, to, from)),
        AtpPacket::Release { .. } => Role::Neither,
    }
}

// A request for no packet is answered by none.
fn asks_for(mask: u8, number: u16, from: Address, to: Address) -> Role
    ensures { result ≡ asks_for mask number from to }
{
    if mask == 0 {
        Role::Neither
    } else {
        Role::Asks(transaction(number, from, to))
    }
}

fn transaction(number: u16, from: Address, to: Address) -> Question
    ensures { result ≡ transaction number from to }
{
    Question::Transaction {
        number,
        from: socket_of(from),
        to: socket_of(to),
    }
}

fn lookup_role(to: Address, packet: &Packet<'_>) -> Role
    requires { HasCount packet.now.function (length packet.now.tuples) }
    ensures { result ≡ lookup_role to (packet_content packet.now) }
{
    if matches!(packet.function, Function::Reply) {
        Role::Answers(lookup(packet.id, to))
    } else {
        Role::Asks(lookup(packet.id, packet.tuples.only().address))
    }
}

fn lookup(id: u8, asker: Address) -> Question
    ensures { result ≡ lookup id asker }
{
    Question::Lookup {
        id,
        from: socket_of(asker),
    }
}

fn socket_of(address: Address) -> InternetSocket
    ensures { result ≡ socket_of address }
{
    InternetSocket {
        net: address.net,
        node: address.node,
        socket: address.socket,
    }
}
