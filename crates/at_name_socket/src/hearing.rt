//! What packets do at the socket.
ghost use Rattle.std.specs.Prelude.{◌≡◌, ◌≢◌, ◌==◌, [], List, ℕ, length, find, IfOk, IfErr, OnErr};
ghost use Rattle.std.specs.Prelude.{IsErrOf, IsOk, None};
ghost use Rattle.std.specs.Option.{option_copied};
ghost use Rattle.at_ddp.specs.Sending.{Sends};
ghost use Rattle.at_ddp.specs.declared.address.Address.{Address as At};
ghost use Rattle.at_name_socket.specs.NameSockets.{AnswersTo, Hears, Relays, SocketState, Takes};
ghost use Rattle.at_name_socket.specs.NameSockets.{is_node, zone_of};
ghost use Rattle.at_name_socket.specs.declared.step.Heard.{Heard as Come};
ghost use Rattle.at_nbp.specs.Fault.{IsFirstFault};
ghost use Rattle.at_nbp.specs.Lookups.{heard};
ghost use Rattle.at_nbp.specs.Packets.{packet_content};
ghost use Rattle.at_nbp.specs.declared.fault.NbpFault.{NbpFault as Fault};

use crate::neighbour::Neighbour;
use crate::socket::{EVERY_NODE, NameSocket};
use crate::step::Heard;
use at_ddp::{Address, Outbox, Pascal};
use at_nbp::{Function, NbpFault, Packet, relay};
use at_packet::NbpPacket;
use std::alloc::{AllocError, Allocator};

impl<A: Allocator + Copy> NameSocket<A> {
    /// Takes a datagram. The packet at the front of its data is what counts: bytes after it are ignored. A packet that
    /// has no effect needs no memory.
    pub fn hear(&mut self, arrived: &NbpPacket<'_>, out: &mut Outbox<A>) -> Result<Heard, NbpFault>
        ensures ok { IfOk result (λ h. (pushes : List (At × List ℕ))
            × Hears self.old arrived.now.data_ h self.new pushes × Sends out.old out.new pushes) }
        ensures refused { (fault : Fault) → IsFirstFault fault arrived.now.data_ → IsErrOf result fault }
        ensures fault { IfErr result (λ fault. fault ≢ NbpFault.NoMemory → IsFirstFault fault arrived.now.data_) }
        ensures owed { IfErr result (λ fault. fault ≡ NbpFault.NoMemory → (h : Come) × (new : SocketState)
            × (pushes : List (At × List ℕ)) × Hears self.old arrived.now.data_ h new pushes × (h ≢ Heard.Ignored)) }
        ensures unchanged { OnErr result (self.new ≡ self.old) }
        ensures nothing_sent { OnErr result (Sends out.old out.new []) }
    {
        let packet = arrived.packet()?;
        let heard = match packet.function {
            Function::LookUp => self.answer(packet, out)?,
            Function::Reply => self.keep(packet)?,
            _ => self.relay(packet, out)?,
        };
        Ok(heard)
    }

    // Answers a lookup.
    fn answer(&self, packet: &Packet<'_>, out: &mut Outbox<A>) -> Result<Heard, AllocError>
        requires { length packet.now.tuples ≡ 1 }
        ensures ok { IfOk result (λ h. (pushes : List (At × List ℕ))
            × AnswersTo self.now packet.now.id packet.now.tuples h pushes
            × Sends out.old out.new pushes) }
        ensures owed { OnErr result ((h : Come) × (pushes : List (At × List ℕ))
            × AnswersTo self.now packet.now.id packet.now.tuples h pushes × (h ≢ Heard.Ignored)) }
        ensures nothing_sent { OnErr result (Sends out.old out.new []) }
    {
        let tuple = packet.tuples.only();
        let count = self
            .names
            .answer(packet.id, tuple.address, &tuple.name(), out)?;
        Ok(if count == 0 {
            Heard::Ignored
        } else {
            Heard::Answered(count)
        })
    }

    // Keeps what a reply found.
    fn keep(&mut self, packet: &Packet<'_>) -> Result<Heard, AllocError>
        requires { packet.now.function ≡ Function.Reply }
        ensures ok { IfOk result (λ h. Takes self.old (packet_content packet.now) Function.Reply h self.new []) }
        ensures ignored { (heard self.old.lookups (packet_content packet.now)).count ≡ 0 → IsOk result }
        ensures unchanged { OnErr result (self.new ≡ self.old) }
    {
        let count = self.lookups.receive(packet)?;
        Ok(if count == 0 {
            Heard::Ignored
        } else {
            Heard::Kept(count)
        })
    }

    // Relays a request, if this node is the router.
    fn relay(&self, packet: &Packet<'_>, out: &mut Outbox<A>) -> Result<Heard, AllocError>
        requires { length packet.now.tuples ≡ 1 }
        ensures ok { IfOk result (λ h. (pushes : List (At × List ℕ))
            × Relays self.now (packet_content packet.now) self.now.neighbours h pushes
            × Sends out.old out.new pushes) }
        ensures ignored { self.now.neighbours ≡ None → IsOk result }
        ensures nothing_sent { OnErr result (Sends out.old out.new []) }
    {
        let Some(neighbours) = &self.neighbours else {
            return Ok(Heard::Ignored);
        };
        let own = self.names.zone();
        let asker = packet.tuples.only().address;
        let zone = zone_of(own, neighbours.as_slice(), asker.node);
        let every_node = Address {
            node: EVERY_NODE,
            ..self.names.own()
        };
        relay(self.alloc, packet, zone, every_node, out)?;
        Ok(Heard::Relayed)
    }
}

// The zone of a node, or the router's own for a node that it does not know.
fn zone_of<'a>(own: &'a Pascal, neighbours: &'a [Neighbour], node: u8) -> &'a Pascal
    ensures { result.now ≡ zone_of own.now neighbours.now node }
{
    match neighbour(neighbours, node) {
        Some(neighbour) => &neighbour.zone,
        None => own,
    }
}

fn neighbour(neighbours: &[Neighbour], node: u8) -> Option<&Neighbour>
    ensures { option_copied result ≡ find (is_node node) neighbours.now }
{
    neighbours.iter().find(|n| n.node == node)
}
