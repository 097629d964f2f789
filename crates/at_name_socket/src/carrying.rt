//! Whose identifier a packet of names carries. By it a packet that comes too late is recognized.
ghost use Rattle.std.specs.Prelude.{◌≡◌, ℕ, IfSome, Some, length};
ghost use Rattle.at_name_socket.specs.Carrying.{Carries, owner_by};
ghost use Rattle.at_nbp.specs.Packets.{HasCount};

use at_ddp::Address;
use at_nbp::{Function, Packet};
use at_packet::NbpPacket;

/// The identifier that the packet at the front of a datagram's data carries, with the number of the node that drew it:
/// (node, identifier). There is none if no packet is there. This needs no memory.
pub fn carried(arrived: &NbpPacket<'_>) -> Option<(u8, u8)>
    ensures found { IfSome result (λ r. Carries arrived.now.to arrived.now.data_ r.0 r.1) }
    ensures only { (node id : ℕ) → Carries arrived.now.to arrived.now.data_ node id → result ≡ Some (node, id) }
{
    let to = arrived.datagram().to;
    match arrived.packet() {
        Ok(packet) => Some((owner_of(to, packet), packet.id)),
        Err(_) => None,
    }
}

// The node that drew the identifier of a packet to this address.
fn owner_of(to: Address, packet: &Packet<'_>) -> u8
    requires { HasCount packet.now.function (length packet.now.tuples) }
    ensures { result ≡ owner_by to packet.now.function packet.now.tuples }
{
    if matches!(packet.function, Function::Reply) {
        to.node
    } else {
        packet.tuples.only().address.node
    }
}
