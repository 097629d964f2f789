//! What a router makes of a request to look a name up.
ghost use Rattle.std.specs.Prelude.{◌≡◌, ◌∷◌, [], length, OnOk, OnErr};
ghost use Rattle.at_ddp.specs.Sending.{Sends};
ghost use Rattle.at_nbp.specs.Packets.{packet_content, spelling};
ghost use Rattle.at_nbp.specs.Relays.{in_zone, relayed};
ghost use Rattle.at_nbp.specs.Tuples.{FitsStrings, content};

use crate::asking::send_one;
use crate::function::Function;
use crate::name::is_any_zone;
use crate::packet::Packet;
use crate::tuple::Tuple;
use at_ddp::{Address, Outbox, Pascal};
use std::alloc::{AllocError, Allocator};

/// Relays a request that came to a router, which has one tuple: asks `to` the same by a LkUp. The zone of the node that
/// asks replaces `*` and an empty zone. The error is out of memory.
pub fn relay<A: Allocator + Copy>(
    alloc: A,
    packet: &Packet<'_>,
    zone: &Pascal,
    to: Address,
    out: &mut Outbox<A>,
) -> Result<(), AllocError>
    requires { length packet.now.tuples ≡ 1 }
    ensures ok { OnOk result (Sends out.old out.new
        ((to, spelling (relayed zone.now (packet_content packet.now))) ∷ [])) }
    ensures err { OnErr result (Sends out.old out.new []) }
{
    let asked = packet.tuples.only();
    let tuple = tuple_in_zone(&asked, zone);
    send_one(alloc, Function::LookUp, packet.id, &tuple, to, out)
}

fn tuple_in_zone<'a>(tuple: &Tuple<'a>, zone: &'a Pascal) -> Tuple<'a>
    requires { FitsStrings (content tuple.now) }
    ensures content { content result ≡ in_zone zone.now (content tuple.now) }
    ensures short { FitsStrings (content result) }
{
    Tuple {
        zone: if is_any_zone(tuple.zone) {
            zone.bytes()
        } else {
            tuple.zone
        },
        ..*tuple
    }
}
