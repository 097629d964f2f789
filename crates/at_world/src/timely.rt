//! Which datagrams come in time.
ghost use Rattle.std.specs.Prelude.{◌≡◌, ℕ, false, true};
ghost use Rattle.at_node.specs.Numbers.{Carries};
ghost use Rattle.at_node.specs.declared.numbers.Draw.{Draw as Drawn};
ghost use Rattle.at_world.specs.Draws.{is_no_later, last_of};
ghost use Rattle.at_world.specs.Worlds.{is_in_time};

use crate::draws::LastDraws;
use at_node::{Draw, carried_in};
use at_packet::Packet;
use std::alloc::Allocator;

/// Whether no event after this one drew a number that these bytes carry.
pub(crate) fn is_fresh<A: Allocator + Copy>(
    last: &LastDraws<A>,
    packet: &Packet<'_>,
    event: u32,
) -> bool
    ensures fresh { result ≡ true → (node : ℕ) (draw : Drawn) → Carries packet.now node draw
        → is_no_later (last_of last.now node draw) event ≡ true }
    ensures stale { result ≡ false → (node : ℕ) × (draw : Drawn) × Carries packet.now node draw
        × (is_no_later (last_of last.now node draw) event ≡ false) }
{
    let [first, second] = carried_in(packet);
    is_no_later(last, first, event) && is_no_later(last, second, event)
}

// Whether no event after this one drew this number of a node.
fn is_no_later<A: Allocator + Copy>(
    last: &LastDraws<A>,
    number: Option<(u8, Draw)>,
    event: u32,
) -> bool
    ensures { result ≡ is_in_time last.now number event }
{
    let Some((node, draw)) = number else {
        return true;
    };
    match last.last(node, draw) {
        None => true,
        Some(drawn) => drawn <= event,
    }
}
