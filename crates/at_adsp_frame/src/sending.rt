//! The sending of one segment by an outbox. Its header is spelled in an array, so that only the outbox needs memory.
ghost use Rattle.std.specs.Prelude.{ℕ, ◌+◌, ◌≤◌, List, ◌∷◌, [], length, OnOk, OnErr, IsOk};
ghost use Rattle.at_ddp.specs.Sending.{Sends, HasRoomFor, HasRoomToSend};
ghost use Rattle.at_ddp.specs.declared.address.Address.{Address as Destination};
ghost use Rattle.at_adsp_frame.specs.Segments.{content, data_of, part, spelled};

use crate::segment::Segment;
use crate::writing::{data_in, head_of};
use at_ddp::{Address, Outbox};
use std::alloc::{AllocError, Allocator};

/// Sends a segment, with at most 572 bytes of data, in the canonical spelling. A request to open a connection is to no
/// connection identifier. The error is out of memory.
pub fn send<A: Allocator>(
    out: &mut Outbox<A>,
    to: Address,
    segment: &Segment<'_>,
) -> Result<(), AllocError>
    requires { length (data_of (part segment.now.body)) ≤ 572 }
    ensures ok { OnOk result (Sends out.old out.new ((to, spelled (content segment.now)) ∷ [])) }
    ensures err { OnErr result (Sends out.old out.new []) }
    ensures room { (n : ℕ) → HasRoomFor out.old (n + 1) 585 → IsOk result × HasRoomFor out.new n 585 }
    ensures rest { (rest : List (Destination × List ℕ))
        → HasRoomToSend out.old ((to, spelled (content segment.now)) ∷ rest)
        → IsOk result × HasRoomToSend out.new rest }
{
    out.push_parts(to, head_of(segment).as_slice(), data_in(&segment.body))
}
