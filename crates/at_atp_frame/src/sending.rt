//! The sending of one packet by an outbox, which alone needs memory.
ghost use Rattle.std.specs.Prelude.{ℕ, ◌+◌, ◌≤◌, ◌∷◌, [], length, OnOk, OnErr, IsOk};
ghost use Rattle.at_ddp.specs.Sending.{Sends, HasRoomFor};
ghost use Rattle.at_atp_frame.specs.Frames.{content, CanBeWritten, data_of, spelled};

use crate::frame::{Frame, data_in, header_of};
use at_ddp::{Address, Outbox};
use std::alloc::{AllocError, Allocator};

/// Sends a packet in the canonical spelling.
pub fn send<A: Allocator>(
    out: &mut Outbox<A>,
    to: Address,
    frame: &Frame<'_>,
) -> Result<(), AllocError>
    requires written { CanBeWritten (content frame.now) }
    requires fits { length (data_of (content frame.now)) ≤ 578 }
    ensures ok { OnOk result (Sends out.old out.new ((to, spelled (content frame.now)) ∷ [])) }
    ensures err { OnErr result (Sends out.old out.new []) }
    ensures room { (n size : ℕ) → HasRoomFor out.old (n + 1) size → 8 + length (data_of (content frame.now)) ≤ size
        → IsOk result × HasRoomFor out.new n size }
{
    out.push_parts(to, &header_of(frame), data_in(frame))
}
