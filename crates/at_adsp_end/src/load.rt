//! How much memory packets take.
ghost use Rattle.std.specs.Prelude.{◌≡◌, ◌+◌, ◌<◌, ◌^◌, List, ◌∷◌, ◌++◌, [], length, OnOk, IsOk};
ghost use Rattle.at_ddp.specs.Sending.{Sends};
ghost use Rattle.at_ddp.specs.declared.address.Address.{Address};
ghost use Rattle.at_adsp_frame.specs.Segments.{Content, fields_of};
ghost use Rattle.at_adsp_end.specs.Ends.{EndState};
ghost use Rattle.at_adsp_end.specs.Hearing.{if_asked};
ghost use Rattle.at_adsp_end.specs.Loads.{HasRoomTo, IsLoad};
ghost use Rattle.at_adsp_end.specs.Positions.{wire};

use at_adsp_frame::HEADER_LEN;
use at_adsp_frame::laws::what_is_written_is_a_header_and_fields;
use at_ddp::Outbox;
use std::alloc::{AllocError, Allocator};

// How many packets there are, and how many bytes they have, each with its header.
#[derive(Clone, Copy)]
pub(crate) struct Load {
    pub(crate) packets: u32,
    pub(crate) bytes: u32,
}

impl Load {
    pub(crate) fn none() -> Load
        ensures is { (to : Address) → IsLoad result to [] }
        ensures packets { result.packets ≡ 0 }
        ensures bytes { result.bytes ≡ 0 }
    {
        Load {
            packets: 0,
            bytes: 0,
        }
    }

    // One packet with so many bytes behind its header.
    pub(crate) fn of_one(fields: u16) -> Load
        ensures is { (to : Address) (s : Content) → length (fields_of s.body) ≡ fields → IsLoad result to (s ∷ []) }
        ensures packets { result.packets ≡ 1 }
        ensures bytes { result.bytes ≡ 13 + fields }
    {
        what_is_written_is_a_header_and_fields();
        Load {
            packets: 1,
            bytes: HEADER_LEN as u32 + fields as u32,
        }
    }

    // An acknowledgement, if one is wanted.
    pub(crate) fn if_asked(ack: bool) -> Load
        ensures is { (to : Address) (e : EndState) → IsLoad result to (if_asked wire ack e) }
        ensures packets { result.packets < 2 }
        ensures bytes { result.bytes < 14 }
    {
        if ack { Load::of_one(0) } else { Load::none() }
    }

    // The packets of both.
    pub(crate) fn plus(self, more: Load) -> Load
        requires packets { self.packets + more.packets < 2 ^ 32 }
        requires bytes { self.bytes + more.bytes < 2 ^ 32 }
        ensures { (to : Address) (a b : List Content) → IsLoad self to a → IsLoad more to b
            → IsLoad result to (a ++ b) }
    {
        Load {
            packets: self.packets + more.packets,
            bytes: self.bytes + more.bytes,
        }
    }

    // Makes room for them. The error is out of memory.
    pub(crate) fn room<A: Allocator>(self, out: &mut Outbox<A>) -> Result<(), AllocError>
        ensures ok { OnOk result ((to : Address) (sent : List Content) → IsLoad self to sent
            → HasRoomTo out.new to sent) }
        ensures stays { Sends out.old out.new [] }
        ensures succeeds { (to : Address) (sent : List Content) → IsLoad self to sent → HasRoomTo out.old to sent
            → IsOk result }
    {
        out.room_for_data(self.packets, self.bytes)
    }
}
