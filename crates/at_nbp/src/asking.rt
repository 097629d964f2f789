//! Packets with one tuple, as lookups and routers send them.
ghost use Rattle.std.specs.Prelude.{◌∷◌, [], OnOk, OnErr};
ghost use Rattle.at_ddp.specs.Sending.{Sends};
ghost use Rattle.at_nbp.specs.Packets.{spelling};
ghost use Rattle.at_nbp.specs.Tuples.{FitsStrings, content};

use crate::function::Function;
use crate::packet::{HEADER_LEN, encode};
use crate::tuple::{MAX_TUPLE_LEN, Tuple};
use at_ddp::{Address, Outbox};
use std::alloc::{AllocError, Allocator};
use std::slice;

/// Sends a packet with one tuple, whose strings have at most 32 bytes. The error is out of memory.
pub(crate) fn send_one<A: Allocator + Copy>(
    alloc: A,
    function: Function,
    id: u8,
    tuple: &Tuple<'_>,
    to: Address,
    out: &mut Outbox<A>,
) -> Result<(), AllocError>
    requires { FitsStrings (content tuple.now) }
    ensures ok { OnOk result (Sends out.old out.new
        ((to, spelling (record { function = function; id = id; tuples = content tuple.now ∷ [] })) ∷ [])) }
    ensures err { OnErr result (Sends out.old out.new []) }
{
    let mut bytes = Vec::with_capacity(alloc, HEADER_LEN + MAX_TUPLE_LEN)?;
    encode(function, id, slice::from_ref(tuple), &mut bytes).unwrap();
    out.push(to, bytes.as_slice())
}
