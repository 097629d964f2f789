//! The ends in their table, each found by its identifier.
ghost use Rattle.std.specs.Prelude.{◌≡◌, ◌<◌, drop, find, length, IfSome};
ghost use Rattle.std.specs.List.{AllByRecursion, list_any, position_from};
ghost use Rattle.std.specs.Option.{option_copied};
ghost use Rattle.at_table.specs.Rows.{AreKeyed};
ghost use Rattle.at_adsp_end.specs.Ends.{FitsRooms};
ghost use Rattle.at_adsp_ends.specs.Filed.{id_of};
ghost use Rattle.at_adsp_ends.specs.Tables.{has_id, has_remote_at};

use at_adsp_end::End;
use at_table::Table;
use std::alloc::Allocator;

/// The ends in the order in which they were made.
pub(crate) type Standing<A> = Table<u16, End<A>, A>;

pub(crate) fn index_of<A: Allocator>(ends: &Standing<A>, id: u16) -> Option<usize>
    requires { AreKeyed id_of ends.now }
    ensures first { result ≡ position_from (has_id id) 0 ends.now.items }
    ensures within { IfSome result (λ index. index < length ends.now.items) }
{
    ends.index_of(&id)
}

pub(crate) fn end_named<A: Allocator>(ends: &Standing<A>, id: u16) -> Option<&End<A>>
    requires { AreKeyed id_of ends.now }
    ensures { option_copied result ≡ find (has_id id) ends.now.items }
{
    ends.get(&id)
}

// Whether the remote of an end from this index on has this identifier at a node with this number.
pub(crate) fn any_at_from<A: Allocator + Copy>(
    ends: &Standing<A>,
    index: usize,
    node: u8,
    id: u16,
) -> bool
    ensures { result ≡ list_any (has_remote_at node id) (drop index ends.now.items) }
{
    if index >= ends.len() {
        return false;
    }
    let end = ends.at(index);
    has_remote_at(end, node, id) || any_at_from(ends, index + 1, node, id)
}

fn has_remote_at<A: Allocator + Copy>(end: &End<A>, node: u8, id: u16) -> bool
    ensures { result ≡ has_remote_at node id end.now }
{
    match end.remote() {
        None => false,
        Some(remote) => remote.address.node == node && remote.id == id,
    }
}

// Visits the ends from this index on.
pub(crate) fn limits_from<A: Allocator + Copy>(ends: &Standing<A>, index: usize)
    ensures { AllByRecursion FitsRooms (drop index ends.now.items) }
{
    if index < ends.len() {
        ends.at(index).limits();
        limits_from(ends, index + 1);
    }
}
