//! Connection identifiers, which are 1 to 65,535 and go round.
ghost use Rattle.std.specs.Prelude.{◌≡◌};
ghost use Rattle.std.specs.List.{list_any};
ghost use Rattle.at_table.specs.Rows.{AreKeyed};
ghost use Rattle.at_adsp_ends.specs.Filed.{id_of};
ghost use Rattle.at_adsp_ends.specs.Tables.{following, has_id};

use crate::standing::{Standing, index_of};
use std::alloc::Allocator;

pub(crate) const FIRST: u16 = 1;

pub(crate) fn following(id: u16) -> u16
    ensures { result ≡ following id }
{
    id % u16::MAX + FIRST
}

pub(crate) fn is_used<A: Allocator>(ends: &Standing<A>, id: u16) -> bool
    requires { AreKeyed id_of ends.now }
    ensures { result ≡ list_any (has_id id) ends.now.items }
{
    index_of(ends, id).is_some()
}
