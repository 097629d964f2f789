//! The number that the next transaction gets. Numbers that are open are passed over.
ghost use Rattle.std.specs.Prelude.{◌≡◌, ◌<◌, length, IsSome};
ghost use Rattle.at_atp_requester.specs.Requests.{NumbersDiffer, draw_from, has_number, next_number};
ghost use Rattle.at_atp_requester.specs.Standing.{AreFiled, left_open};

use crate::standing::{Standing, index_numbered};
use std::alloc::Allocator;

/// How many transactions may be open at once.
const OPEN: usize = 32;

/// The number of the next transaction, if these are open and `next` is tried first. If `closed` is a number, its
/// transaction counts as closed.
pub(crate) fn next_of<A: Allocator>(
    standing: &Standing<A>,
    closed: Option<u16>,
    next: u16,
) -> Option<u16>
    requires filed { AreFiled standing.now }
    requires differ { NumbersDiffer standing.now.items }
    ensures number { result ≡ next_number
        (record { next = next; standing = left_open standing.now.items closed }) }
    ensures some { length (left_open standing.now.items closed) < 32 → IsSome result }
{
    let open = open_but(standing, closed);
    if open < OPEN {
        free_number(standing, closed, next, open + 1)
    } else {
        None
    }
}

// The first number from `first` on that is not open, if it takes at most `tries` tries.
fn free_number<A: Allocator>(
    standing: &Standing<A>,
    closed: Option<u16>,
    first: u16,
    tries: usize,
) -> Option<u16>
    requires filed { AreFiled standing.now }
    requires differ { NumbersDiffer standing.now.items }
    ensures { result ≡ draw_from tries first (left_open standing.now.items closed) }
{
    if tries == 0 {
        None
    } else if is_open(standing, closed, first) {
        free_number(standing, closed, first.wrapping_add(1), tries - 1)
    } else {
        Some(first)
    }
}

fn is_open<A: Allocator>(standing: &Standing<A>, closed: Option<u16>, tid: u16) -> bool
    requires filed { AreFiled standing.now }
    requires differ { NumbersDiffer standing.now.items }
    ensures { result ≡ has_number (left_open standing.now.items closed) tid }
{
    if closed == Some(tid) {
        return false;
    }
    index_numbered(standing, tid).is_some()
}

// How many transactions are open.
fn open_but<A: Allocator>(standing: &Standing<A>, closed: Option<u16>) -> usize
    requires { AreFiled standing.now }
    ensures { result ≡ length (left_open standing.now.items closed) }
{
    let Some(tid) = closed else {
        return standing.len();
    };
    match index_numbered(standing, tid) {
        Some(_) => standing.len() - 1,
        None => standing.len(),
    }
}
