//! The open transactions in their table, each found by its number.
ghost use Rattle.std.specs.Prelude.{◌≡◌, ◌+◌, ◌<◌, ◌≤◌, ◌++◌, ◌∷◌, [], false, if◌then◌else◌, length, remove, Some};
ghost use Rattle.std.specs.Prelude.{IfSome};
ghost use Rattle.std.specs.List.{position_from};
ghost use Rattle.at_atp_requester.specs.Requests.{NumbersDiffer, has_number, is_finished, is_numbered, is_of};
ghost use Rattle.at_atp_requester.specs.Standing.{AreFiled};

use crate::progress::RequestProgress;
use crate::transaction::Transaction;
use at_ddp::Address;
use at_table::Table;
use std::alloc::Allocator;

/// The open transactions in the order in which they began.
pub(crate) type Standing<A> = Table<u16, Transaction<A>, A>;

pub(crate) fn index_numbered<A: Allocator>(standing: &Standing<A>, tid: u16) -> Option<usize>
    requires { AreFiled standing.now }
    ensures first { result ≡ position_from (is_numbered tid) 0 standing.now.items }
    ensures within { IfSome result (λ index. index < length standing.now.items) }
{
    standing.index_of(&tid)
}

// Where the transaction stands that has this number and asked this address.
pub(crate) fn index_of<A: Allocator>(
    standing: &Standing<A>,
    tid: u16,
    from: Address,
) -> Option<usize>
    requires filed { AreFiled standing.now }
    requires differ { NumbersDiffer standing.now.items }
    ensures { result ≡ position_from (is_of tid from) 0 standing.now.items }
{
    let index = index_numbered(standing, tid)?;
    let transaction = standing.at(index);
    if transaction.is_of(tid, from) {
        Some(index)
    } else {
        None
    }
}

// Closes the transaction at an index if the step finished it.
pub(crate) fn settle<A: Allocator>(
    standing: &mut Standing<A>,
    index: usize,
    step: &RequestProgress<A>,
)
    requires within { index < length standing.old.items }
    requires filed { AreFiled standing.old }
    ensures items { standing.new.items ≡ (if is_finished step.now then remove standing.old.items index
        else standing.old.items) }
    ensures filed { AreFiled standing.new }
{
    if let RequestProgress::Finished(_) = step {
        drop(standing.remove(index));
    }
}

// Closes the transaction at an index and opens another, which needs no memory. Returns the new number.
pub(crate) fn pass_on<A: Allocator>(
    standing: &mut Standing<A>,
    index: usize,
    next: Transaction<A>,
) -> u16
    requires room { 1 ≤ standing.old.room }
    requires within { index < length standing.old.items }
    requires filed { AreFiled standing.old }
    requires fresh { has_number (remove standing.old.items index) next.tid ≡ false }
    ensures items { standing.new.items ≡ remove standing.old.items index ++ next ∷ [] }
    ensures filed { AreFiled standing.new }
    ensures number { result ≡ next.tid }
{
    let tid = next.tid();
    drop(standing.remove(index));
    standing.push(tid, next);
    tid
}
