//! What becomes of the record of a request that is answered: the answer is kept, or the record is removed.
ghost use Rattle.std.specs.Prelude.{◌≡◌, ◌≤◌, length, true, find, Some};
ghost use Rattle.std.specs.List.{position_from};
ghost use Rattle.at_atp_responder.specs.Records.{Answered, fit, is_key, is_kept, after_answer};
ghost use Rattle.at_ddp.specs.Tables.{replaced, without_first};

use crate::reception::Key;
use crate::records::Records;
use at_atp_frame::Packet;
use at_ddp::Listed;
use std::alloc::Allocator;

// Keeps the answer if the request is exactly-once, and removes the record at this index otherwise.
pub(crate) fn settle<A: Allocator>(
    records: &mut Records<A>,
    key: Key,
    index: usize,
    packets: Listed<Packet<A>, A>,
)
    requires place { position_from (is_key key) 0 records.old ≡ Some index }
    requires few { length packets ≤ 8 }
    requires fits { fit packets ≡ true }
    ensures settled { records.new ≡ after_answer records.old key packets }
    ensures no_more { length records.new ≤ length records.old }
{
    if is_kept_at(records, key, index) {
        keep(records, key, index, packets);
    } else {
        forget(records, key, index);
    }
}

// The same, with a copy of the answer. This needs no memory.
pub(crate) fn settle_copy<A: Allocator + Copy>(
    records: &mut Records<A>,
    key: Key,
    index: usize,
    packets: &[Packet<A>],
)
    requires place { position_from (is_key key) 0 records.old ≡ Some index }
    requires few { length packets.now ≤ 8 }
    requires fits { fit packets.now ≡ true }
    ensures settled { records.new ≡ after_answer records.old key packets.now }
    ensures no_more { length records.new ≤ length records.old }
{
    if is_kept_at(records, key, index) {
        keep_copy(records, key, index, packets);
    } else {
        forget(records, key, index);
    }
}

// Whether the answer to the request whose record is at this index will be kept.
fn is_kept_at<A: Allocator>(records: &Records<A>, key: Key, index: usize) -> bool
    requires { position_from (is_key key) 0 records.now ≡ Some index }
    ensures { result ≡ is_kept (find (is_key key) records.now) }
{
    records.table.at(index).keeps_answer()
}

fn keep<A: Allocator>(
    records: &mut Records<A>,
    key: Key,
    index: usize,
    packets: Listed<Packet<A>, A>,
)
    requires place { position_from (is_key key) 0 records.old ≡ Some index }
    requires few { length packets ≤ 8 }
    requires fits { fit packets ≡ true }
    ensures kept { records.new ≡ replaced (is_key key) (record { key = key; state = Answered packets })
        records.old }
    ensures as_many { length records.new ≡ length records.old }
{
    let record = records.table.at_mut(index);
    record.keep(packets);
}

fn keep_copy<A: Allocator + Copy>(
    records: &mut Records<A>,
    key: Key,
    index: usize,
    packets: &[Packet<A>],
)
    requires place { position_from (is_key key) 0 records.old ≡ Some index }
    requires few { length packets.now ≤ 8 }
    requires fits { fit packets.now ≡ true }
    requires kept { is_kept (find (is_key key) records.old) ≡ true }
    ensures kept { records.new ≡ replaced (is_key key) (record { key = key; state = Answered packets.now })
        records.old }
    ensures as_many { length records.new ≡ length records.old }
{
    let record = records.table.at_mut(index);
    record.keep_copy(packets);
}

// Removes the record at this index.
pub(crate) fn forget<A: Allocator>(records: &mut Records<A>, key: Key, index: usize)
    requires { position_from (is_key key) 0 records.old ≡ Some index }
    ensures gone { records.new ≡ without_first (is_key key) records.old }
    ensures no_more { length records.new ≤ length records.old }
{
    let record = records.table.remove(index);
    drop(record);
}
