//! The table of a responder's records: which of them a packet is for, and when one is added or removed.
ghost use Rattle.std.specs.Prelude.{◌≡◌, ◌≢◌, ◌↔◌, ◌<◌, ◌≤◌, ◌∷◌, slice_get, slice_set, [], ◌++◌, length, true, find};
ghost use Rattle.std.specs.Prelude.{◌==◌, ◌&&◌};
ghost use Rattle.std.specs.Prelude.{IfOk, IfErr, IfSome, OnOk, OnErr, IsOk, IsErrOf, Some, None};
ghost use Rattle.std.specs.List.{list_any, position_from};
ghost use Rattle.std.specs.Option.{option_copied};
ghost use Rattle.at_ddp.specs.Sending.{Sends};
ghost use Rattle.at_atp_responder.specs.Records.{Record as Kept, repeated, request_came, release_came};
ghost use Rattle.at_atp_responder.specs.Records.{is_new_and_full, IsRepeat, Waiting, is_key};
ghost use Rattle.at_atp_responder.specs.Records.{state_fault, record_fault, expiry_fault, asked_bitmap};
ghost use Rattle.at_atp_responder.specs.Records.{IsTaken, is_from, expiring_key};
ghost use Rattle.at_atp_responder.specs.Keys.{AreApart};

use crate::reception::{Key, Reception};
use crate::record::Record;
use at_atp_frame::AtpFault;
use at_ddp::Outbox;
use at_table::Table;
use std::alloc::{AllocError, Allocator};
use std::marker::Model;

/// How many records a responder has at most.
pub(crate) const RECORDS: usize = 64;

/// The records in the order in which their requests came, each found by its key.
#[derive(Drop)]
pub(crate) struct Records<A: Allocator> {
    pub(crate) table: Table<Key, Record<A>, A>,
}

// A request that waits for its answer.
#[derive(Clone, Copy)]
pub(crate) struct WaitingRequest {
    // The index of its record.
    pub(crate) index: usize,
    // Which packets it asks for.
    pub(crate) bitmap: u8,
}

impl<A: Allocator> Model for Records<A> {
    ghost use Rattle.std.specs.Prelude.{List};
    ghost use Rattle.at_atp_responder.specs.Records.{Record as Kept};
    ghost use Rattle.at_atp_responder.specs.Keys.{AreFiled};

    ghost Value = { List Kept };

    ghost view = { λ r. r.table.items };

    ghost invariant = { λ r. AreFiled r.table };
}

impl<A: Allocator + Copy> Records<A> {
    pub(crate) fn new(alloc: A) -> Records<A>
        ensures { result ≡ [] }
    {
        Records {
            table: Table::new(alloc),
        }
    }
}

// Whether a record is of a request with this number from this node.
pub(crate) fn has_number<A: Allocator>(records: &Records<A>, node: u8, tid: u16) -> bool
    ensures { result ≡ list_any (is_from node tid) records.now }
{
    is_among(records.table.keys(), node, tid)
}

// Whether one of these keys has this number and is of this node.
fn is_among(keys: &[Key], node: u8, tid: u16) -> bool
    ensures { result ≡ list_any (λ key. (key.from.node == node) && (key.tid == tid)) keys.now }
{
    keys.iter()
        .any(|key| key.from.node == node && key.tid == tid)
}

// The index of the record under this key, if it can expire. The error is why it cannot.
pub(crate) fn expiring_index<A: Allocator>(
    records: &Records<A>,
    key: Key,
) -> Result<usize, AtpFault>
    ensures place { IfOk result (λ index. position_from (is_key key) 0 records.now ≡ Some index) }
    ensures expires { OnOk result (expiry_fault (find (is_key key) records.now) ≡ None) }
    ensures refuses { IfErr result (λ fault. expiry_fault (find (is_key key) records.now) ≡ Some fault) }
{
    let Some(index) = index_of(records, key) else {
        return Err(AtpFault::NoSuch);
    };
    match records.table.at(index).expiry_fault() {
        Some(fault) => Err(fault),
        None => Ok(index),
    }
}

// The key of the record at an index, if that record can expire.
pub(crate) fn expiring_at<A: Allocator>(records: &Records<A>, index: usize) -> Option<Key>
    requires { index < length records.now }
    ensures { IfSome (slice_get records.now index) (λ r. result ≡ expiring_key r) }
{
    records.table.at(index).expiring_key()
}

// No two records are of one request. The body only visits the table.
pub(crate) fn keys_differ<A: Allocator>(records: &Records<A>)
    ensures { AreApart records.now }
{
    let _table = &records.table;
}

// How many records there are.
pub(crate) fn count<A: Allocator>(records: &Records<A>) -> usize
    ensures { result ≡ length records.now }
{
    records.table.len()
}

// The request under this key, if it waits. The error is why it cannot be answered.
pub(crate) fn waiting<A: Allocator>(
    records: &Records<A>,
    key: Key,
) -> Result<WaitingRequest, AtpFault>
    ensures place { IfOk result (λ w. position_from (is_key key) 0 records.now ≡ Some w.index) }
    ensures bitmap { IfOk result (λ w. IfSome (find (is_key key) records.now) (λ r. w.bitmap ≡ asked_bitmap r.state)) }
    ensures waits { OnOk result (record_fault (find (is_key key) records.now) ≡ None) }
    ensures refuses { IfErr result (λ fault. record_fault (find (is_key key) records.now) ≡ Some fault) }
{
    let Some(index) = index_of(records, key) else {
        return Err(AtpFault::NoSuch);
    };
    let record = records.table.at(index);
    match record.fault() {
        Some(fault) => Err(fault),
        None => Ok(WaitingRequest {
            index,
            bitmap: record.bitmap(),
        }),
    }
}

pub(crate) fn record_of<A: Allocator>(records: &Records<A>, key: Key) -> Option<&Record<A>>
    ensures { option_copied result ≡ find (is_key key) records.now }
{
    records.table.get(&key)
}

pub(crate) fn index_of<A: Allocator>(records: &Records<A>, key: Key) -> Option<usize>
    ensures { result ≡ position_from (is_key key) 0 records.now }
{
    records.table.index_of(&key)
}

// Takes a request that asks for at least one packet.
pub(crate) fn hear_request<A: Allocator + Copy>(
    alloc: A,
    records: &mut Records<A>,
    key: Key,
    xo: bool,
    bitmap: u8,
    out: &mut Outbox<A>,
) -> Result<Reception, AtpFault>
    ensures ok { IfOk result (λ r. IsTaken
        (request_came records.old key xo bitmap (find (is_key key) records.old)) r records.new
        out.old out.new) }
    ensures full { IsErrOf result AtpFault.Full ↔ (is_new_and_full records.old key ≡ true) }
    ensures memory { IfErr result (λ fault. fault ≢ AtpFault.Full → fault ≡ AtpFault.NoMemory) }
    ensures unchanged { OnErr result (records.new ≡ records.old) }
    ensures nothing_sent { OnErr result (Sends out.old out.new []) }
    ensures ignored { (request_came records.old key xo bitmap (find (is_key key) records.old)).reception
        ≡ Reception.Ignored → IsOk result }
    ensures waits { record_fault (find (is_key key) records.old) ≡ None → IsOk result }
    ensures few { length records.old ≤ 64 → length records.new ≤ 64 }
{
    match index_of(records, key) {
        None => add(alloc, records, key, xo, bitmap),
        Some(index) => match repeat(records, index, bitmap, out) {
            Ok(reception) => Ok(reception),
            Err(AllocError) => Err(AtpFault::NoMemory),
        },
    }
}

// Adds a record for a new request.
fn add<A: Allocator + Copy>(
    alloc: A,
    records: &mut Records<A>,
    key: Key,
    xo: bool,
    bitmap: u8,
) -> Result<Reception, AtpFault>
    requires { find (is_key key) records.old ≡ None }
    ensures ok { IfOk result (λ r. (r ≡ Reception.New key)
        × (records.new ≡ records.old ++ record { key = key; state = Waiting xo bitmap } ∷ [])) }
    ensures full { IsErrOf result AtpFault.Full ↔ (64 ≤ length records.old) }
    ensures memory { IfErr result (λ fault. fault ≢ AtpFault.Full → fault ≡ AtpFault.NoMemory) }
    ensures unchanged { OnErr result (records.new ≡ records.old) }
    ensures few { length records.old ≤ 64 → length records.new ≤ 64 }
{
    if records.table.len() >= RECORDS {
        return Err(AtpFault::Full);
    }
    records.table.reserve()?;
    let record = Record::waiting(alloc, key, xo, bitmap)?;
    records.table.push(key, record);
    Ok(Reception::New(key))
}

// Takes a request again whose record is at this index.
fn repeat<A: Allocator>(
    records: &mut Records<A>,
    index: usize,
    bitmap: u8,
    out: &mut Outbox<A>,
) -> Result<Reception, AllocError>
    requires { index < length records.old }
    ensures ok { IfOk result (λ r. (old new : Kept) × (slice_get records.old index ≡ Some old)
        × IsRepeat (repeated old.key bitmap old.state) r old new out.old out.new
        × (records.new ≡ slice_set records.old index new)) }
    ensures unchanged { OnErr result (records.new ≡ records.old) }
    ensures nothing_sent { OnErr result (Sends out.old out.new []) }
    ensures ignored { (old : Kept) → slice_get records.old index ≡ Some old
        → (repeated old.key bitmap old.state).reception ≡ Reception.Ignored → IsOk result }
    ensures waits { (old : Kept) → slice_get records.old index ≡ Some old → state_fault old.state ≡ None
        → IsOk result }
    ensures as_many { length records.new ≡ length records.old }
{
    let record = records.table.at_mut(index);
    record.come_again(bitmap, out)
}

// Takes the release of an answer.
pub(crate) fn hear_release<A: Allocator>(records: &mut Records<A>, key: Key) -> Reception
    ensures reception { result ≡ (release_came records.old key (find (is_key key) records.old)).reception }
    ensures after { records.new
        ≡ (release_came records.old key (find (is_key key) records.old)).after }
    ensures as_many { length records.new ≡ length records.old }
{
    match index_of(records, key) {
        None => Reception::Ignored,
        Some(index) => {
            let record = records.table.at_mut(index);
            record.release()
        }
    }
}
