//! The laws of a responder: requests that wait, and that are delivered once. The functions do nothing: each contract is
//! a law.
ghost use Rattle.std.specs.Prelude.{◌≡◌, ◌≤◌, ◌+◌, [], List, ◌⊎◌, true, length, find, Option, Some, None};
ghost use Rattle.at_ddp.specs.declared.address.Address.{Address};
ghost use Rattle.at_atp_frame.specs.Frames.{Content, number_of};
ghost use Rattle.at_atp_responder.specs.Keys.{AreApart};
ghost use Rattle.at_atp_responder.specs.Once.{Event, Expires, Undoes, stands, hand_ups, removes, removals, is_once};
ghost use Rattle.at_atp_responder.specs.Records.{AsksForEight, Record, is_key, received};
ghost use Rattle.at_atp_responder.specs.AtOnce.{with_request};
ghost use Rattle.at_atp_responder.specs.Records.{record_fault, after_answer, answer_fault, asked_for, responses};
ghost use Rattle.at_atp_responder.specs.Replies.{AllOfAnswer};
ghost use Rattle.at_atp_responder.specs.declared.reception.Key.{Key};
ghost use Rattle.at_atp_responder.specs.declared.reception.NewRequest.{NewRequest};
ghost use Rattle.at_atp_responder.specs.declared.reception.Reception.TheVariants.{New};
ghost use Rattle.at_atp_frame.specs.Packets.{Packet};

use crate::records::keys_differ;
use crate::responder::Responder;
use std::alloc::Allocator;

/// A new request waits under its own key from then on, and nothing is sent for it.
pub fn a_new_request_waits()
    ensures { (rs : List Record) (from : Address) (f : Content) (key : Key) → (received rs from f).reception ≡ New key
        → (record_fault (find (is_key key) (received rs from f).after) ≡ None) × ((received rs from f).sent ≡ [])
        × (key ≡ record { from = from; tid = number_of f }) }
{}

/// Between two removals of its record, a request is delivered to the service at most once, whatever comes. The record
/// of an exactly-once request is removed only if it expires or is undone.
pub fn a_request_is_handed_up_once()
    ensures once { (key : Key) (rs : List Record) (events : List Event)
        → hand_ups key rs events ≤ removals key rs events + 1 }
    ensures standing { (key : Key) (rs : List Record) (events : List Event) → stands key rs ≡ true
        → hand_ups key rs events ≤ removals key rs events }
    ensures removed { (key : Key) (rs : List Record) (r : Record) (e : Event) → find (is_key key) rs ≡ Some r
        → is_once r.state ≡ true → removes key rs e ≡ true → (e ≡ Expires key) ⊎ (e ≡ Undoes key) }
{}

/// All that a responder sends to the key of a request is of one answer to it, which was given since the request was
/// delivered. Each is the packet of its place, and exactly the last packet of the answer is marked as the end.
pub fn what_is_sent_is_of_the_answer()
    ensures { (key : Key) (events : List Event) → AllOfAnswer key [] None events }
{}

/// No more packets are sent than the answer has.
pub fn no_more_is_sent_than_answered()
    ensures { (o : Option Record) (key : Key) (packets : List Packet)
        → length (asked_for o key packets) ≤ length packets }
{}

/// For a packet that came, or an answer to it, at most eight packets are sent.
pub fn at_most_eight_packets_are_sent()
    ensures came { (rs : List Record) (from : Address) (f : Content) → AsksForEight f
        → length (received rs from f).sent ≤ 8 }
    ensures replied { (rs : List Record) (from : Address) (f : Content) (key : Key) (packets : List Packet)
        → AsksForEight f → (received rs from f).reception ≡ New key
        → length (asked_for (find (is_key key) (received rs from f).after) key packets) ≤ 8 }
{}

/// A request that is answered at once is sent what it would have been sent if it had waited. It leaves the records as
/// it would have left them then.
pub fn an_answer_at_once_leaves_no_record()
    ensures asked { (rs : List Record) (request : NewRequest) (packets : List Packet)
        → find (is_key request.key) rs ≡ None
        → asked_for (find (is_key request.key) (with_request rs request)) request.key packets
        ≡ responses request.key 0 request.bitmap packets }
    ensures gone { (rs : List Record) (request : NewRequest) (packets : List Packet)
        → find (is_key request.key) rs ≡ None → after_answer (with_request rs request) request.key packets ≡ rs }
{}

/// Only a request that waits is answered.
pub fn only_a_waiting_request_is_answered()
    ensures { (rs : List Record) (key : Key) (packets : List Packet) → answer_fault rs key packets ≡ None
        → record_fault (find (is_key key) rs) ≡ None }
{}

/// A responder has at most 64 records. The body does nothing at run time.
pub fn at_most_64_records_stand<A: Allocator>(responder: &Responder<A>)
    ensures { length responder.now ≤ 64 }
{
    let _records = &responder.records;
}

/// No two records of a responder are of one request. The body does nothing at run time.
pub fn no_two_records_are_of_one_request<A: Allocator>(responder: &Responder<A>)
    ensures { AreApart responder.now }
{
    keys_differ(&responder.records);
}
