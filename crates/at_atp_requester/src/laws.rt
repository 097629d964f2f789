//! The laws of a requester: the responses that it returns, and its numbers. The functions do nothing: each contract is
//! a law.
ghost use Rattle.std.specs.Prelude.{◌≡◌, ◌↔◌, ◌≤◌, ◌<◌, ◌+◌, ◌==◌, ◌++◌, ◌∷◌, [], List, ℕ, Bool, true, false, find};
ghost use Rattle.std.specs.Prelude.{length, replicate, Some, None, IsSome};
ghost use Rattle.at_ddp.specs.declared.address.Address.{Address};
ghost use Rattle.at_atp_requester.specs.Answers.{bitmap_of, bit_is_set, is_wanted, whole};
ghost use Rattle.at_atp_frame.specs.Frames.{Content, Request, Response, number_of};
ghost use Rattle.at_atp_requester.specs.declared.progress.Retry.TheVariants.{Failed};
ghost use Rattle.at_atp_frame.specs.Packets.{Packet};
ghost use Rattle.at_atp_requester.specs.Requests.{Transaction, Requests, Retried, has_number, is_numbered, is_finished};
ghost use Rattle.at_atp_requester.specs.Requests.{next_number, beginning, begun, came, heard, retried, request_by};
ghost use Rattle.at_atp_requester.specs.Requests.{IsRequester, no_requests};
ghost use Rattle.at_atp_requester.specs.Wholes.{Came, firsts, after_all, NoneFinishes, Move, Hears, moved, moved_all};
ghost use Rattle.at_atp_requester.specs.Wholes.{StaysOpen, arrived, IsResponse, IsStillWanted};
ghost use Rattle.at_atp_requester.specs.declared.progress.RequestProgress.TheVariants.{Finished};

use std::alloc::Allocator;

/// Packets may come for a transaction in any order, and more than once. Only the first packet for each place counts.
/// These packets decide which places are still wanted. The transaction ends just when they are the whole response, and
/// with that response.
pub fn a_transaction_ends_by_its_whole_response<A: Allocator>()
    ensures wants { (t : Transaction) (wanted : ℕ) (all : List Came) → t.parts ≡ replicate wanted None
        → bitmap_of (after_all A t all).parts ≡ bitmap_of (firsts wanted all) }
    ensures ends { (t : Transaction) (wanted : ℕ) (all : List Came) (c : Came) (packets : List Packet)
        → t.parts ≡ replicate wanted None → 1 ≤ wanted → NoneFinishes A t all
        → ((came {A = A} (after_all A t all) c.place c.part c.sts).step ≡ Finished packets)
        ↔ (whole (firsts wanted (all ++ c ∷ [])) ≡ Some packets) }
{}

/// The same for a requester while the transaction is open. Other transactions may begin, packets may come from
/// anywhere, and any number may be retried. It asks again for the places still wanted, and returns the whole response.
pub fn a_requester_hands_up_whole_responses<A: Allocator>()
    ensures wants { (r : Requests) (tid : ℕ) (to : Address) (user bytes : List ℕ) (wanted : ℕ) (xo : Bool) (retries : ℕ)
        (ms : List Move) (t : Transaction) → next_number r ≡ Some tid
        → StaysOpen A (begun r (beginning tid to user bytes wanted xo retries)) tid ms
        → find (is_numbered tid) (moved_all A (begun r (beginning tid to user bytes wanted xo retries)) ms).standing
        ≡ Some t
        → bitmap_of t.parts ≡ bitmap_of (firsts wanted (arrived to tid ms)) }
    ensures ends { (r : Requests) (tid : ℕ) (to : Address) (user bytes : List ℕ) (wanted : ℕ) (xo : Bool) (retries : ℕ)
        (ms : List Move) (from : Address) (place : ℕ) (eom sts : Bool) (words data_ : List ℕ) (packets : List Packet)
        → next_number r ≡ Some tid
        → StaysOpen A (begun r (beginning tid to user bytes wanted xo retries)) tid ms
        → (heard {A = A} (moved_all A (begun r (beginning tid to user bytes wanted xo retries)) ms) from
        (Response place eom sts tid words data_)).step ≡ Finished packets
        → whole (firsts wanted (arrived to tid (ms ++ Hears from (Response place eom sts tid words data_) ∷ [])))
        ≡ Some packets }
{}

/// `whole` is the response in the words of the standard. For each place it takes the earliest packet. It ends at the
/// least place whose earliest packet ends the response, or at the last place that was asked for.
pub fn a_whole_response_is_the_earliest_packets_to_its_end()
    ensures { (wanted : ℕ) (all : List Came) (packets : List Packet) → 1 ≤ wanted
        → (whole (firsts wanted all) ≡ Some packets) ↔ IsResponse wanted all packets }
{}

/// A bit of the bitmap of a request is set just if its place is still wanted: by what the transaction kept, and by the
/// packets that came.
pub fn a_bitmap_asks_for_the_places_still_wanted()
    ensures sent { (t : Transaction) (mask : ℕ) (xo : Bool) (timer tid : ℕ) (user bytes : List ℕ) (place : ℕ)
        → request_by t ≡ Request mask xo timer tid user bytes → bit_is_set mask place ≡ is_wanted t.parts place }
    ensures came { (wanted : ℕ) (all : List Came) (place : ℕ)
        → (bit_is_set (bitmap_of (firsts wanted all)) place ≡ true) ↔ IsStillWanted wanted all place }
{}

/// With fewer than 32 open transactions there is a number for the next one.
pub fn below_32_a_number_is_free()
    ensures { (r : Requests) → length r.standing < 32 → IsSome (next_number r) }
{}

/// At most 32 transactions are open, under numbers that differ from each other, and the number to try next is in range:
/// from the beginning on, after each move.
pub fn open_numbers_differ<A: Allocator>()
    ensures none { IsRequester no_requests }
    ensures moved { (r : Requests) (m : Move) → IsRequester r → IsRequester (moved A r m) }
    ensures begun { (r : Requests) (t : Transaction) → next_number r ≡ Some t.tid → IsRequester r
        → IsRequester (begun r t) }
    ensures heard { (r : Requests) (from : Address) (f : Content) → IsRequester r
        → IsRequester (heard {A = A} r from f).after }
    ensures retried { (r : Requests) (tid : ℕ) (e : Retried) → retried r tid ≡ Some e → IsRequester r
        → IsRequester e.after }
{}

/// A number that is drawn is not open. A transaction that begins opens its number. An open number stays open until its
/// own transaction ends.
pub fn numbers_stay_open<A: Allocator>()
    ensures drawn { (r : Requests) (tid : ℕ) → next_number r ≡ Some tid → has_number r.standing tid ≡ false }
    ensures opened { (r : Requests) (t : Transaction) → has_number (begun r t).standing t.tid ≡ true }
    ensures begun { (r : Requests) (t : Transaction) (tid : ℕ) → has_number r.standing tid ≡ true
        → has_number (begun r t).standing tid ≡ true }
    ensures heard { (r : Requests) (from : Address) (f : Content) (tid : ℕ) → has_number r.standing tid ≡ true
        → (is_finished (heard {A = A} r from f).step ≡ true → (number_of f == tid) ≡ false)
        → has_number (heard {A = A} r from f).after.standing tid ≡ true }
    ensures retried { (r : Requests) (other tid : ℕ) (e : Retried) → retried r other ≡ Some e
        → has_number r.standing tid ≡ true → (e.step ≡ Failed → (other == tid) ≡ false)
        → has_number e.after.standing tid ≡ true }
{}
