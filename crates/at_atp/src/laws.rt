//! The laws of ATP: spellings, transactions, requests that are delivered once, and answers. The functions do nothing at
//! run time: each contract is a law.
ghost use Rattle.std.specs.Prelude.{◌≡◌, List, [], true, ℕ};
ghost use Rattle.at_ddp.specs.declared.address.Address.{Address};
ghost use Rattle.std.specs.List.{AllByRecursion};
ghost use Rattle.at_atp.specs.Askings.{ChangesAsked};
ghost use Rattle.at_atp.specs.HandUps.{AllLived, AnswersOnce};
ghost use Rattle.at_atp.specs.Lawfully.{IsInRange, IsLawfullySent};
ghost use Rattle.at_ddp.specs.Posts.{AllSent};
ghost use Rattle.at_atp.specs.Network.{Network, Happening, AllTimely, GivesAnswers, after};
ghost use Rattle.at_atp.specs.Transactions.{Transaction as Exchange, Asked, answered};
ghost use Rattle.at_atp_frame.specs.Frames.{Content};
ghost use Rattle.at_atp_frame.specs.Packets.{Packet};
ghost use Rattle.at_atp_requester.specs.Requests.{Requests, finishes, heard};

pub use at_atp_frame::laws::{what_is_written_fits, what_is_written_is_read};
pub use at_atp_requester::laws::{
    a_bitmap_asks_for_the_places_still_wanted, a_requester_hands_up_whole_responses,
    a_transaction_ends_by_its_whole_response, a_whole_response_is_the_earliest_packets_to_its_end,
    below_32_a_number_is_free, numbers_stay_open, open_numbers_differ,
};
pub use at_atp_responder::laws::{
    a_new_request_waits, a_request_is_handed_up_once, an_answer_at_once_leaves_no_record,
    at_most_64_records_stand, no_more_is_sent_than_answered, no_two_records_are_of_one_request,
    only_a_waiting_request_is_answered, what_is_sent_is_of_the_answer,
};
use std::alloc::Allocator;

/// Packets may be lost, repeated or reordered, but none outlives the transaction number that it carries. Then a
/// transaction ends with packets of answers that the responder it asked was given since it began. Requests in time,
/// records and open transactions belong to the newest transactions of their numbers.
pub fn responses_are_answers<A: Allocator>()
    ensures { (history : List Happening) → AllTimely A history → GivesAnswers A (after A history) }
{
    numbers_stay_open::<A>();
}

/// The same for exactly-once transactions, if records live long enough. That is: after a record expired, no request of
/// its key comes before the number is drawn again. A request of the newest transaction of its number is delivered to
/// the service at most once, and answered at most once. If a packet in time ends the transaction, both happened once.
/// The response is then that answer, or as many of its first packets as were asked for.
pub fn exactly_once_requests_are_answered_once<A: Allocator>()
    ensures { (history : List Happening) → AllTimely A history → AllLived A history → AnswersOnce A history }
{
    numbers_stay_open::<A>();
    only_a_waiting_request_is_answered();
}

/// All that is sent can be spelled, if what is asked and answered is in range.
pub fn what_is_sent_is_lawful<A: Allocator>()
    ensures { (history : List Happening) → AllByRecursion IsInRange history
        → AllSent IsLawfullySent (after A history).sent }
{}

/// A packet that ends an at-least-once transaction is answered by nothing.
pub fn an_end_is_answered_by_nothing<A: Allocator>()
    ensures { (r : Requests) (from : Address) (f : Content) → finishes A r from f ≡ true
        → (heard {A = A} r from f).sent ≡ [] }
{}

/// An answer leaves what was asked as it was.
pub fn answers_join_what_was_asked()
    ensures { (ts : List Exchange) (from : Address) (tid : ℕ) (packets : List Packet) (who : Address) (k : ℕ)
        (responder : Address) (a : Asked ts who k responder)
        → (b : Asked (answered ts from tid packets) who k responder) × (b.transaction.user ≡ a.transaction.user)
        × (b.transaction.data_ ≡ a.transaction.data_)
        × (b.transaction.wanted ≡ a.transaction.wanted) × (b.transaction.xo ≡ a.transaction.xo) }
{}

/// Each happening leaves what was asked as it was, or begins one transaction, or gives an answer to one.
pub fn what_was_asked_changes_by_one<A: Allocator>()
    ensures { (n : Network) (h : Happening) → ChangesAsked A n h }
{}
