//! The law of safety, whatever comes to a node. The function does nothing at run time.
ghost use Rattle.std.specs.Prelude.{ℕ, List};
ghost use Rattle.at_event.specs.Outcomes.{Outcome};
ghost use Rattle.at_event.specs.declared.Call.{Call};
ghost use Rattle.at_event.specs.declared.Timer.{Timer};
ghost use Rattle.at_event.specs.declared.service.Reply.{Reply};
ghost use Rattle.at_node.specs.Hearing.{Hears};
ghost use Rattle.at_node.specs.Limits.{IsWithin};
ghost use Rattle.at_node.specs.Nodes.{NodeState, called, timed};
ghost use Rattle.at_steps.specs.Safety.{IsTableOf, IsTableOfCall, IsSafe};

use std::alloc::Allocator;

/// Each event of a node that keeps to its limits is safe. If it is refused, it changes nothing and sends nothing. The
/// number is that of a fault, and a full table is reported only if it is full. It sends at most 131,070 datagrams.
pub fn every_event_is_safe<A: Allocator>()
    ensures call { (n : NodeState) (call : Call A) → IsWithin n → IsSafe IsTableOfCall n n (called n call) }
    ensures timer { (n : NodeState) (time : Timer) → IsWithin n → IsSafe {A = A} IsTableOfCall n n (timed n time) }
    ensures datagram { (n : NodeState) (said : Reply A) (bytes : List ℕ) (o : Outcome A NodeState) → IsWithin n
        → Hears said n bytes o → IsSafe (IsTableOf bytes) n n o }
{
    at_atp_requester::laws::below_32_a_number_is_free();
    at_atp_responder::laws::no_more_is_sent_than_answered();
    at_atp_responder::laws::at_most_eight_packets_are_sent();
    at_nbp::laws::below_8_an_identifier_is_free();
    at_name_socket::laws::few_packets_are_sent();
    at_adsp_ends::laws::below_16_an_identifier_is_free();
    at_adsp_ends::laws::few_segments_are_sent();
    at_adsp_ends::laws::few_segments_are_sent_by_calls();
}
