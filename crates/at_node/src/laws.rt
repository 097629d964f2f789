//! Laws of what comes of calls, timers and received bytes. The functions only call the laws of the layers below: each
//! contract is a law.
ghost use Rattle.std.specs.Prelude.{◌≡◌, ◌↔◌, ℕ, List, None};
ghost use Rattle.at_ddp.specs.Datagram.{IsAddress, canonical};
ghost use Rattle.at_ddp.specs.declared.address.Address.{Address};
ghost use Rattle.at_ddp.specs.Protocols.{atp_kind};
ghost use Rattle.at_atp_frame.specs.Frames.{Content, IsLawful, spelled};
ghost use Rattle.at_node.specs.Nodes.{KeepsSeat, NodeState, called, timed};
ghost use Rattle.at_event.specs.declared.Call.{Call};
ghost use Rattle.at_event.specs.declared.Timer.{Timer};
ghost use Rattle.at_event.specs.Outcomes.{Outcome};
ghost use Rattle.at_atp_frame.specs.Frames.{owner, number_of};
ghost use Rattle.at_node.specs.Numbers.{Carries, DrawsHearing, IsTold, draw_of, drawn_by};
ghost use Rattle.at_node.specs.declared.numbers.Draw.{Draw};
ghost use Rattle.at_node.specs.declared.numbers.Draw.TheVariants.{Tid};
ghost use Rattle.at_node.specs.Hearing.{Hears, HearsSent};
ghost use Rattle.at_event.specs.declared.service.Reply.{Reply};

use std::alloc::Allocator;

/// What is sent is received: the bytes of a packet do what that packet does at the socket that it was sent to.
pub fn what_is_sent_is_heard<A: Allocator>()
    ensures { (said : Reply A) (n : NodeState) (to from : Address) (f : Content) (o : Outcome A NodeState)
        → IsAddress to → IsAddress from → IsLawful f
        → Hears said n (canonical to from atp_kind (spelled f)) o → HearsSent said n to from f o }
{
    at_ddp::laws::what_is_written_is_read();
    at_atp::laws::what_is_written_is_read();
    at_atp::laws::what_is_written_fits();
}

/// The number that an event draws is the one that its report has.
pub fn what_is_drawn_is_told<A: Allocator>()
    ensures call { (n : NodeState) (call : Call A) → drawn_by (called n call).report ≡ draw_of n call }
    ensures timer { (n : NodeState) (time : Timer) → drawn_by (timed {A = A} n time).report ≡ None }
    ensures bytes { (n : NodeState) (bytes : List ℕ) (draw : Draw) → IsTold A n bytes draw
        ↔ DrawsHearing n bytes draw }
{
    at_stream_socket::laws::requests_alone_make_ends();
    at_zone_socket::laws::pages_alone_begin_transactions::<A>();
}

/// A node stays at its seat, whatever its user asks, whatever timer fires, and whatever comes.
pub fn a_node_keeps_its_seat<A: Allocator>()
    ensures call { (n : NodeState) (call : Call A) → KeepsSeat n (called n call) }
    ensures timer { (n : NodeState) (time : Timer) → KeepsSeat {A = A} n (timed n time) }
    ensures bytes { (said : Reply A) (n : NodeState) (bytes : List ℕ) (o : Outcome A NodeState) → Hears said n bytes o
        → KeepsSeat n o }
{}

/// The bytes of a packet carry the number of that packet.
pub fn what_is_sent_carries_its_number()
    ensures { (to from : Address) (f : Content) → IsAddress to → IsAddress from → IsLawful f
        → Carries (canonical to from atp_kind (spelled f)) (owner from to f).node (Tid (number_of f)) }
{
    at_ddp::laws::what_is_written_is_read();
    at_atp::laws::what_is_written_is_read();
    at_atp::laws::what_is_written_fits();
}
