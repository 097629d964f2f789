//! The laws of names and lookups. The functions do nothing at run time.
ghost use Rattle.std.specs.Prelude.{◌≡◌, ℕ, ◌==◌, List, Some, true, false};
ghost use Rattle.at_ddp.specs.Datagram.{canonical};
ghost use Rattle.at_ddp.specs.declared.address.Address.{Address};
ghost use Rattle.at_nbp.specs.Lawfully.{IsLawfullySent};
ghost use Rattle.at_ddp.specs.Posts.{packet_at};
ghost use Rattle.at_ddp.specs.Protocols.{nbp_kind};
ghost use Rattle.at_nbp.specs.Network.{Happening, Sent, Setting, after, is_fresh};
ghost use Rattle.at_nbp.specs.Packets.{spelling};
ghost use Rattle.at_nbp.specs.declared.function.Function.TheVariants as function;
ghost use Rattle.at_event.specs.Kinds.{IsCall};
ghost use Rattle.at_node.specs.Numbers.{Carries};
ghost use Rattle.at_node.specs.Hearing.{Hears};
ghost use Rattle.at_event.specs.Kinds.{speaker_of_call, speaker_of_timer};
ghost use Rattle.at_node.specs.Nodes.{NodeState, called, timed};
ghost use Rattle.at_event.specs.Outcomes.{Outcome};
ghost use Rattle.at_node.specs.declared.numbers.Draw.TheVariants.{Lookup};
ghost use Rattle.at_event.specs.declared.Call.{Call};
ghost use Rattle.at_event.specs.declared.Timer.{Timer};
ghost use Rattle.at_event.specs.declared.service.Reply.{Reply};
ghost use Rattle.at_steps.specs.Acts.{Act, Calls, Fires, Gets};
ghost use Rattle.at_steps.specs.NameHappenings.{Happens, IsForeign, IsHappening, Stands, is_nbp};

use std::alloc::Allocator;

/// An event of NBP is one happening among names and lookups: a call, a timer that fires, or a packet that comes to a
/// node. A reply has to come in time.
pub fn an_event_is_a_happening<A: Allocator>()
    ensures call { (setting : Setting) (history : List Happening) (n : NodeState) (call : Call A)
        → Stands setting history n.seat.net n.seat.number n → IsCall call → is_nbp (speaker_of_call call) ≡ true
        → IsHappening setting history n.seat.net n.seat.number n (Calls call) (called n call) }
    ensures timer { (setting : Setting) (history : List Happening) (n : NodeState) (time : Timer)
        → Stands setting history n.seat.net n.seat.number n → is_nbp (speaker_of_timer time) ≡ true
        → IsHappening {A = A} setting history n.seat.net n.seat.number n (Fires time) (timed n time) }
    ensures packet { (setting : Setting) (history : List Happening) (n : NodeState) (datagram : ℕ) (s : Sent)
        (said : Reply A) (o : Outcome A NodeState) → Stands setting history n.seat.net n.seat.number n
        → packet_at (after setting history).sent datagram ≡ Some s
        → (s.packet.function ≡ function.Reply → is_fresh (after setting history).begun s ≡ true)
        → Hears said n (canonical s.to s.from nbp_kind (spelling s.packet)) o
        → IsHappening setting history n.seat.net n.seat.number n (Gets datagram) o }
{
    at_ddp::laws::what_is_written_is_read();
    at_nbp::laws::what_is_written_is_read();
    at_nbp::laws::one_packet_a_spelling();
    at_nbp::laws::what_is_sent_is_lawful();
    at_nbp::laws::finds_stood_since_their_lookup_began();
    at_nbp::laws::a_table_with_one_name_more_is_computed();
    at_name_socket::laws::a_call_is_a_happening::<A>();
    at_name_socket::laws::a_packet_is_a_happening();
}

/// An event of another protocol leaves the socket for names as it was, and sends no packet of NBP. Such a step is one
/// happening among names and lookups, which leaves them as they were.
pub fn another_protocols_event_passes<A: Allocator>()
    ensures call { (n : NodeState) (call : Call A) → is_nbp (speaker_of_call call) ≡ false
        → IsForeign n (Calls call) (called n call) }
    ensures timer { (n : NodeState) (time : Timer) → is_nbp (speaker_of_timer time) ≡ false
        → IsForeign {A = A} n (Fires time) (timed n time) }
    ensures datagram { (n : NodeState) (datagram : ℕ) (to from : Address) (kind : ℕ) (bytes : List ℕ) (said : Reply A)
        (o : Outcome A NodeState) → (kind == nbp_kind) ≡ false → Hears said n (canonical to from kind bytes) o
        → IsForeign n (Gets datagram) o }
    ensures passes { (setting : Setting) (history : List Happening) (n : NodeState) (act : Act A)
        (o : Outcome A NodeState) → Stands setting history n.seat.net n.seat.number n → IsForeign n act o
        → Happens setting history n.seat.net n.seat.number n act o }
{
    at_ddp::laws::the_protocol_is_read_as_written();
}

/// A reply in a datagram carries the identifier of the lookup that it answers.
pub fn a_reply_carries_its_identifier()
    ensures { (s : Sent) → IsLawfullySent s → s.packet.function ≡ function.Reply
        → Carries (canonical s.to s.from nbp_kind (spelling s.packet)) s.to.node (Lookup s.packet.id) }
{
    at_ddp::laws::what_is_written_is_read();
    at_nbp::laws::what_is_written_is_read();
}
