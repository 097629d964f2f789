//! The laws of streams. The functions do nothing at run time.
ghost use Rattle.std.specs.Prelude.{◌≡◌, ◌≢◌, ◌∷◌, ℕ, ◌==◌, List, Some, None, true, false};
ghost use Rattle.at_ddp.specs.Datagram.{canonical};
ghost use Rattle.at_ddp.specs.declared.address.Address.{Address};
ghost use Rattle.at_adsp_frame.specs.Segments.{spelled};
ghost use Rattle.at_adsp_end.specs.Ends.{EndState, has_opened};
ghost use Rattle.at_adsp_ends.specs.Tables.{by_id, by_remote};
ghost use Rattle.at_adsp.specs.Lawfully.{IsLawfullySent};
ghost use Rattle.at_adsp.specs.Connections.{streams};
ghost use Rattle.at_adsp.specs.Meetings.{NamesPeer, ReadsWith};
ghost use Rattle.at_adsp.specs.Network.{Happening, NoneNames, Reads, Sent, Setting, after, dest_of, is_fresh};
ghost use Rattle.at_ddp.specs.Posts.{packet_at};
ghost use Rattle.at_ddp.specs.Protocols.{adsp_kind};
ghost use Rattle.at_adsp.specs.Orders.{ReadsInOrder};
ghost use Rattle.at_adsp_end.specs.declared.item.Item.{Item};
ghost use Rattle.at_event.specs.Kinds.{IsCall};
ghost use Rattle.at_node.specs.Numbers.{Carries, drawn_by, holds};
ghost use Rattle.at_node.specs.Hearing.{Hears};
ghost use Rattle.at_event.specs.Kinds.{speaker_of_call, speaker_of_timer};
ghost use Rattle.at_node.specs.Nodes.{NodeState, called, timed};
ghost use Rattle.at_event.specs.Outcomes.{Outcome};
ghost use Rattle.at_node.specs.declared.numbers.Draw.TheVariants.{Conn};
ghost use Rattle.at_event.specs.declared.Call.{Call};
ghost use Rattle.at_event.specs.declared.Call.TheVariants.{Streams};
ghost use Rattle.at_event.specs.declared.streams.StreamCall.TheVariants.{Read};
ghost use Rattle.at_event.specs.declared.Report.TheVariants as report;
ghost use Rattle.at_event.specs.declared.streams.StreamReport.TheVariants as adsp_report;
ghost use Rattle.at_event.specs.declared.Timer.{Timer};
ghost use Rattle.at_event.specs.declared.service.Reply.{Reply};
ghost use Rattle.at_stream_socket.specs.Sockets.{streams_at};
ghost use Rattle.at_steps.specs.Acts.{Act, Calls, Fires, Gets};
ghost use Rattle.at_steps.specs.StreamHappenings.{IsForeign, IsHappening, Passes, Stands, is_adsp};

use std::alloc::Allocator;

/// An event of ADSP is one happening among ends of streams, if no end has the identifier that it makes the node draw as
/// its remote: a call, a timer that fires, or a segment in time that comes to a node.
pub fn an_event_is_a_happening<A: Allocator>()
    ensures call { (setting : Setting) (history : List Happening) (n : NodeState) (call : Call A)
        → Stands setting history n.seat.net n.seat.number n → IsCall call → is_adsp (speaker_of_call call) ≡ true
        → ((id : ℕ) → drawn_by (called n call).report ≡ Some (Conn id)
        → NoneNames (after setting history) (streams_at n.seat.net n.seat.number) id)
        → IsHappening setting history n.seat.net n.seat.number n (Calls call) (called n call) }
    ensures timer { (setting : Setting) (history : List Happening) (n : NodeState) (time : Timer)
        → Stands setting history n.seat.net n.seat.number n → is_adsp (speaker_of_timer time) ≡ true
        → IsHappening {A = A} setting history n.seat.net n.seat.number n (Fires time) (timed n time) }
    ensures packet { (setting : Setting) (history : List Happening) (n : NodeState) (datagram : ℕ) (s : Sent)
        (said : Reply A) (o : Outcome A NodeState) → Stands setting history n.seat.net n.seat.number n
        → packet_at (after setting history).sent datagram ≡ Some s → is_fresh (after setting history).made s ≡ true
        → ((id : ℕ) → drawn_by o.report ≡ Some (Conn id)
        → NoneNames (after setting history) (streams_at n.seat.net n.seat.number) id)
        → Hears said n (canonical s.to s.from adsp_kind (spelled s.packet)) o
        → IsHappening setting history n.seat.net n.seat.number n (Gets datagram) o }
{
    at_ddp::laws::what_is_written_is_read();
    at_adsp::laws::what_is_written_is_read();
    at_adsp::laws::what_is_written_fits();
    at_adsp::laws::what_is_sent_is_lawful();
    at_adsp::laws::streams_change_by_one();
    at_adsp::laws::ends_that_are_open_are_paired();
    at_adsp::laws::an_end_that_opens_has_a_peer();
}

/// What is read of an end reads from what was written at its peer, if all that was read so far was written in order.
pub fn what_is_read_reads_from_a_peer<A: Allocator>()
    ensures { (setting : Setting) (history : List Happening) (n : NodeState) (id count : ℕ) (items : List Item)
        → Stands setting history n.seat.net n.seat.number n
        → (called {A = A} n (Streams (Read id count))).report ≡ report.Streams (adsp_report.Read items)
        → ReadsInOrder (after setting (Reads (streams_at n.seat.net n.seat.number) id count ∷ history))
        → ReadsWith (streams (after setting history)) (streams_at n.seat.net n.seat.number) id items }
{
    at_adsp::laws::what_is_read_reads_from_a_peer();
}

/// An end of a node that opened names its peer: its remote is the address and the identifier of that end.
pub fn an_end_that_opened_names_its_peer()
    ensures { (setting : Setting) (history : List Happening) (n : NodeState) (id : ℕ) (e : EndState)
        → Stands setting history n.seat.net n.seat.number n → by_id n.streams id ≡ Some e
        → has_opened e.phase ≡ true
        → NamesPeer (streams (after setting history)) (streams_at n.seat.net n.seat.number) e }
{
    at_adsp::laws::an_end_that_opened_names_its_peer();
}

/// An event of another protocol leaves the socket for streams as it was, and sends no segment. Such a step is one
/// happening among ends of streams, which leaves all streams as they were.
pub fn another_protocols_event_passes<A: Allocator>()
    ensures call { (n : NodeState) (call : Call A) → is_adsp (speaker_of_call call) ≡ false
        → IsForeign n (Calls call) (called n call) }
    ensures timer { (n : NodeState) (time : Timer) → is_adsp (speaker_of_timer time) ≡ false
        → IsForeign {A = A} n (Fires time) (timed n time) }
    ensures datagram { (n : NodeState) (datagram : ℕ) (to from : Address) (kind : ℕ) (bytes : List ℕ) (said : Reply A)
        (o : Outcome A NodeState) → (kind == adsp_kind) ≡ false → Hears said n (canonical to from kind bytes) o
        → IsForeign n (Gets datagram) o }
    ensures passes { (setting : Setting) (history : List Happening) (n : NodeState) (act : Act A)
        (o : Outcome A NodeState) → Stands setting history n.seat.net n.seat.number n → IsForeign n act o
        → Passes setting history n.seat.net n.seat.number n act o }
{
    at_ddp::laws::the_protocol_is_read_as_written();
}

/// A segment in a datagram carries the identifier of the end that sent it, and that of its destination; 0 is none.
pub fn a_segment_carries_its_identifiers()
    ensures source { (s : Sent) → IsLawfullySent s → s.packet.source ≢ 0
        → Carries (canonical s.to s.from adsp_kind (spelled s.packet)) s.from.node (Conn s.packet.source) }
    ensures dest { (s : Sent) → IsLawfullySent s → dest_of s.packet.body ≢ 0
        → Carries (canonical s.to s.from adsp_kind (spelled s.packet)) s.to.node (Conn (dest_of s.packet.body)) }
{
    at_ddp::laws::what_is_written_is_read();
    at_adsp::laws::what_is_written_is_read();
    at_adsp::laws::what_is_written_fits();
}

/// An identifier of a node's end that no end here is connected to is no remote of an end here.
pub fn an_identifier_that_is_not_held_has_no_end()
    ensures { (n : NodeState) (k id : ℕ) (at : Address) → holds n k (Conn id) ≡ false → at.node ≡ k
        → by_remote n.streams (record { address = at; id = id }) ≡ None }
{}
