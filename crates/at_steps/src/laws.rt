//! The laws of a node's steps, a law for each kind of event and each protocol. Those of ATP are here, the others in
//! files of their own. The functions do nothing at run time.
ghost use Rattle.std.specs.Prelude.{◌≡◌, ℕ, ◌==◌, List, Some, true, false};
ghost use Rattle.at_ddp.specs.Datagram.{canonical};
ghost use Rattle.at_ddp.specs.declared.address.Address.{Address};
ghost use Rattle.at_atp_frame.specs.Frames.{spelled};
ghost use Rattle.at_ddp.specs.Posts.{packet_at};
ghost use Rattle.at_ddp.specs.Protocols.{atp_kind};
ghost use Rattle.at_atp.specs.Network.{Happening, NoneHolds, Sent, is_fresh, after};
ghost use Rattle.at_transaction_socket.specs.TransactionSockets.{asking};
ghost use Rattle.at_event.specs.Kinds.{IsCall};
ghost use Rattle.at_node.specs.Numbers.{drawn_by, holds};
ghost use Rattle.at_node.specs.Hearing.{Hears};
ghost use Rattle.at_event.specs.Kinds.{speaker_of_call, speaker_of_timer};
ghost use Rattle.at_node.specs.Nodes.{NodeState, called, timed};
ghost use Rattle.at_event.specs.Outcomes.{Outcome};
ghost use Rattle.at_event.specs.Services.{is_asked};
ghost use Rattle.at_node.specs.declared.numbers.Draw.TheVariants.{Tid};
ghost use Rattle.at_event.specs.declared.Call.{Call};
ghost use Rattle.at_event.specs.declared.Timer.{Timer};
ghost use Rattle.at_event.specs.declared.service.Reply.{Reply};
ghost use Rattle.at_event.specs.declared.service.Reply.TheVariants.{Later};
ghost use Rattle.at_steps.specs.Acts.{Act, Calls, Fires, Gets};
ghost use Rattle.at_steps.specs.AtpHappenings.{HoldsNo, IsForeign, IsHappening, Passes, Stands, is_atp};

use std::alloc::Allocator;

pub mod names;
pub mod safety;
pub mod sessions;
pub mod streams;

/// An event of ATP or ZIP is one happening among requesters and responders, if no responder holds the number that it
/// makes the node draw. It is a call, a timer that fires, or a packet in time that comes to a node. The service of that
/// node answers later.
pub fn an_event_is_a_happening_of_atp<A: Allocator>()
    ensures call { (history : List Happening) (n : NodeState) (call : Call A)
        → Stands A history n.seat.net n.seat.number n → IsCall call → is_atp (speaker_of_call call) ≡ true
        → ((tid : ℕ) → drawn_by (called n call).report ≡ Some (Tid tid)
        → NoneHolds (after A history).responders (asking n.seat.net n.seat.number) tid)
        → IsHappening A history n.seat.net n.seat.number n (Calls call) (called n call) }
    ensures timer { (history : List Happening) (n : NodeState) (time : Timer)
        → Stands A history n.seat.net n.seat.number n → is_atp (speaker_of_timer time) ≡ true
        → IsHappening A history n.seat.net n.seat.number n (Fires time) (timed n time) }
    ensures packet { (history : List Happening) (n : NodeState) (datagram : ℕ) (s : Sent) (said : Reply A)
        (o : Outcome A NodeState) → Stands A history n.seat.net n.seat.number n
        → packet_at (after A history).sent datagram ≡ Some s → is_fresh (after A history).drawn s ≡ true
        → ((tid : ℕ) → drawn_by o.report ≡ Some (Tid tid)
        → NoneHolds (after A history).responders (asking n.seat.net n.seat.number) tid)
        → (is_asked o.report ≡ true → said ≡ Later)
        → Hears said n (canonical s.to s.from atp_kind (spelled s.packet)) o
        → IsHappening A history n.seat.net n.seat.number n (Gets datagram) o }
{
    at_atp::laws::responses_are_answers::<A>();
    at_atp::laws::what_is_sent_is_lawful::<A>();
    at_atp::laws::numbers_stay_open::<A>();
    at_atp::laws::a_new_request_waits();
    at_atp::laws::no_more_is_sent_than_answered();
    at_atp::laws::an_end_is_answered_by_nothing::<A>();
    at_node::laws::what_is_sent_is_heard::<A>();
    at_zip::laws::a_page_fits_one_packet();
    at_zip::laws::names_without_a_fault_are_a_table();
    at_zip::laws::tables_stay_tables();
}

/// An event of another protocol leaves the part of ATP and ZIP as it was, and sends no packet of that part. Such a step
/// is one happening among requesters and responders, which leaves transactions as they were.
pub fn another_protocols_event_passes_atp<A: Allocator>()
    ensures call { (n : NodeState) (call : Call A) → is_atp (speaker_of_call call) ≡ false
        → IsForeign n (Calls call) (called n call) }
    ensures timer { (n : NodeState) (time : Timer) → is_atp (speaker_of_timer time) ≡ false
        → IsForeign {A = A} n (Fires time) (timed n time) }
    ensures datagram { (n : NodeState) (datagram : ℕ) (to from : Address) (kind : ℕ) (bytes : List ℕ) (said : Reply A)
        (o : Outcome A NodeState) → (kind == atp_kind) ≡ false → Hears said n (canonical to from kind bytes) o
        → IsForeign n (Gets datagram) o }
    ensures passes { (history : List Happening) (n : NodeState) (act : Act A) (o : Outcome A NodeState)
        → Stands A history n.seat.net n.seat.number n → IsForeign n act o
        → Passes A history n.seat.net n.seat.number n act o }
{
    at_ddp::laws::the_protocol_is_read_as_written();
}

/// A transaction number that a node does not hold has no record at the node's responders.
pub fn a_number_that_is_not_held_has_no_record()
    ensures { (net k tid : ℕ) (n : NodeState) → holds n k (Tid tid) ≡ false
        → HoldsNo (asking net k) tid n.atp.transactions.service_responder × HoldsNo (asking net k) tid
        n.atp.zones.zone_responder }
{}
