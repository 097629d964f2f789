//! Laws of worlds. The functions do nothing: each contract is a law.
ghost use Rattle.std.specs.Prelude.{◌≡◌, ◌≤◌, List, [], length, true};
ghost use Rattle.at_event.specs.declared.Report.{Report};
ghost use Rattle.at_world.specs.Agreements.{HasAgreeingRun};
ghost use Rattle.at_world.specs.ExactlyOnce.{AllLive, RunsOnce, onto};
ghost use Rattle.at_world.specs.Events.{NoForge};
ghost use Rattle.at_world.specs.Machine.{Machine, Run, opening_machine};
ghost use Rattle.at_world.specs.Plays.{Follows, opening_world};
ghost use Rattle.at_world.specs.Sents.{AreCanonical};
ghost use Rattle.at_setup.specs.Setups.{tables_of};
ghost use Rattle.at_setup.specs.Setups.{is_lawful};
ghost use Rattle.at_world.specs.Worlds.{WorldState};
ghost use Rattle.at_setup.specs.declared.event.Event.{Event};
ghost use Rattle.at_setup.specs.declared.setup.Setup.{Setup};

use crate::history::steps_make_a_history;
use std::alloc::Allocator;

/// A world opens with at most 16 nodes.
pub fn at_most_16_nodes_stand<A: Allocator>()
    ensures { (s : Setup A) → is_lawful s ≡ true → length (opening_world s).nodes ≤ 16 }
{}

/// The reports of a world that is stepped from its opening on are a run of the machine. After each event the machine
/// gives each end the peer that it has, and a page that was served to the request that came. All that the world sends
/// is spelled canonically.
pub fn steps_are_a_run<A: Allocator>()
    ensures machine { (s : Setup A) (events : List (Event A)) (reports : List (Report A)) (w : WorldState)
        → is_lawful s ≡ true → NoForge events → Follows (opening_world s) events reports w
        → (m : Machine) × Run (opening_machine s) events reports m }
    ensures agrees { (s : Setup A) (events : List (Event A)) (reports : List (Report A)) (w : WorldState)
        → is_lawful s ≡ true → NoForge events → Follows (opening_world s) events reports w
        → HasAgreeingRun s events reports w }
    ensures sent { (s : Setup A) (events : List (Event A)) (reports : List (Report A)) (w : WorldState)
        → Follows (opening_world s) events reports w → AreCanonical w.sent }
{
    steps_make_a_history::<A>();
}

/// If no request is delivered between the end of its record and the next draw of its number, exactly-once requests run
/// at most once. At each moment of a stepped world, each was delivered to the service at most once since its
/// transaction began. It was delivered exactly once if the transaction ended with a response.
pub fn exactly_once_requests_run_once<A: Allocator>()
    ensures { (s : Setup A) (events : List (Event A)) (reports : List (Report A)) (w : WorldState) → is_lawful s ≡ true
        → NoForge events → Follows (opening_world s) events reports w
        → AllLive s.net w.sent (onto (tables_of s) [] events reports)
        → RunsOnce s.net w.sent (onto (tables_of s) [] events reports) }
{
    steps_make_a_history::<A>();
    at_atp::laws::responses_are_answers::<A>();
    at_atp::laws::exactly_once_requests_are_answered_once::<A>();
    at_atp::laws::what_was_asked_changes_by_one::<A>();
    at_atp::laws::what_is_sent_is_lawful::<A>();
    at_atp::laws::what_is_written_fits();
    at_atp::laws::what_is_written_is_read();
    at_ddp::laws::what_is_written_is_read();
}
