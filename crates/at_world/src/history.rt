//! How the proofs tell a run from a world: by the history of its network. The function does nothing.
ghost use Rattle.std.specs.Prelude.{◌≡◌, List, true};
ghost use Rattle.at_event.specs.declared.Report.{Report};
ghost use Rattle.at_atp.specs.Network.{Happening};
ghost use Rattle.at_world.specs.Agreements.{HasAgreeingRun};
ghost use Rattle.at_world.specs.Events.{NoForge};
ghost use Rattle.at_world.specs.Plays.{Follows, opening_world};
ghost use Rattle.at_setup.specs.Setups.{tables_of};
ghost use Rattle.at_setup.specs.Setups.{is_lawful};
ghost use Rattle.at_world.specs.Stories.{IsHistory};
ghost use Rattle.at_world.specs.Worlds.{WorldState};
ghost use Rattle.at_setup.specs.declared.event.Event.{Event};
ghost use Rattle.at_setup.specs.declared.setup.Setup.{Setup};

use std::alloc::Allocator;

// The reports of a world that is stepped from its opening on are a run of the machine, which agrees with the worlds
// throughout. Each event is one happening in the network of requesters and responders.
pub(crate) fn steps_make_a_history<A: Allocator>()
    ensures { (s : Setup A) (events : List (Event A)) (reports : List (Report A)) (w : WorldState) → is_lawful s ≡ true
        → NoForge events → Follows (opening_world s) events reports w
        → HasAgreeingRun s events reports w
        × ((history : List Happening) × IsHistory s.net (tables_of s) events reports w.sent history) }
{
    at_steps::laws::an_event_is_a_happening_of_atp::<A>();
    at_steps::laws::another_protocols_event_passes_atp::<A>();
    at_steps::laws::a_number_that_is_not_held_has_no_record();
    at_steps::laws::sessions::an_event_is_a_step_of_the_session::<A>();
    at_steps::laws::names::an_event_is_a_happening::<A>();
    at_steps::laws::names::another_protocols_event_passes::<A>();
    at_steps::laws::names::a_reply_carries_its_identifier();
    at_steps::laws::streams::an_event_is_a_happening::<A>();
    at_steps::laws::streams::another_protocols_event_passes::<A>();
    at_steps::laws::streams::a_segment_carries_its_identifiers();
    at_steps::laws::streams::an_identifier_that_is_not_held_has_no_end();
    at_steps::laws::streams::what_is_read_reads_from_a_peer::<A>();
    at_steps::laws::streams::an_end_that_opened_names_its_peer();
    at_atp::laws::what_is_sent_is_lawful::<A>();
    at_node::laws::a_node_keeps_its_seat::<A>();
    at_node::laws::what_is_sent_carries_its_number();
    at_node::laws::what_is_drawn_is_told::<A>();
    at_zip::laws::what_is_written_is_read();
    at_zip::laws::one_page_a_spelling();
    at_zip::laws::a_page_is_the_longest_run();
    at_zip::laws::a_page_goes_on_with_its_table();
    at_zip::laws::names_without_a_fault_are_a_table();
    at_zip::laws::tables_stay_tables();
    at_nbp::laws::finds_stood_since_their_lookup_began();
    at_nbp::laws::what_is_sent_is_lawful();
    at_name_socket::laws::a_new_socket_is_lawful();
    at_adsp::laws::what_is_sent_is_lawful();
    at_adsp::laws::what_is_read_on_the_cable_was_written_in_order();
    at_adsp::laws::few_segments_are_near();
}
