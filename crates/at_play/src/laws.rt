//! A law of plays. The function only calls the laws of worlds: its contract is the law.
ghost use Rattle.std.specs.Prelude.{◌≡◌, true};
ghost use Rattle.at_play.specs.Ends.{Obeys};
ghost use Rattle.at_play.specs.Told.{Played};
ghost use Rattle.at_setup.specs.Setups.{is_lawful};
ghost use Rattle.at_setup.specs.declared.setup.Setup.{Setup};

use at_world::laws::{at_most_16_nodes_stand, exactly_once_requests_run_once, steps_are_a_run};
use std::alloc::Allocator;

/// What is played of a lawful setup obeys it: each event was safe, the reports are a run of the machine, and
/// exactly-once requests ran once.
pub fn plays_obey<A: Allocator>()
    ensures { (setup : Setup A) → is_lawful setup ≡ true → (p : Played setup) → Obeys setup p }
{
    at_most_16_nodes_stand::<A>();
    steps_are_a_run::<A>();
    exactly_once_requests_run_once::<A>();
}
