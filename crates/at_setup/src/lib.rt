//! What a world is made of, what happens in it, and why something does not: setups, events and refusals.
#![tactic(auto)]

mod event;
mod refusal;
mod setup;

pub use event::Event;
pub use refusal::{EventFault, Refusal};
pub use setup::{NodeSetup, Setup};
