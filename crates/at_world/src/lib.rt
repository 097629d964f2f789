//! A world of nodes on one cable. Any datagram may come late, again or never.
#![tactic(auto)]

mod draws;
mod history;
pub mod laws;
mod log;
mod player;
mod sent;
mod timely;
mod transcript;
mod view;
mod world;

pub use at_setup::{Event, EventFault, NodeSetup, Refusal, Setup};
pub use player::play;
pub use sent::{Sent, SentList};
pub use transcript::{PlayFault, Transcript};
pub use world::World;
