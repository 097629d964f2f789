//! A node of a cable. Each event goes in by one call, which returns a report and appends what the node sends to a list.
#![tactic(auto)]

mod hearing;
pub mod laws;
mod name_calls;
mod name_part;
mod node;
mod numbers;
mod settings;
mod timers;

pub use node::Node;
pub use numbers::{Draw, Input, carried_in};
pub use settings::Settings;
