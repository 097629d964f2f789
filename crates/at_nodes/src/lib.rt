//! The nodes of a cable: those of a setup before anything happened, the place of a number among them, what they hold,
//! and what one of them does with an input.
#![tactic(auto)]

mod opening;
mod places;
mod taking;

pub use opening::opening_nodes;
pub use places::{is_held, place_of};
pub use taking::take;
