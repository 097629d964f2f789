//! The ends of the streams of a node, by the AppleTalk Data Stream Protocol (ADSP).
#![tactic(auto)]

mod calls;
mod ends;
mod identifiers;
pub mod laws;
mod openings;
mod receiving;
mod remotes;
mod standing;

pub use at_adsp_end::{EndChange, Item, Phase, Remote, Rooms, StreamFault, Tick};
pub use ends::{Ends, MAX_ENDS};
