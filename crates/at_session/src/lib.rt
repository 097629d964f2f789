//! What a node keeps of its reports: the zone lists, the zone that was picked, and what a lookup
//! found.
#![tactic(auto)]

mod session;

pub use session::Session;
