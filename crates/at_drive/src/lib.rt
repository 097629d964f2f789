//! Nodes that are driven over a cable. They take calls, timers and what the cable delivers, and send on it.
#![tactic(auto)]

mod arrival;
mod driving;
mod log;
mod places;
mod sending;
mod step;
mod stepping;

pub use arrival::Arrival;
pub use driving::{drive, has_all};
pub use log::{DriveFault, Log};
pub use step::Step;
pub use stepping::Drive;
