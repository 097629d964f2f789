//! The side that asks, of the AppleTalk Transaction Protocol (ATP): the transactions of one socket.
#![tactic(auto)]

pub mod laws;
mod numbers;
mod part;
mod progress;
mod requester;
mod standing;
mod transaction;
mod turning;

pub use progress::{RequestProgress, Retry};
pub use requester::Requester;
pub use turning::Ending;
