//! The side that answers, of the AppleTalk Transaction Protocol (ATP): the requests that came to one socket.
#![tactic(auto)]

mod answer_room;
mod answering;
mod at_once;
pub mod laws;
mod reception;
mod record;
mod records;
mod responder;
mod settling;

pub use reception::{Key, NewRequest, Reception};
pub use responder::Responder;
