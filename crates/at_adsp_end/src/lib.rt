//! One end of a stream of the AppleTalk Data Stream Protocol (ADSP): its state, and what each call, tick and segment
//! does to it.
#![tactic(auto)]

mod advance;
mod arrival;
mod calls;
mod change;
mod cutting;
mod end;
mod fault;
mod forward;
mod hearing;
mod item;
mod load;
mod opening;
mod outgoing;
mod packets;
mod phase;
mod positions;
mod remote;
mod resets;
mod rooms;
mod tick;

pub use change::EndChange;
pub use end::End;
pub use fault::StreamFault;
pub use forward::Forward;
pub use item::Item;
pub use phase::Phase;
pub use remote::Remote;
pub use rooms::Rooms;
pub use tick::Tick;
