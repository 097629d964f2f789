//! What a schedule is read from: a stream, or what was opened and may be sent back to its beginning.
#![tactic(auto)]

mod opened;
mod source;

pub use opened::Opened;
pub use source::Source;
