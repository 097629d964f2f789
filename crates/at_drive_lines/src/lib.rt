//! Schedules of nodes that talk over sockets, as text: the setup and the port that the first lines say, and the step of
//! each line after them.
#![tactic(auto)]

mod draft;
mod head;
pub mod laws;
mod lines;
mod node_line;
mod ports;
mod step_line;

pub use head::{DriveHead, read_head};
pub use lines::{Lines, ReadLines, TextLines};
pub use node_line::line_of_node;
pub use step_line::step_in;
