//! The lines of a setup: `net`, then a `node` for each node, and `zones` and `local` for the router's two tables. A
//! draft takes one line after another, and refuses a line with which no setup begins.
#![tactic(auto)]

mod draft;
pub mod laws;
mod node_line;
mod nodes;
mod table;

pub use draft::SetupDraft;
pub use nodes::lacks_router;
