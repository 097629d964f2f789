//! A table: entries in the order in which they were put in, each found by its key.
#![tactic(auto)]

mod table;

pub use table::Table;
