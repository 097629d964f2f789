//! A drive of nodes over a cable, printed step by step.
#![tactic(auto)]

mod course;
mod drive;
mod ending;
mod fault;
mod news;

pub use drive::drive_lines;
pub use fault::{end_at_fault, end_at_line};
