//! The objects and types of names' patterns: which texts such a part of a pattern stands for.
#![tactic(auto)]

pub mod laws;
mod matching;

pub use matching::{is_any_text, matches_text};
