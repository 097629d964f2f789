//! What a step of a node is to its protocols: one happening of each protocol's network.
#![tactic(auto)]

pub mod laws;
