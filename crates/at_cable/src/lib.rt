//! A cable: what carries datagrams between nodes, whatever it is made of. One in memory shows it.
#![tactic(auto)]

mod cable;
mod fault;
mod memory;
mod waiting;

pub use cable::Cable;
pub use fault::CableFault;
pub use memory::MemoryCable;
