//! The Name Binding Protocol (NBP): its packets, which names match a pattern, a node's table of its own names, and its
//! lookups of the names of others.
#![tactic(auto)]

mod asking;
mod fault;
mod find;
mod function;
pub mod laws;
mod lookup;
mod name;
mod names;
mod owner;
mod packet;
mod relaying;
mod replies;
mod search;
mod strings;
mod title;
mod tuple;
mod tuples;

pub use fault::NbpFault;
pub use find::{Find, copy_of};
pub use function::Function;
pub use lookup::{Lookup, MAX_LOOKUPS};
pub use name::{Name, matches};
pub use names::{MAX_NAMES, Names, Registered, is_no_name};
pub use owner::Owner;
pub use packet::{MAX_TUPLES, Packet, decode, encode};
pub use relaying::relay;
pub use search::MAX_FINDS;
pub use tuple::Tuple;
pub use tuples::Tuples;
