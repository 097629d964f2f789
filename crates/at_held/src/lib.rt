//! A node in the hands of a program that is not Rattle: calls and timers go in as words, and a report comes out as
//! words. All memory is the system's, by `Global`, as that of the program is.
#![tactic(auto)]

mod held;
mod opening;
mod room;
mod sent;
mod shown;
mod text;
mod timers;
mod withheld;

pub use held::HeldNode;
pub use opening::OpenFault;
pub use shown::show;
pub use withheld::Withheld;
